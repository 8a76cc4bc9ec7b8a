// Tokens that are the same (RULES 3.1 b: an update's reference is the same token for token).
#![tactic(auto)]

ghost use Rattle.std.specs.Prelude.{◌≡◌, ◌≤◌, ◌<◌, length};
ghost use Rattle.syntax.specs.Meaning.{no_zeros};
ghost use Rattle.lexer.specs.Lex.{part, kind_number};
ghost use Rattle.alike.specs.Alike.{same_token, Alike};

use lexer::cursor::Cursor;
use lexer::{Kind, Tok, run_end};

// Digits after their leading zeros.
fn past_zeros(w: &[u8]) -> &[u8]
    ensures { result.now ≡ no_zeros w.now }
{
    &w[run_end(w, 0, |b| b == b'0')..]
}

// Whether two tokens are the same, leading zeros aside.
fn same_token(s: &[u8], t: Tok, u: Tok) -> bool
    requires { (t.start ≤ t.stop) × (t.stop ≤ length s.now) × (u.start ≤ u.stop) × (u.stop ≤ length s.now) }
    ensures { result ≡ same_token (kind_number t.kind) (part s.now t.start t.stop) (kind_number u.kind) (part s.now u.start u.stop) }
{
    let x = &s[t.start..t.stop];
    let y = &s[u.start..u.stop];
    if t.kind == Kind::End || t.kind != u.kind {
        false
    } else if t.kind == Kind::Digits {
        past_zeros(x) == past_zeros(y)
    } else {
        x == y
    }
}

// Whether the tokens up to n are those from one place to another.
pub fn alike(s: &[u8], n: usize, from: usize, to: usize) -> bool
    requires { (n ≤ length s.now) × (from ≤ length s.now) × (to ≤ length s.now) }
    ensures { Alike s.now n from to result }
{
    let mut left = Cursor { text: s, at: 0 };
    let mut right = Cursor { text: s, at: from };
    while left.at < n {
        if to <= right.at {
            return false;
        }
        let t = left.take();
        let u = right.take();
        if !same_token(s, t, u) {
            return false;
        }
    }
    to <= right.at
}
