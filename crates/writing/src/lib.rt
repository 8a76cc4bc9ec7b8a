// Bytes and tokens written to lent bytes (RULES 1.15 b). What lies past the end of the lent bytes is counted and not written: over no bytes at all,
// every function here only counts.
#![tactic(auto)]

ghost use Rattle.std.specs.Prelude.{◌≡◌, [], ◌∷◌, ◌≤◌, ◌<◌, ◌+◌, length, take, drop};
ghost use Rattle.syntax.specs.Bytes.{tokens};
ghost use Rattle.lexer.specs.Lex.{part, kind_number};
ghost use Rattle.printed.specs.Form.{shortest};
ghost use Rattle.writing.specs.Written.{Fits, Writes, told, spanned, blanked, Moves};

use lexer::{Kind, Tok, token};

// The place reached in the lent bytes, and the place reached in the line.
#[derive(Clone, Copy, Debug, PartialEq, Eq)]
pub struct Moved {
    pub to: usize,
    pub at: usize,
}

pub fn put(out: &mut [u8], to: usize, b: u8) -> usize
    requires { Fits to (b ∷ []) }
    ensures { Writes out.old to (b ∷ []) out.new result }
{
    if to < out.len() {
        out[to] = b;
    }
    to + 1
}

pub fn put_bytes(out: &mut [u8], to: usize, s: &[u8]) -> usize
    requires { Fits to s.now }
    ensures { Writes out.old to s.now out.new result }
{
    let mut p = to;
    for b in s {
        p = put(out, p, *b);
    }
    p
}

// Where digits from a up to e begin without their leading zeros; of zeros alone the last stays.
fn significant(s: &[u8], a: usize, e: usize) -> usize
    requires { (a ≤ e) × (e ≤ length s.now) }
    ensures { (a ≤ result) × (result ≤ e) × (part s.now result e ≡ shortest (part s.now a e)) }
{
    let last = e.saturating_sub(1).max(a);
    for i in a..last {
        if s[i] != b'0' {
            return i;
        }
    }
    last
}

// Where a token begins, without leading zeros.
pub fn start_of(s: &[u8], t: Tok) -> usize
    requires { (t.start ≤ t.stop) × (t.stop ≤ length s.now) }
    ensures { (result ≤ t.stop) × (part s.now result t.stop ≡ told (kind_number t.kind) (part s.now t.start t.stop)) }
{
    if t.kind == Kind::Digits {
        significant(s, t.start, t.stop)
    } else {
        t.start
    }
}

// The bytes from a up to e after a blank; nothing if there are none.
pub fn put_span(out: &mut [u8], to: usize, s: &[u8], a: usize, e: usize) -> usize
    requires { (a ≤ e) × (e ≤ length s.now) × Fits to (spanned (part s.now a e)) }
    ensures { Writes out.old to (spanned (part s.now a e)) out.new result }
{
    if a == e {
        return to;
    }
    let p = put(out, to, b' ');
    put_bytes(out, p, &s[a..e])
}

// The next token of a line, after a blank; nothing at the line's end.
pub fn put_next(out: &mut [u8], to: usize, s: &[u8], at: usize) -> Moved
    requires { (at ≤ length s.now) × Fits to (blanked (take 1 (tokens (drop at s.now)))) }
    ensures { Moves out.old to s.now at (take 1) (drop 1) out.new result }
{
    let t = token(s, at);
    Moved {
        to: put_span(out, to, s, start_of(s, t), t.stop),
        at: t.stop,
    }
}
