// A line in the printed form (RULES 1.15): its tokens, one blank between them, a newline after it; of a data line every copy written out.
#![tactic(auto)]

ghost use Rattle.std.specs.Prelude.{◌≤◌, ◌<◌, ◌+◌, ◌-◌, length, drop};
ghost use Rattle.syntax.specs.Bytes.{tokens};
ghost use Rattle.writing.specs.Written.{Fits, Writes, blanked, Moves};
ghost use Rattle.layout.specs.Copied.{after_signed, listed, literal_bytes, Within, Stands, comma_bytes, Repeats, front, back, spread, line_bytes};

use lexer::{Kind, digits, pass, token};
use writing::{Moved, put, put_bytes, put_next, put_span, start_of};

// ---- copies

// Where a literal with an optional sign stands: its first token from `first` up to `stop`, and its second, if any, from `second` up to `next`, without
// leading zeros.
#[derive(Clone, Copy, Debug, PartialEq, Eq)]
pub struct Literal {
    pub first: usize,
    pub stop: usize,
    pub second: usize,
    pub next: usize,
}

// It is looked for once, however many copies are written.
fn literal_at(s: &[u8], at: usize) -> Literal
    requires { at ≤ length s.now }
    ensures { Stands s.now at result }
{
    let t = token(s, at);
    let first = start_of(s, t);
    if t.kind == Kind::Digits {
        return Literal {
            first,
            stop: t.stop,
            second: t.stop,
            next: t.stop,
        };
    }
    let u = token(s, t.stop);
    Literal {
        first,
        stop: t.stop,
        second: start_of(s, u),
        next: u.stop,
    }
}

fn put_literal(out: &mut [u8], to: usize, s: &[u8], l: Literal) -> usize
    requires { Within s.now l × Fits to (literal_bytes s.now l) }
    ensures { Writes out.old to (literal_bytes s.now l) out.new result }
{
    let p = put_span(out, to, s, l.first, l.stop);
    put_span(out, p, s, l.second, l.next)
}

// The same, after a comma.
fn put_after_comma(out: &mut [u8], to: usize, s: &[u8], l: Literal) -> usize
    requires { Within s.now l × Fits to (comma_bytes 1 (literal_bytes s.now l)) }
    ensures { Writes out.old to (comma_bytes 1 (literal_bytes s.now l)) out.new result }
{
    let p = put(out, to, b' ');
    let q = put(out, p, b',');
    put_literal(out, q, s, l)
}

// All copies but the first.
fn put_commas(out: &mut [u8], to: usize, s: &[u8], l: Literal, copies: u32) -> usize
    requires { Within s.now l × Fits to (comma_bytes (copies - 1) (literal_bytes s.now l)) }
    ensures { Writes out.old to (comma_bytes (copies - 1) (literal_bytes s.now l)) out.new result }
{
    let mut p = to;
    for _copy in 1..copies {
        p = put_after_comma(out, p, s, l);
    }
    p
}

// So many copies, with commas between them.
fn put_copies(out: &mut [u8], to: usize, s: &[u8], at: usize, copies: u32) -> Moved
    requires { (at ≤ length s.now) × Fits to (blanked (listed copies (tokens (drop at s.now)))) }
    ensures { Moves out.old to s.now at (listed copies) after_signed out.new result }
{
    let l = literal_at(s, at);
    let p = put_literal(out, to, s, l);
    Moved {
        to: put_commas(out, p, s, l, copies),
        at: l.next,
    }
}

// ---- the tokens of a line

// `r*` of a data line: the place after it, and r up to 2^31.
#[derive(Clone, Copy, Debug, PartialEq, Eq)]
pub struct Repeat {
    pub next: usize,
    pub copies: u32,
}

fn repeat_at(s: &[u8], at: usize, copying: bool) -> Option<Repeat>
    requires { at ≤ length s.now }
    ensures { Repeats copying s.now at result }
{
    if !copying {
        return None;
    }
    let d = digits(s, at)?;
    let next = pass(s, d.next, b"*")?;
    Some(Repeat {
        next,
        copies: d.number,
    })
}

// The next token, or all copies of an item.
fn put_part(out: &mut [u8], to: usize, s: &[u8], at: usize, copying: bool) -> Moved
    requires { (at ≤ length s.now) × Fits to (blanked (front copying (tokens (drop at s.now)))) }
    ensures { Moves out.old to s.now at (front copying) (back copying) out.new result }
{
    match repeat_at(s, at, copying) {
        Some(r) => put_copies(out, to, s, r.next, r.copies),
        None => put_next(out, to, s, at),
    }
}

// All tokens from a place on.
fn put_rest(out: &mut [u8], to: usize, s: &[u8], at: usize, copying: bool) -> usize
    requires { (at ≤ length s.now) × Fits to (blanked (spread copying (tokens (drop at s.now)))) }
    ensures { Writes out.old to (blanked (spread copying (tokens (drop at s.now)))) out.new result }
{
    let mut m = Moved { to, at };
    while m.at < s.len() {
        m = put_part(out, m.to, s, m.at, copying);
    }
    m.to
}

// A line that is printed with its own tokens, or with the copies of its items.
pub fn put_line(out: &mut [u8], to: usize, s: &[u8], copying: bool) -> usize
    requires { Fits to (line_bytes copying (tokens s.now)) }
    ensures { Writes out.old to (line_bytes copying (tokens s.now)) out.new result }
{
    let t = token(s, 0);
    let p = put_bytes(out, to, &s[start_of(s, t)..t.stop]);
    let q = put_rest(out, p, s, t.stop, copying);
    put(out, q, b'\n')
}
