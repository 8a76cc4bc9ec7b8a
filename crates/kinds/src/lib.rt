// Lines before they are read (RULES 1.1, 1.3, 1.4): their bytes, which are skipped, which kind each is by its first words, and which kind may follow which.
#![tactic(auto)]

ghost use Rattle.std.specs.Prelude.{◌≡◌, true, false, ◌≤◌, ◌<◌, ◌+◌, eqb, length, drop};
ghost use Rattle.std.specs.List.{list_all};
ghost use Rattle.syntax.specs.Bytes.{printable, trimmed, skipped_line, sound_line};
ghost use Rattle.syntax.specs.Conditions.{several, may_miss, may_follow};
ghost use Rattle.syntax.specs.Reader.{read_directive, read_end, read_start, peek_in, skip_in};
ghost use Rattle.kinds.specs.Kinds.{stage_by, Kinds};

use lexer::cursor::Cursor;
use lexer::{reads, run_end, token};

// What a line is, by its first words; the place after them where nothing else is to be read, and whether `end` and what it ends are one word.
#[derive(Clone, Copy, Debug, PartialEq, Eq)]
pub enum Kind {
    Broken,
    Integer,
    Data,
    Opening,
    Loop,
    Assignment,
    If,
    Else { next: usize },
    EndIf { next: usize, joined: bool },
    EndDo { next: usize, joined: bool },
    Closing,
}

// ---- whole lines

// Whether every byte is 32 to 126.
fn is_printable(s: &[u8]) -> bool
    ensures { result ≡ list_all printable s.now }
{
    s.iter().all(|b| (32..=126).contains(b))
}

// The line from its first byte on that is no blank.
fn trimmed(s: &[u8]) -> &[u8]
    ensures { result.now ≡ trimmed s.now }
{
    &s[run_end(s, 0, |b| b == b' ')..]
}

// Whether a line's bytes are in order, and a blank stands after `!$omp`.
#[tactic(auto, using(crate::proofs::WholeLines::all_is))]
pub fn is_sound(s: &[u8]) -> bool
    ensures { result ≡ sound_line s.now }
{
    let t = trimmed(s);
    is_printable(s) && (!t.starts_with(b"!$omp") || t.starts_with(b"!$omp "))
}

// Whether a line is skipped: blank, or a comment.
pub fn is_skipped(s: &[u8]) -> bool
    ensures { result ≡ skipped_line s.now }
{
    let t = trimmed(s);
    t.is_empty() || t.starts_with(b"!") && !t.starts_with(b"!$omp")
}

// ---- kinds of lines

// A directive, of which the first token ends at a place.
fn directive_kind(s: &[u8], at: usize) -> Kind
    requires { at ≤ length s.now }
    ensures { skip_in s.now ≡ drop at s.now → Kinds (λ f. read_directive peek_in skip_in f s.now) s.now result }
{
    if reads(s, token(s, at), b"end") {
        Kind::Closing
    } else {
        Kind::Opening
    }
}

// What follows `end`, which ends at a place.
fn end_kind(s: &[u8], at: usize) -> Kind
    requires { at ≤ length s.now }
    ensures { skip_in s.now ≡ drop at s.now → Kinds (λ f. read_end peek_in skip_in f s.now) s.now result }
{
    let t = token(s, at);
    let next = t.stop;
    if reads(s, t, b"if") {
        Kind::EndIf {
            next,
            joined: false,
        }
    } else if reads(s, t, b"do") {
        Kind::EndDo {
            next,
            joined: false,
        }
    } else {
        Kind::Broken
    }
}

// No `match` on the bytes: tried at lexer's reserved words, it left a goal for each length and byte where words part, and 14 of them stayed open.
pub fn kind_of(s: &[u8]) -> Kind
    ensures { Kinds (λ f. read_start peek_in skip_in f s.now) s.now result }
{
    let mut c = Cursor { text: s, at: 0 };
    let t = c.take();
    let next = c.at;
    if reads(s, t, b"integer") {
        Kind::Integer
    } else if reads(s, t, b"data") {
        Kind::Data
    } else if reads(s, t, b"!$omp") {
        directive_kind(s, next)
    } else if reads(s, t, b"do") {
        Kind::Loop
    } else if reads(s, t, b"if") {
        Kind::If
    } else if reads(s, t, b"else") {
        Kind::Else { next }
    } else if reads(s, t, b"end") {
        end_kind(s, next)
    } else if reads(s, t, b"endif") {
        Kind::EndIf { next, joined: true }
    } else if reads(s, t, b"enddo") {
        Kind::EndDo { next, joined: true }
    } else {
        Kind::Assignment
    }
}

// Which of 1 to 7 a line is.
pub fn stage_of(k: Kind) -> u32
    ensures { (result ≡ stage_by k) × (result ≤ 7) }
{
    match k {
        Kind::Broken => 0,
        Kind::Integer => 1,
        Kind::Data => 2,
        Kind::Opening => 3,
        Kind::Loop => 4,
        Kind::Assignment | Kind::If | Kind::Else { .. } | Kind::EndIf { .. } => 5,
        Kind::EndDo { .. } => 6,
        Kind::Closing => 7,
    }
}

// ---- the order of lines

// Whether several lines of a stage may stand.
fn is_several(stage: u32) -> bool
    ensures { result ≡ several stage }
{
    matches!(stage, 1 | 2 | 5)
}

// Whether the lines of a stage may miss.
fn may_be_missing(stage: u32) -> bool
    ensures { result ≡ may_miss stage }
{
    matches!(stage, 2 | 5)
}

// Whether a line of stage n may follow one of stage k.
pub fn is_next(k: u32, n: u32) -> bool
    requires { k ≤ 7 }
    ensures { result ≡ may_follow k n }
{
    n == k + 1 || n == k && is_several(k) || n == k + 2 && may_be_missing(k + 1)
}
