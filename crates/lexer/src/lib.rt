// The bytes and tokens of a loop text (RULES 1.1, 1.2). A line is a slice of its own, in lower case and without its newline; a
// token is read at a place of it.
#![tactic(auto)]

ghost use Rattle.std.specs.Prelude.{◌≡◌, Bool, ℕ, map, ◌≤◌, ◌<◌, ◌+◌, min, eqb, length, drop};
ghost use Rattle.std.proofs.lemmas.List.Edits.{sets};
ghost use Rattle.syntax.specs.Bytes.{lower as lower_of, same, any, reserved as reserved_words, word_of, kind_of};
ghost use Rattle.syntax.specs.Bytes.{sign_size, run, in_word};
ghost use Rattle.syntax.specs.Grammar.{number as number_of};
ghost use Rattle.syntax.specs.Reader.{kind as kind_at, read_name, read_digits, read_lead, peek_in, skip_in};
ghost use Rattle.lexer.specs.Places.{Finds, ReadTo, Any, passes, Spells, Numbers, Leads};
ghost use Rattle.lexer.specs.Lex.{part, kind_number, Lexed, ended, tens};

pub mod cursor;

use cursor::Cursor;

// What a token is: the end of the line, a word that may be a name, a word that is no name, digits, or a sign.
#[derive(Clone, Copy, Debug, PartialEq, Eq)]
pub enum Kind {
    End,
    Name,
    Word,
    Digits,
    Sign,
}

// A token: its kind, and where it lies.
#[derive(Clone, Copy, Debug, PartialEq, Eq)]
pub struct Tok {
    pub kind: Kind,
    pub start: usize,
    pub stop: usize,
}

// ---- bytes

// The text in lower case.
pub fn lowered(text: &[u8], low: &mut [u8])
    requires { length text.now ≤ length low.old }
    ensures { low.new ≡ sets low.old 0 (map lower_of text.now) }
{
    for (i, b) in text.iter().enumerate() {
        low[i] = b.to_ascii_lowercase();
    }
}

// The end of the line that begins at a place: its newline, or the end of the text.
pub fn line_end(text: &[u8], at: usize) -> usize
    requires { at ≤ length text.now }
    ensures { result ≡ ended text.now at }
{
    run_end(text, at, |b| b != b'\n')
}

// ---- tokens

// Letters, digits and underscores go on in a word.
fn in_word(b: u8) -> bool
    ensures { result ≡ in_word b }
{
    matches!(b, b'a'..=b'z') || matches!(b, b'0'..=b'9' | b'_')
}

// The end of the run that stands at a place: the bytes on which `goes_on` answers true.
pub fn run_end<F: Fn(u8) -> bool>(s: &[u8], at: usize, goes_on: F) -> usize
    requires place { at ≤ length s.now }
    requires callable { F.IsAlwaysCallable goes_on }
    ensures value { (p : ℕ → Bool) → ((b : ℕ) (r : Bool) → b < 256 → F.post goes_on b r → r ≡ p b) → result ≡ at + run p (drop at s.now) }
    ensures bounds { (at ≤ result) × (result ≤ length s.now) }
{
    for i in at..s.len() {
        if !goes_on(s[i]) {
            return i;
        }
    }
    s.len()
}

// Whether a word is none that may be a name.
fn reserved(w: &[u8]) -> bool
    ensures { result ≡ any (same w.now) reserved_words }
{
    let is = |word: &[u8]| w == word;
    match w.len() {
        2 => is(b"do") || is(b"if"),
        3 => is(b"end") || is(b"max"),
        4 => is(b"data") || is(b"then") || is(b"else") || is(b"rdiv"),
        5 => is(b"enddo") || is(b"endif"),
        7 => is(b"integer"),
        _ => false,
    }
}

// The kind of a word.
fn word_kind(w: &[u8]) -> Kind
    ensures { kind_number result ≡ kind_of (word_of w.now) }
{
    if 31 < w.len() || reserved(w) {
        Kind::Word
    } else {
        Kind::Name
    }
}

// How many bytes the sign at the front has.
fn sign_length(s: &[u8]) -> usize
    ensures { result ≡ sign_size s.now }
{
    match s {
        [b'=' | b'/' | b'<' | b'>', b'=', ..] => 2,
        [b'!', ..] if s.starts_with(b"!$omp") => 5,
        _ => 1,
    }
}

// The first token at or after a place of a line.
pub fn token(s: &[u8], at: usize) -> Tok
    requires { at ≤ length s.now }
    ensures { Lexed s.now at result }
{
    let start = run_end(s, at, |b| b == b' ');
    if start == s.len() {
        return Tok {
            kind: Kind::End,
            start,
            stop: start,
        };
    }
    if s[start].is_ascii_lowercase() {
        let stop = run_end(s, start + 1, in_word);
        let kind = word_kind(&s[start..stop]);
        return Tok { kind, start, stop };
    }
    if s[start].is_ascii_digit() {
        let stop = run_end(s, start + 1, |b| b.is_ascii_digit());
        return Tok {
            kind: Kind::Digits,
            start,
            stop,
        };
    }
    Tok {
        kind: Kind::Sign,
        start,
        stop: start + sign_length(&s[start..]),
    }
}

// Whether a line ends at a place.
pub fn is_end(s: &[u8], at: usize) -> bool
    requires { at ≤ length s.now }
    ensures { result ≡ eqb (kind_at (peek_in (drop at s.now))) 0 }
{
    token(s, at).kind == Kind::End
}

// Whether a token has these bytes.
pub fn reads(s: &[u8], t: Tok, w: &[u8]) -> bool
    requires { (t.start ≤ t.stop) × (t.stop ≤ length s.now) }
    ensures { result ≡ same w.now (part s.now t.start t.stop) }
{
    w == &s[t.start..t.stop]
}

// The place after the token w, where it stands at a place.
pub fn pass(s: &[u8], at: usize, w: &[u8]) -> Option<usize>
    ensures { Finds (λ next. next) (λ _. Any) s.now at (passes w.now) result }
{
    let mut c = Cursor::within(s, at)?;
    let t = c.take();
    if reads(s, t, w) { Some(c.at) } else { None }
}

// ---- literals

// A digit more, up to 2^31, which is over every limit.
#[tactic(auto, unfolding(crate::specs::Lex::tens))]
fn shifted(n: u32, b: u8) -> u32
    ensures { result ≡ tens n b }
{
    n.saturating_mul(10)
        .saturating_add(u32::from(b.saturating_sub(b'0')))
        .min(1 << 31)
}

// The number that the digits of a token write, up to 2^31.
pub fn literal(s: &[u8], t: Tok) -> u32
    requires { (t.start ≤ t.stop) × (t.stop ≤ length s.now) }
    ensures { result ≡ min (number_of (part s.now t.start t.stop)) 2147483648 }
{
    let mut n = 0;
    for b in &s[t.start..t.stop] {
        n = shifted(n, *b);
    }
    n
}

// ---- a name, digits, a sign before digits

// A name: where it lies, and the place after it.
#[derive(Clone, Copy, Debug, PartialEq, Eq)]
pub struct Word {
    pub next: usize,
    pub start: usize,
}

// Digits: the number that they write, up to 2^31, and the place after them.
#[derive(Clone, Copy, Debug, PartialEq, Eq)]
pub struct Number {
    pub next: usize,
    pub number: u32,
}

// What may begin digits.
#[derive(Clone, Copy, Debug, PartialEq, Eq)]
pub enum Leading {
    Bare,
    Plus,
    Minus,
}

// A sign that may begin digits, or none, and the place after it.
#[derive(Clone, Copy, Debug, PartialEq, Eq)]
pub struct Sign {
    pub next: usize,
    pub sign: Leading,
}

// The name at a place.
#[tactic(auto, using(crate::proofs::PlaceLaws::spells))]
pub fn name(s: &[u8], at: usize) -> Option<Word>
    ensures { Finds (λ r. r.next) (Spells s.now) s.now at (read_name peek_in skip_in) result }
{
    let mut c = Cursor::within(s, at)?;
    let t = c.take();
    if t.kind != Kind::Name {
        return None;
    }
    Some(Word {
        next: c.at,
        start: t.start,
    })
}

// The digits at a place.
pub fn digits(s: &[u8], at: usize) -> Option<Number>
    ensures { Finds (λ r. r.next) Numbers s.now at (read_digits peek_in skip_in) result }
{
    let mut c = Cursor::within(s, at)?;
    let t = c.take();
    if t.kind != Kind::Digits {
        return None;
    }
    Some(Number {
        next: c.at,
        number: literal(s, t),
    })
}

// The sign at a place, or none; of a place past the line's end none, and the place after the end.
#[tactic(auto, using(crate::proofs::InTurn::lead_plus_to, crate::proofs::InTurn::lead_minus_to))]
pub fn lead(s: &[u8], at: usize) -> Sign
    ensures read { at ≤ length s.now → ReadTo (Leads result) s.now at (read_lead peek_in skip_in) result.next }
    ensures past { length s.now < at → (result.next ≡ length s.now + 1) × (result.sign ≡ Leading.Bare) }
{
    if let Some(next) = pass(s, at, b"+") {
        return Sign {
            next,
            sign: Leading::Plus,
        };
    }
    if let Some(next) = pass(s, at, b"-") {
        return Sign {
            next,
            sign: Leading::Minus,
        };
    }
    Sign {
        next: at.min(s.len() + 1),
        sign: Leading::Bare,
    }
}
