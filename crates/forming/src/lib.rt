// Print (RULES 1.15, 9.8): a text in its one printed form. It takes any text and any bytes lent, and refuses what it can't take; a refusal writes nothing.
#![tactic(auto)]

ghost use Rattle.std.specs.Prelude.{◌≡◌, ◌≤◌, length};
ghost use Rattle.syntax.specs.Bytes.{tokens};
ghost use Rattle.syntax.specs.Text.{read as read_text};
ghost use Rattle.writing.specs.Written.{Fits, Writes};
ghost use Rattle.answers.specs.Answers.{form_answered, form_written, print_of, bytes_printed};
ghost use Rattle.forming.specs.Lines.{shape_by, shaped, GoodLine, line_or_none, GoodLines, lines_form};

use answers::Refusal;
use kinds::{Kind, is_skipped, kind_of};
use layout::put_line;
use lexer::{line_end, lowered};
use preparing::Source;
use writing::put_bytes;

// How a line is printed: with its own tokens; with the copies of its items; as an ending in two words; or not at all.
#[derive(Clone, Copy, Debug, PartialEq, Eq)]
pub enum Shape {
    Own,
    Copies,
    EndIf,
    EndDo,
    Nothing,
}

fn shape_of(k: Kind) -> Shape
    ensures { result ≡ shape_by k }
{
    match k {
        Kind::Broken => Shape::Nothing,
        Kind::Integer => Shape::Own,
        Kind::Data => Shape::Copies,
        Kind::Opening => Shape::Own,
        Kind::Loop => Shape::Own,
        Kind::Assignment => Shape::Own,
        Kind::If => Shape::Own,
        Kind::Else { next } => Shape::Own,
        Kind::EndIf { next, joined } => Shape::EndIf,
        Kind::EndDo { next, joined } => Shape::EndDo,
        Kind::Closing => Shape::Nothing,
    }
}

// ---- lines

fn put_shape(out: &mut [u8], to: usize, s: &[u8], shape: Shape) -> usize
    requires { (length s.now ≤ 2048) × Fits to (shaped shape (tokens s.now)) }
    ensures { Writes out.old to (shaped shape (tokens s.now)) out.new result }
{
    match shape {
        Shape::Own => put_line(out, to, s, false),
        Shape::Copies => put_line(out, to, s, true),
        Shape::EndIf => put_bytes(out, to, b"end if\n"),
        Shape::EndDo => put_bytes(out, to, b"end do\n"),
        Shape::Nothing => to,
    }
}

// A line of an accepted text, skipped or not.
fn put_line_of(out: &mut [u8], to: usize, s: &[u8]) -> usize
    requires { (length s.now ≤ 2048) × GoodLine s.now × Fits to (line_or_none s.now) }
    ensures { Writes out.old to (line_or_none s.now) out.new result }
{
    if is_skipped(s) {
        return to;
    }
    put_shape(out, to, s, shape_of(kind_of(s)))
}

// The lines of an accepted text in lower case.
fn put_lines(out: &mut [u8], s: &[u8]) -> usize
    requires { (length s.now ≤ 2048) × GoodLines s.now × Fits 0 (lines_form s.now) }
    ensures { Writes out.old 0 (lines_form s.now) out.new result }
{
    let n = s.len();
    let mut to = 0;
    let mut at = 0;
    // Where a line ends is known only when it is found, so that no range or iterator has these places.
    while at <= n {
        let e = line_end(s, at);
        to = put_line_of(out, to, &s[at..e]);
        if n <= e + 1 {
            return to;
        }
        at = e + 1;
    }
    to
}

// ---- Print

// The printed form of an accepted text in lower case, and its length: it is counted first, over no bytes.
fn put_form(s: &[u8], bytes: &mut [u8]) -> Result<u32, Refusal>
    requires { (length s.now ≤ 2048) × GoodLines s.now × Fits 0 (lines_form s.now) }
    ensures value { result ≡ form_answered (lines_form s.now) (length bytes.old) }
    ensures bytes_after { bytes.new ≡ form_written (lines_form s.now) bytes.old }
{
    let size = put_lines(&mut bytes[..0], s);
    if bytes.len() < size {
        return Err(Refusal::of_lent(12));
    }
    Ok(put_lines(bytes, s) as u32)
}

// The printed form of a text, and its length.
pub fn print(text: &[u8], bytes: &mut [u8]) -> Result<u32, Refusal>
    ensures value { result ≡ print_of (read_text text.now) text.now (length bytes.old) }
    ensures bytes_after { bytes.new ≡ bytes_printed (read_text text.now) text.now bytes.old }
{
    let mut source = Source::new();
    source.read(text)?;
    let n = text.len();
    let mut low = [0; 2048];
    lowered(text, &mut low);
    put_form(&low[0..n], bytes)
}
