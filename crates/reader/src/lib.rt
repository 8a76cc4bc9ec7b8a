// The reader of loop texts: one pass over the lines that checks them, keeps the names, the data and the bounds, and emits the code of the body.
#![tactic(auto)]

ghost use Rattle.std.specs.Prelude.{◌≡◌, true, false, ◌≤◌, ◌<◌, ◌+◌, length};
ghost use Rattle.syntax.specs.Bytes.{lines, skipped_line, sound_line};
ghost use Rattle.lines.specs.Lines.{Takes};
ghost use Rattle.lines.specs.Progress.{held};
ghost use Rattle.kinds.specs.Kinds.{read_by, stage_by, Inside};
ghost use Rattle.syntax.specs.Known.{nothing};
ghost use Rattle.syntax.specs.Text.{judge, read as read_text};
ghost use Rattle.reader.specs.Judged.{Lent, JudgesLine, Reads, Fresh};

use kinds::{Kind, is_next, is_skipped, is_sound, kind_of, stage_of};
use lexer::{line_end, lowered};
use lines::{
    Progress, assign_line, before_do, close_line, data_line, directive_line, else_line,
    end_do_line, end_if_line, if_line, integer_line, loop_line,
};
use names::Table;
use rules::Grouping;
use syntax::Flaw;

// ---- one line

// A line by its kind.
fn line_by(
    s: &[u8],
    k: Kind,
    line: u32,
    p: Progress,
    table: &mut Table,
    initial: &mut [i32],
    code: &mut [u32],
    opens: &mut [u32; 8],
) -> Result<Progress, Flaw>
    requires { Lent s.now line (held p table.old initial.old code.old opens.old) × Inside s.now k }
    ensures { Takes (read_by k) (stage_by k) s.now line
        (held p table.old initial.old code.old opens.old)
        (λ q. held q table.new initial.new code.new opens.new) result }
{
    match k {
        Kind::Broken => Err(Flaw::BrokenForm),
        Kind::Integer => integer_line(s, p, table),
        Kind::Data => data_line(s, p, table, initial),
        Kind::Opening => directive_line(s, p, table),
        Kind::Loop => loop_line(s, p, table),
        Kind::Assignment => assign_line(s, line, p, table, code),
        Kind::If => if_line(s, line, p, table, code, opens),
        Kind::Else { next } => else_line(s, next, p, code, opens),
        Kind::EndIf { next, joined } => end_if_line(s, next, p, code, opens),
        Kind::EndDo { next, joined } => end_do_line(s, next, p),
        Kind::Closing => close_line(s, p),
    }
}

// A line that is not skipped.
fn spoken_line(
    s: &[u8],
    last: bool,
    line: u32,
    p: Progress,
    table: &mut Table,
    initial: &mut [i32],
    code: &mut [u32],
    opens: &mut [u32; 8],
) -> Result<Progress, Flaw>
    requires { Lent s.now line (held p table.old initial.old code.old opens.old) }
    ensures { true ≡ sound_line s.now → false ≡ skipped_line s.now
        → JudgesLine s.now last line
        (held p table.old initial.old code.old opens.old)
        (λ q. held q table.new initial.new code.new opens.new) result }
{
    let k = kind_of(s);
    let stage = stage_of(k);
    if !is_next(p.stage, stage) {
        return Err(Flaw::BrokenForm);
    }
    if last && stage < 6 {
        return Err(Flaw::BrokenForm);
    }
    line_by(s, k, line, p, table, initial, code, opens)
}

// A line of a text, the last or not.
fn judge_line(
    s: &[u8],
    last: bool,
    line: u32,
    p: Progress,
    table: &mut Table,
    initial: &mut [i32],
    code: &mut [u32],
    opens: &mut [u32; 8],
) -> Result<Progress, Flaw>
    requires { Lent s.now line (held p table.old initial.old code.old opens.old) }
    ensures { JudgesLine s.now last line
        (held p table.old initial.old code.old opens.old)
        (λ q. held q table.new initial.new code.new opens.new) result }
{
    if !is_sound(s) {
        return Err(Flaw::BrokenForm);
    }
    if !is_skipped(s) {
        return spoken_line(s, last, line, p, table, initial, code, opens);
    }
    if last && p.stage < 6 {
        return Err(Flaw::BrokenForm);
    }
    Ok(p)
}

// ---- whole texts

// The first bad line, and what is wrong with it; line 0 for a text that is too long.
#[derive(Clone, Copy, Debug, PartialEq, Eq)]
pub struct BadLine {
    pub flaw: Flaw,
    pub line: u32,
}

// The lines of a text in lower case, up to the first bad one.
fn read_lines(
    s: &[u8],
    table: &mut Table,
    initial: &mut [i32],
    code: &mut [u32],
) -> Result<Progress, BadLine>
    requires { (length s.now ≤ 2048) × Fresh table.old initial.old code.old }
    ensures { Reads (judge 1 nothing (lines s.now)) result table.new initial.new code.new }
{
    let n = s.len();
    let mut opens = [0; 8];
    let mut at = 0;
    let mut line = 1;
    let mut p = before_do(0, 0, 0, Grouping::Iterations);
    while at <= n {
        let e = line_end(s, at);
        let last = n <= e + 1;
        match judge_line(&s[at..e], last, line, p, table, initial, code, &mut opens) {
            Ok(q) => p = q,
            Err(flaw) => return Err(BadLine { flaw, line }),
        }
        if last {
            return Ok(p);
        }
        at = e + 1;
        line += 1;
    }
    Ok(p)
}

// A whole text: its first bad line, or what is known of it, with its names, the cells from its data and its code.
// Free: after a refusal all that is lent to be written; else the table's words that stand for no name, and the code past its end.
pub fn read(
    text: &[u8],
    table: &mut Table,
    initial: &mut [i32],
    code: &mut [u32],
) -> Result<Progress, BadLine>
    requires { Fresh table.old initial.old code.old }
    ensures { Reads (read_text text.now) result table.new initial.new code.new }
{
    let n = text.len();
    if 2048 < n {
        return Err(BadLine {
            flaw: Flaw::TooLong,
            line: 0,
        });
    }
    let mut low = [0; 2048];
    lowered(text, &mut low);
    read_lines(&low[0..n], table, initial, code)
}
