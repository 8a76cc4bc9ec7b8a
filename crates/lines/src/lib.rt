// The lines of a loop text, each by its kind: read to its end, judged, and taken into what is known so far; or what is wrong with it.
#![tactic(auto)]

ghost use Rattle.std.specs.Prelude.{◌≡◌, List, Bool, ℕ, ◌≤◌, ◌<◌, ◌+◌, ◌-◌, ◌*◌, length, get_or, set, ℤ};
ghost use Rattle.syntax.specs.Grammar.{otherwise, end_if, inside, end_do};
ghost use Rattle.syntax.specs.Ranks.{level};
ghost use Rattle.syntax.specs.Reader.{read_declare, read_give, read_opening, read_closing, read_loop, read_assign, read_when, peek_in, skip_in};
ghost use Rattle.code.specs.Instr.{operation, jump};
ghost use Rattle.heading.specs.Lists.{Standing};
ghost use Rattle.lines.specs.Lines.{Takes, reads};
ghost use Rattle.lines.specs.Progress.{held, before_do, moved, Comes, Underway};

use assignments::assignment;
use bounds::do_line;
use clauses::{directive, grouping_of, stands_rightly};
use code::JUMP;
use conditions::condition;
use declarations::{Listed, integers};
use lexer::{is_end, pass};
use names::Table;
use parts::opened;
use rules::Grouping;
use syntax::{Flaw, Rank};
use values::data_values;

// How far a text was read: which of 1 to 7 stood last; how many cells, processors and iterations there are, how iterations are grouped, and the first
// value of the loop's variable; how many instructions are emitted, and how many ifs are open.
#[derive(Clone, Copy)]
pub struct Progress {
    // a number: what may follow what is reckoned with it (`kinds::is_next`)
    pub stage: u32,
    pub cells: u32,
    pub processors: u32,
    pub grouping: Grouping,
    pub from: i32,
    pub count: u64,
    pub place: usize,
    pub depth: usize,
}

// What is wrong with a line whose form was read up to a place, and that has a rank.
fn judged(s: &[u8], next: usize, rank: Rank) -> Result<(), Flaw>
    ensures comes { Comes s.now next (level rank) result }
    ensures beyond { length s.now < next → result ≡ Err Flaw.BrokenForm }
{
    if s.len() < next || !is_end(s, next) {
        return Err(Flaw::BrokenForm);
    }
    match rank {
        Rank::InOrder => Ok(()),
        Rank::OverLimit => Err(Flaw::OverLimit),
        Rank::WrongName => Err(Flaw::WrongName),
    }
}

// How far a text was read by a line before `do`.
pub fn before_do(stage: u32, cells: u32, processors: u32, grouping: Grouping) -> Progress
    ensures { result ≡ before_do stage cells processors grouping }
{
    Progress {
        stage,
        cells,
        processors,
        grouping,
        from: 0,
        count: 0,
        place: 0,
        depth: 0,
    }
}

// ---- 1. integer

pub fn integer_line(s: &[u8], p: Progress, table: &mut Table) -> Result<Progress, Flaw>
    requires { (length s.now ≤ 2048) × (p.cells ≤ 4096) }
    ensures { (k : ℕ) (I : List ℤ) (C O : List ℕ) → Takes (read_declare peek_in skip_in) 1 s.now k
        (held p table.old I C O) (λ q. held q table.new I C O) result }
{
    let next = pass(s, 0, b"integer").ok_or(Flaw::BrokenForm)?;
    let before = Listed {
        next,
        cells: p.cells,
        rank: Rank::InOrder,
    };
    let r = integers(s, table, before).ok_or(Flaw::BrokenForm)?;
    judged(s, r.next, r.rank)?;
    Ok(before_do(1, r.cells, 0, Grouping::Iterations))
}

// ---- 2. data

pub fn data_line(
    s: &[u8],
    p: Progress,
    table: &mut Table,
    initial: &mut [i32],
) -> Result<Progress, Flaw>
    requires { (length s.now ≤ 2048) × (length initial.old ≡ 4096) × Standing table.old }
    ensures { (k : ℕ) (C O : List ℕ) → Takes (read_give peek_in skip_in) 2 s.now k
        (held p table.old initial.old C O) (λ q. held q table.new initial.new C O) result }
{
    let next = pass(s, 0, b"data").ok_or(Flaw::BrokenForm)?;
    let r = data_values(s, next, table, initial).ok_or(Flaw::BrokenForm)?;
    judged(s, r.next, r.rank)?;
    Ok(before_do(2, p.cells, 0, Grouping::Iterations))
}

// ---- 3. the directive, with `num_threads` exactly once and `schedule(static)` at most once

pub fn directive_line(s: &[u8], p: Progress, table: &mut Table) -> Result<Progress, Flaw>
    requires { (length s.now ≤ 2048) × Standing table.old }
    ensures { (k : ℕ) (I : List ℤ) (C O : List ℕ) → Takes (read_opening peek_in skip_in) 3 s.now k
        (held p table.old I C O) (λ q. held q table.new I C O) result }
{
    let a = pass(s, 0, b"!$omp").ok_or(Flaw::BrokenForm)?;
    let b = pass(s, a, b"parallel").ok_or(Flaw::BrokenForm)?;
    let c = pass(s, b, b"do").ok_or(Flaw::BrokenForm)?;
    let r = directive(s, c, table).ok_or(Flaw::BrokenForm)?;
    if !stands_rightly(r.threads, r.statics) {
        return Err(Flaw::BrokenForm);
    }
    judged(s, r.next, r.rank)?;
    Ok(before_do(3, p.cells, r.processors, grouping_of(r.statics)))
}

// ---- 4. do

pub fn loop_line(s: &[u8], p: Progress, table: &mut Table) -> Result<Progress, Flaw>
    requires { length s.now ≤ 2048 }
    ensures { (k : ℕ) (I : List ℤ) (C O : List ℕ) → Takes (read_loop peek_in skip_in) 4 s.now k
        (held p table.old I C O) (λ q. held q table.new I C O) result }
{
    let a = pass(s, 0, b"do").ok_or(Flaw::BrokenForm)?;
    let r = do_line(s, a, table).ok_or(Flaw::BrokenForm)?;
    judged(s, r.next, r.rank)?;
    Ok(Progress {
        stage: 4,
        from: r.from,
        count: r.count,
        place: 0,
        depth: 0,
        ..p
    })
}

// ---- lines after do

// How far a text was read, with this line's stage, and another place and depth.
pub fn onward(p: Progress, stage: u32, place: usize, depth: usize) -> Progress
    ensures { result ≡ moved p stage place depth }
{
    Progress {
        stage,
        place,
        depth,
        ..p
    }
}

// ---- 5. statements

// The word of an open jump that stands before a place.
fn open_word(place: usize) -> u32
    requires { place ≤ 65536 }
    ensures { result ≡ 2 * (place - 1) }
{
    if place == 0 {
        return 0;
    }
    2 * (place as u32 - 1)
}

pub fn assign_line(
    s: &[u8],
    line: u32,
    p: Progress,
    table: &Table,
    code: &mut [u32],
) -> Result<Progress, Flaw>
    requires { (length s.now ≤ 2048) × (line ≤ 2049) × (2 * (p.place + 2 * length s.now) ≤ length code.old) }
    ensures { (I : List ℤ) (O : List ℕ) → Takes (read_assign peek_in skip_in) 5 s.now line
        (held p table.now I code.old O) (λ q. held q table.now I code.new O) result }
{
    let g = assignment(s, line, table, code, p.place).ok_or(Flaw::BrokenForm)?;
    judged(s, g.at, g.rank)?;
    Ok(onward(p, 5, g.place, p.depth))
}

// An `if` inside eight others is over the limit.
pub fn if_line(
    s: &[u8],
    line: u32,
    p: Progress,
    table: &Table,
    code: &mut [u32],
    opens: &mut [u32; 8],
) -> Result<Progress, Flaw>
    requires { (length s.now ≤ 2048) × (line ≤ 2049) × (2 * (p.place + 2 * length s.now) ≤ length code.old) × (p.place ≤ 32768) × (p.depth ≤ 8) }
    ensures { (I : List ℤ) → Takes (read_when peek_in skip_in) 5 s.now line
        (held p table.now I code.old opens.old)
        (λ q. held q table.now I code.new opens.new) result }
{
    let g = condition(s, line, table, code, p.place).ok_or(Flaw::BrokenForm)?;
    judged(s, g.at, opened(g.rank, p.depth + 1))?;
    opens[p.depth] = open_word(g.place);
    Ok(onward(p, 5, g.place, p.depth + 1))
}

// Fills in the distance of a jump.
fn fill(code: &mut [u32], jump: usize, distance: usize)
    requires { (2 * jump + 1 < length code.old) × (get_or code.old (2 * jump + 1) 0 ≤ 7) × (distance ≤ 65536) }
    ensures code_after { code.new ≡ set code.old (2 * jump + 1) (get_or code.old (2 * jump + 1) 0 + 8 * distance) }
    ensures code_len_unchanged { length code.new ≡ length code.old }
{
    let i = 2 * jump + 1;
    code[i] = code[i] + code::DISTANCE * distance as u32;
}

// Writes a jump over nothing.
fn put_jump(code: &mut [u32], place: usize)
    requires { 2 * (place + 1) ≤ length code.old }
    ensures { code.new ≡ set (set code.old (2 * place) (operation (jump 0))) (2 * place + 1) 0 }
{
    let i = 2 * place;
    code[i] = JUMP;
    code[i + 1] = 0;
}

// `else`, after which the line goes on at a place.
pub fn else_line(
    s: &[u8],
    at: usize,
    p: Progress,
    code: &mut [u32],
    opens: &mut [u32; 8],
) -> Result<Progress, Flaw>
    requires { (at ≤ length s.now) × (p.place ≤ 4096) × (2 * (p.place + 1) ≤ length code.old) × Underway p code.old opens.old }
    ensures { (k : ℕ) (T : List ℕ) (I : List ℤ) → Takes (reads (inside otherwise) at) 5 s.now k
        (held p T I code.old opens.old) (λ q. held q T I code.new opens.new) result }
{
    if p.depth == 0 {
        return Err(Flaw::BrokenForm);
    }
    let w = opens[p.depth - 1];
    if w % 2 == 1 {
        return Err(Flaw::BrokenForm);
    }
    judged(s, at, Rank::InOrder)?;
    let jump = w as usize / 2;
    fill(code, jump, p.place - jump);
    put_jump(code, p.place);
    opens[p.depth - 1] = 2 * p.place as u32 + 1;
    Ok(onward(p, 5, p.place + 1, p.depth))
}

// `end if`
pub fn end_if_line(
    s: &[u8],
    at: usize,
    p: Progress,
    code: &mut [u32],
    opens: &[u32; 8],
) -> Result<Progress, Flaw>
    requires { (at ≤ length s.now) × (p.place ≤ 4096) × (2 * p.place ≤ length code.old) × Underway p code.old opens.now }
    ensures { (j : Bool) (k : ℕ) (T : List ℕ) (I : List ℤ) → Takes (reads (inside (end_if j)) at) 5 s.now k
        (held p T I code.old opens.now) (λ q. held q T I code.new opens.now) result }
{
    if p.depth == 0 {
        return Err(Flaw::BrokenForm);
    }
    judged(s, at, Rank::InOrder)?;
    let jump = opens[p.depth - 1] as usize / 2;
    fill(code, jump, p.place - (jump + 1));
    Ok(onward(p, 5, p.place, p.depth - 1))
}

// ---- 6. end do, and 7. the closing directive

pub fn end_do_line(s: &[u8], at: usize, p: Progress) -> Result<Progress, Flaw>
    requires { at ≤ length s.now }
    ensures { (j : Bool) (k : ℕ) (T : List ℕ) (I : List ℤ) (C O : List ℕ) → Takes (reads (end_do j) at) 6 s.now k
        (held p T I C O) (λ q. held q T I C O) result }
{
    if p.depth != 0 {
        return Err(Flaw::BrokenForm);
    }
    judged(s, at, Rank::InOrder)?;
    Ok(onward(p, 6, p.place, p.depth))
}

pub fn close_line(s: &[u8], p: Progress) -> Result<Progress, Flaw>
    requires { length s.now ≤ 2048 }
    ensures { (k : ℕ) (T : List ℕ) (I : List ℤ) (C O : List ℕ) → Takes (λ _. read_closing peek_in skip_in) 7 s.now k
        (held p T I C O) (λ q. held q T I C O) result }
{
    let a = pass(s, 0, b"!$omp").ok_or(Flaw::BrokenForm)?;
    let b = pass(s, a, b"end").ok_or(Flaw::BrokenForm)?;
    let c = pass(s, b, b"parallel").ok_or(Flaw::BrokenForm)?;
    let d = pass(s, c, b"do").ok_or(Flaw::BrokenForm)?;
    judged(s, d, Rank::InOrder)?;
    Ok(onward(p, 7, p.place, p.depth))
}
