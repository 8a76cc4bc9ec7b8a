// The reader of assignments (RULES 1.9, and 3: updates): form, names and limits are checked, and code is emitted.
#![tactic(auto)]

ghost use Rattle.std.specs.Prelude.{◌≡◌, cond, ◌≤◌, ◌<◌, ◌+◌, ◌*◌, length};
ghost use Rattle.syntax.specs.Ranks.{level};
ghost use Rattle.syntax.specs.Reader.{peek_in, skip_in, read_assign};
ghost use Rattle.parts.specs.Answer.{Ready};
ghost use Rattle.parts.specs.Parts.{span_of};
ghost use Rattle.statements.specs.Statement.{Compiles};
ghost use Rattle.assignments.specs.Assignment.{reduction_of, Targets, Offers, Tests, Updates, Stores};

use code::{CHECK, LINE, STORE, STORE_AT, UPDATE, UPDATE_AT};
use expressions::{expression, reference};
use lexer::{Kind, pass, reads, token};
use names::{Table, VARIABLE, find, is_named};
use parts::{Got, emit, span, then_emit};
use rules::{Class, Operator};
use syntax::Rank;
use updates::{Left, remainder, rest};

// ---- the name that is assigned

// Whether it has a subscript, by which operator it is a reduction's, if it is one's, whether it is the loop's variable; and the argument of its accesses.
#[derive(Clone, Copy, Debug, PartialEq, Eq)]
struct Target {
    subscripted: bool,
    reduction: Option<Operator>,
    variable: bool,
    operand: u32,
}

// The argument of an access: a first cell and a length, or a cell.
fn operand_of(subscripted: bool, first: u32, size: u32) -> u32
    ensures { result ≡ cond subscripted (span_of first size) first }
{
    if subscripted {
        span(first, size)
    } else {
        first
    }
}

// The operator of a class that is a reduction's.
fn reduction_of(class: Class) -> Option<Operator>
    ensures { result ≡ reduction_of class }
{
    match class {
        Class::Reduction(operator) => Some(operator),
        _ => None,
    }
}

// The name that a line begins with.
fn target_of(s: &[u8], table: &Table) -> Target
    ensures { Targets table.now s.now result }
{
    let t = token(s, 0);
    let u = token(s, t.stop);
    let subscripted = reads(s, u, b"(");
    if t.kind != Kind::Name {
        return Target {
            subscripted,
            reduction: None,
            variable: false,
            operand: 0,
        };
    }
    let w = &s[t.start..t.stop];
    let variable = is_named(table, VARIABLE, w);
    match find(table, w) {
        Some(n) => Target {
            subscripted,
            reduction: reduction_of(n.class),
            variable,
            operand: operand_of(subscripted, n.first, n.size),
        },
        None => Target {
            subscripted,
            reduction: None,
            variable,
            operand: 0,
        },
    }
}

// ---- assignments

// Where the right side, from a place on, is that of an update: its operator, and the place of its remainder. Only a reduction's name has updates, those of
// its own clause.
fn offer(
    s: &[u8],
    from: usize,
    target: Target,
    left: Left,
    table: &Table,
    code: &mut [u32],
) -> Option<(Operator, Got)>
    requires ready { Ready s.now from 0 left.place code.old }
    requires end_in_bounds { (left.end ≤ length s.now) × (left.line ≤ 2049) }
    ensures { Offers target left table.now s.now from code.old code.new result }
{
    let operator = target.reduction?;
    let g = rest(s, from, operator, left, table, code)?;
    Some((operator, g))
}

// The operation of an access, without a subscript or with one.
fn operation(plain: u32, indexed: u32, line: u32, subscripted: bool) -> u32
    requires { (line ≤ 2049) × (indexed < 32) }
    ensures { result ≡ cond subscripted (indexed + 32 * line) plain }
{
    if subscripted {
        indexed + LINE * line
    } else {
        plain
    }
}

// Writes the test of a subscript, where there is one.
fn test(code: &mut [u32], place: usize, line: u32, subscripted: bool, operand: u32) -> usize
    requires { (2 * (place + 1) ≤ length code.old) × (line ≤ 2049) }
    ensures { Tests subscripted line operand place code.old code.new result }
{
    if subscripted {
        emit(code, place, CHECK + LINE * line, operand);
        place + 1
    } else {
        place
    }
}

// The rest of an update, from where its remainder begins. The code of its subscript stands before the place.
fn updating(
    s: &[u8],
    from: Got,
    line: u32,
    table: &Table,
    code: &mut [u32],
    target: Target,
    operator: Operator,
) -> Option<Got>
    requires ready { Ready s.now from.at 1 (from.place + 2) code.old }
    requires line_bound { (line ≤ 2049) × Targets table.now s.now target }
    ensures { Updates operator table.now s.now from.at line from.place (level from.rank) code.old code.new result }
{
    let p = test(code, from.place, line, target.subscripted, target.operand);
    let o = operation(UPDATE, UPDATE_AT, line, target.subscripted);
    let g = remainder(s, Got { place: p, ..from }, operator, line, table, code)?;
    Some(then_emit(g, code, o, target.operand))
}

// The rest of an assignment that is no update, from where the right side begins: the right side, then the left side's subscript.
fn storing(
    s: &[u8],
    from: Got,
    line: u32,
    table: &Table,
    code: &mut [u32],
    target: Target,
) -> Option<Got>
    requires le_at { (2 ≤ from.at) × (from.at ≤ length s.now) × (length s.now ≤ 2048) × (2 * (from.place + 2 * length s.now) ≤ length code.old) }
    requires line_bound { (line ≤ 2049) × Targets table.now s.now target }
    ensures { Stores table.now s.now from.at line from.place (level from.rank) code.old code.new result }
{
    let o = operation(STORE, STORE_AT, line, target.subscripted);
    let g = expression(s, from, 0, line, table, code)?;
    let h = reference(s, Got { at: 0, ..g }, 0, line, table, code)?;
    Some(then_emit(Got { at: g.at, ..h }, code, o, target.operand))
}

// The rank of an assignment to v, or to another name.
fn assigned_rank(variable: bool) -> Rank
    ensures { level result ≡ cond variable 2 0 }
{
    if variable {
        Rank::WrongName
    } else {
        Rank::InOrder
    }
}

// A reference, =, and an expression.
pub fn assignment(s: &[u8], line: u32, table: &Table, code: &mut [u32], place: usize) -> Option<Got>
    requires { (length s.now ≤ 2048) × (line ≤ 2049) × (2 * (place + 2 * length s.now) ≤ length code.old) }
    ensures { Compiles (read_assign peek_in skip_in) table.now s.now line place code.old code.new result }
{
    let target = target_of(s, table);
    let start = Got {
        at: 0,
        place,
        rank: assigned_rank(target.variable),
    };
    let g = reference(s, start, 0, line, table, code)?;
    let at = pass(s, g.at, b"=")?;
    let left = Left {
        end: g.at,
        rank: g.rank,
        line,
        place: g.place,
    };
    match offer(s, at, target, left, table, code) {
        Some((operator, h)) => updating(s, h, line, table, code, target, operator),
        None => storing(s, Got { at, place, ..g }, line, table, code, target),
    }
}
