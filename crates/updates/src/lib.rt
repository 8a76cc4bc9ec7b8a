// The forms of updates (RULES 3.1, 3.2): whether the right side of an assignment repeats the left one in the form of the
// name's clause, and the remainder. What is emitted to find that out lies after a place of the code, and others write over it.
#![tactic(auto)]

ghost use Rattle.std.specs.Prelude.{◌≡◌, suc, ◌*◌, ◌≤◌, length, take, drop};
ghost use Rattle.syntax.specs.Conditions.{mentions};
ghost use Rattle.syntax.specs.Ranks.{level};
ghost use Rattle.code.specs.Compile.{code as code_expr};
ghost use Rattle.parts.specs.Answer.{Answers, Ready};
ghost use Rattle.updates.specs.Forms.{signs, ends, Repeated, Timed, Closed, Rests, depth_of, read_rest};

use alike::alike;
use expressions::{expression, factor, reference};
use lexer::pass;
use names::Table;
use parts::{Got, Joint, expect, join};
use rules::Operator;
use syntax::Rank;

// The left side of an assignment: where it ends in the line, the worst rank so far, its line, and the place after the code of its subscripts.
#[derive(Clone, Copy, Debug, PartialEq, Eq)]
pub struct Left {
    pub end: usize,
    pub rank: Rank,
    pub line: u32,
    pub place: usize,
}

// ---- signs

// Whether + or - stands at a place.
fn signed(s: &[u8], at: usize) -> bool
    requires { at ≤ length s.now }
    ensures { result ≡ signs (drop at s.now) }
{
    join(s, at, b'+', b'-').joint != Joint::Neither
}

// Whether no sign stands at a place that goes on with an expression.
fn ended(s: &[u8], at: usize) -> bool
    requires { at ≤ length s.now }
    ensures { result ≡ ends (drop at s.now) }
{
    join(s, at, b'*', b'/').joint == Joint::Neither && !signed(s, at)
}

// ---- parts of the right side

// The left side's reference at a place, with so many brackets open around it: the place after it.
fn repeats(
    s: &[u8],
    at: usize,
    depth: usize,
    left: Left,
    table: &Table,
    code: &mut [u32],
) -> Option<Got>
    requires ready { Ready s.now at depth left.place code.old }
    requires end_in_bounds { (left.end ≤ length s.now) × (left.line ≤ 2049) }
    ensures { Repeated depth left table.now s.now at code.old code.new result }
{
    let i = 2 * left.place;
    let start = Got {
        at,
        place: 0,
        rank: left.rank,
    };
    let g = reference(s, start, depth, left.line, table, &mut code[i..])?;
    if alike(s, left.end, at, g.at) {
        Some(Got {
            place: left.place,
            ..g
        })
    } else {
        None
    }
}

// Whether a term stands at a place whose factors are joined by * alone, and no further term after it.
fn only_times(s: &[u8], at: usize, line: u32, table: &Table, code: &mut [u32]) -> bool
    requires ready { Ready s.now at 0 0 code.old }
    requires line_bound { line ≤ 2049 }
    ensures { Timed table.now s.now at result }
{
    let start = Got {
        at,
        place: 0,
        rank: Rank::InOrder,
    };
    let Some(g) = factor(s, start, 0, line, table, code) else {
        return false;
    };
    let sign = join(s, g.at, b'*', b'/');
    match sign.joint {
        Joint::Neither => !signed(s, g.at),
        Joint::First => only_times(s, sign.next, line, table, code),
        Joint::Second => false,
    }
}

// Whether an expression stands at a place in a bracket, which ends the right side.
fn closes(s: &[u8], at: usize, left: Left, table: &Table, code: &mut [u32]) -> bool
    requires ready { Ready s.now at 1 left.place code.old }
    requires line_bound { left.line ≤ 2049 }
    ensures closed { Closed table.now s.now at result }
    ensures code_unchanged { take (2 * left.place) code.new ≡ take (2 * left.place) code.old }
{
    let i = 2 * left.place;
    let start = Got {
        at,
        place: 0,
        rank: Rank::InOrder,
    };
    let Some(g) = expression(s, start, 1, left.line, table, &mut code[i..]) else {
        return false;
    };
    match expect(s, g, b')') {
        Some(h) => ended(s, h.at),
        None => false,
    }
}

// ---- the forms: the place where the remainder begins

// The left side, followed by + or -: the place of that sign.
fn summand(s: &[u8], from: usize, left: Left, table: &Table, code: &mut [u32]) -> Option<Got>
    requires ready { Ready s.now from 0 left.place code.old }
    requires end_in_bounds { (left.end ≤ length s.now) × (left.line ≤ 2049) }
    ensures { Rests Operator.Sum left table.now s.now from code.old code.new result }
{
    let g = repeats(s, from, 0, left, table, code)?;
    if signed(s, g.at) { Some(g) } else { None }
}

// The left side and *, and no +, - or / outside brackets after it.
fn multiplicand(s: &[u8], from: usize, left: Left, table: &Table, code: &mut [u32]) -> Option<Got>
    requires ready { Ready s.now from 0 left.place code.old }
    requires end_in_bounds { (left.end ≤ length s.now) × (left.line ≤ 2049) }
    ensures { Rests Operator.Product left table.now s.now from code.old code.new result }
{
    let g = repeats(s, from, 0, left, table, code)?;
    let at = pass(s, g.at, b"*")?;
    let i = 2 * left.place;
    if only_times(s, at, left.line, table, &mut code[i..]) {
        Some(Got { at, ..g })
    } else {
        None
    }
}

// max with the left side and an expression, and nothing after its bracket.
fn rival(s: &[u8], from: usize, left: Left, table: &Table, code: &mut [u32]) -> Option<Got>
    requires ready { Ready s.now from 0 left.place code.old }
    requires end_in_bounds { (left.end ≤ length s.now) × (left.line ≤ 2049) }
    ensures { Rests Operator.Maximum left table.now s.now from code.old code.new result }
{
    let bracket = pass(s, from, b"max")?;
    let first = pass(s, bracket, b"(")?;
    let g = repeats(s, first, 1, left, table, code)?;
    let at = pass(s, g.at, b",")?;
    if closes(s, at, left, table, code) {
        Some(Got { at, ..g })
    } else {
        None
    }
}

// Where the right side is that of an update by an operator: the place of its remainder.
pub fn rest(
    s: &[u8],
    from: usize,
    operator: Operator,
    left: Left,
    table: &Table,
    code: &mut [u32],
) -> Option<Got>
    requires ready { Ready s.now from 0 left.place code.old }
    requires end_in_bounds { (left.end ≤ length s.now) × (left.line ≤ 2049) }
    ensures { Rests operator left table.now s.now from code.old code.new result }
{
    match operator {
        Operator::Sum => summand(s, from, left, table, code),
        Operator::Product => multiplicand(s, from, left, table, code),
        Operator::Maximum => rival(s, from, left, table, code),
    }
}

// ---- the remainder

// The remainder that begins where something else was read. That of a maximum stands in its bracket, which is read too.
pub fn remainder(
    s: &[u8],
    from: Got,
    operator: Operator,
    line: u32,
    table: &Table,
    code: &mut [u32],
) -> Option<Got>
    requires ready { Ready s.now from.at 1 from.place code.old }
    requires line_bound { line ≤ 2049 }
    ensures { Answers (read_rest operator) (λ t v. code_expr t v line) (mentions (depth_of operator)) 2 (suc from.at) table.now s.now from.at from.place
        (level from.rank) code.old code.new result }
{
    match operator {
        Operator::Sum | Operator::Product => expression(s, from, 0, line, table, code),
        Operator::Maximum => {
            let g = expression(s, from, 1, line, table, code)?;
            expect(s, g, b')')
        }
    }
}
