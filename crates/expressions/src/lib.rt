// The readers of expressions (RULES 1.10): form, names and limits are checked, and postfix code is emitted, in one pass over what is
// left of a line. "An expression holds terms, a term holds factors, a factor may hold an expression": the readers call each other.
#![tactic(auto)]

ghost use Rattle.std.specs.Prelude.{◌≡◌, suc, ◌≤◌, ◌+◌, ◌*◌, length};
ghost use Rattle.syntax.specs.Grammar.{element};
ghost use Rattle.syntax.specs.Ranks.{level};
ghost use Rattle.syntax.specs.Reader.{peek_in, skip_in, read_expr, read_terms, read_term, read_factors, read_factor, read_ref};
ghost use Rattle.syntax.specs.Conditions.{mentions, in_terms, in_term, in_factors, in_factor, in_ref};
ghost use Rattle.code.specs.Compile.{code as code_expr, code_terms, code_term, code_factors, code_factor, code_ref};
ghost use Rattle.parts.specs.Answer.{Answers, Ready};
ghost use Rattle.parts.specs.Parts.{kind_at, text_at};
ghost use Rattle.expressions.specs.Readers.{read_arguments, read_indices};

use names::Table;
use parts::{
    Beginning, Fetch, Got, Joint, begin, call_operation, constant, expect, factor_operation, join,
    named, opened, term_operation, then_emit, then_negate, then_read, variable,
};
use syntax::Function;

// `s`, `line` and `table` stay apart: a struct of the three is `l.text.now` in a `requires` and `l.entry.text.now` in an `ensures`, which is no plainer.

// The readers call each other. The bytes that are left and the brackets that may still open, fewer than bytes, give the number that falls with each call.

// An expression: a sign or none, a term, and further terms.
#[cycle(expression_factor_more_factors_more_terms_pair_subscripts_term)]
pub fn expression(
    s: &[u8],
    from: Got,
    depth: usize,
    line: u32,
    table: &Table,
    code: &mut [u32],
) -> Option<Got>
    requires ready { Ready s.now from.at depth from.place code.old }
    requires line_bound { line ≤ 2049 }
    ensures { Answers (read_expr peek_in skip_in) (λ t v. code_expr t v line) (mentions depth) 2 (suc from.at) table.now s.now from.at from.place
        (level from.rank) code.old code.new result }
{
    let lead = join(s, from.at, b'+', b'-');
    let start = Got {
        at: lead.next,
        ..from
    };
    let first = term(s, start, depth, line, table, code)?;
    let g = then_negate(first, code, lead.joint);
    more_terms(s, g, depth, line, table, code)
}

// Further terms, each after + or -.
#[cycle(expression_factor_more_factors_more_terms_pair_subscripts_term)]
fn more_terms(
    s: &[u8],
    from: Got,
    depth: usize,
    line: u32,
    table: &Table,
    code: &mut [u32],
) -> Option<Got>
    requires ready { Ready s.now from.at depth from.place code.old }
    requires line_bound { line ≤ 2049 }
    ensures { Answers (read_terms peek_in skip_in) (λ t v. code_terms t v line) (in_terms depth) 0 from.at table.now s.now from.at from.place (level from.rank)
        code.old code.new result }
{
    let sign = join(s, from.at, b'+', b'-');
    if sign.joint == Joint::Neither {
        return Some(from);
    }
    let start = Got {
        at: sign.next,
        ..from
    };
    let one = term(s, start, depth, line, table, code)?;
    let g = then_emit(one, code, term_operation(sign.joint), 0);
    more_terms(s, g, depth, line, table, code)
}

// A term: a factor, and further factors.
#[cycle(expression_factor_more_factors_more_terms_pair_subscripts_term)]
fn term(
    s: &[u8],
    from: Got,
    depth: usize,
    line: u32,
    table: &Table,
    code: &mut [u32],
) -> Option<Got>
    requires ready { Ready s.now from.at depth from.place code.old }
    requires line_bound { line ≤ 2049 }
    ensures { Answers (read_term peek_in skip_in) (λ t v. code_term t v line) (in_term depth) 1 (suc from.at) table.now s.now from.at from.place (level from.rank)
        code.old code.new result }
{
    let g = factor(s, from, depth, line, table, code)?;
    more_factors(s, g, depth, line, table, code)
}

// Further factors, each after * or /. One function for these and `more_terms` is no plainer: it takes the reader of one, its operation and two signs as arguments.
#[cycle(expression_factor_more_factors_more_terms_pair_subscripts_term)]
fn more_factors(
    s: &[u8],
    from: Got,
    depth: usize,
    line: u32,
    table: &Table,
    code: &mut [u32],
) -> Option<Got>
    requires ready { Ready s.now from.at depth from.place code.old }
    requires line_bound { line ≤ 2049 }
    ensures { Answers (read_factors peek_in skip_in) (λ t v. code_factors t v line) (in_factors depth) 0 from.at table.now s.now from.at from.place
        (level from.rank) code.old code.new result }
{
    let sign = join(s, from.at, b'*', b'/');
    if sign.joint == Joint::Neither {
        return Some(from);
    }
    let start = Got {
        at: sign.next,
        ..from
    };
    let one = factor(s, start, depth, line, table, code)?;
    let g = then_emit(one, code, factor_operation(sign.joint, line), 0);
    more_factors(s, g, depth, line, table, code)
}

// A factor, by how it begins.
#[cycle(expression_factor_more_factors_more_terms_pair_subscripts_term)]
pub fn factor(
    s: &[u8],
    from: Got,
    depth: usize,
    line: u32,
    table: &Table,
    code: &mut [u32],
) -> Option<Got>
    requires ready { Ready s.now from.at depth from.place code.old }
    requires line_bound { line ≤ 2049 }
    ensures { Answers (read_factor peek_in skip_in) (λ t v. code_factor t v line) (in_factor depth) 0 (suc from.at) table.now s.now from.at
        from.place (level from.rank) code.old code.new result }
{
    let b = begin(s, from.at)?;
    let next = Got { at: b.next, ..from };
    match b.beginning {
        Beginning::Literal => Some(constant(s, from, code)),
        Beginning::Bracket => {
            let inner = depth + 1;
            let start = Got {
                rank: opened(from.rank, inner),
                ..next
            };
            let g = expression(s, start, inner, line, table, code)?;
            expect(s, g, b')')
        }
        Beginning::Call { function } => pair(s, next, depth, line, table, code, function),
        Beginning::Name => Some(variable(s, from, line, table, code)),
        Beginning::Element => {
            let g = subscripts(s, next, depth, line, table, code, from.at)?;
            Some(then_read(s, from.at, line, table, code, g, Fetch::Indexed))
        }
    }
}

// The two expressions of a function, after its bracket.
#[cycle(expression_factor_more_factors_more_terms_pair_subscripts_term)]
fn pair(
    s: &[u8],
    from: Got,
    depth: usize,
    line: u32,
    table: &Table,
    code: &mut [u32],
    function: Function,
) -> Option<Got>
    requires ready { Ready s.now from.at (depth + 1) from.place code.old }
    requires line_bound { line ≤ 2049 }
    ensures { Answers (read_arguments function) (λ t v. code_factor t v line) (in_factor depth) 2 (suc from.at) table.now s.now from.at from.place (level from.rank)
        code.old code.new result }
{
    let inner = depth + 1;
    let start = Got {
        rank: opened(from.rank, inner),
        ..from
    };
    let a = expression(s, start, inner, line, table, code)?;
    let a = expect(s, a, b',')?;
    let b = expression(s, a, inner, line, table, code)?;
    let b = expect(s, b, b')')?;
    Some(then_emit(b, code, call_operation(function, line), 0))
}

// The subscripts of the name at a place, after its bracket (RULES 1.10, 2.5); `flatten` makes one of a grid's two.
#[cycle(expression_factor_more_factors_more_terms_pair_subscripts_term)]
fn subscripts(
    s: &[u8],
    from: Got,
    depth: usize,
    line: u32,
    table: &Table,
    code: &mut [u32],
    name: usize,
) -> Option<Got>
    requires ready { Ready s.now from.at (depth + 1) from.place code.old }
    requires line_bound { (line ≤ 2049) × (name ≤ length s.now) × (kind_at s.now name ≡ 1) }
    ensures { Answers read_indices (λ t v i. code_ref t v line (element (text_at s.now name) i))
        (λ i. in_ref depth (element (text_at s.now name) i)) 2 (suc from.at) table.now s.now from.at from.place (level from.rank)
        code.old code.new result }
{
    let inner = depth + 1;
    let start = Got {
        rank: opened(from.rank, inner),
        ..from
    };
    let g = expression(s, start, inner, line, table, code)?;
    let sign = join(s, g.at, b',', b')');
    match sign.joint {
        Joint::Second => Some(Got {
            at: sign.next,
            rank: named(s, name, g.rank, table, 1),
            ..g
        }),
        Joint::First => {
            let other = Got {
                at: sign.next,
                rank: named(s, name, g.rank, table, 2),
                ..g
            };
            let h = expression(s, other, inner, line, table, code)?;
            let h = expect(s, h, b')')?;
            Some(then_read(s, name, line, table, code, h, Fetch::Place))
        }
        Joint::Neither => None,
    }
}

// A name, and its subscripts if it has some, with so many brackets open around it: only the subscripts' code is emitted.
pub fn reference(
    s: &[u8],
    from: Got,
    depth: usize,
    line: u32,
    table: &Table,
    code: &mut [u32],
) -> Option<Got>
    requires ready { Ready s.now from.at depth from.place code.old }
    requires line_bound { line ≤ 2049 }
    ensures { Answers (read_ref peek_in skip_in) (λ t v. code_ref t v line) (in_ref depth) 0 (suc from.at) table.now s.now from.at from.place (level from.rank)
        code.old code.new result }
{
    let b = begin(s, from.at)?;
    let next = Got { at: b.next, ..from };
    match b.beginning {
        Beginning::Name => Some(Got {
            rank: named(s, from.at, from.rank, table, 0),
            ..next
        }),
        Beginning::Element => subscripts(s, next, depth, line, table, code, from.at),
        Beginning::Literal | Beginning::Bracket | Beginning::Call { .. } => None,
    }
}
