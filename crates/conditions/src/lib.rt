// The reader of conditions (RULES 1.9), each after the word `if`: form, names and limits are checked, and code is emitted.
#![tactic(auto)]

ghost use Rattle.std.specs.Prelude.{◌≡◌, suc, ◌≤◌, ◌<◌, ◌+◌, ◌*◌, length, drop, MatchOption};
ghost use Rattle.std.proofs.Math.Option.{none};
ghost use Rattle.syntax.specs.Ranks.{level};
ghost use Rattle.syntax.specs.Reader.{peek_in, skip_in, rel_of, read_when};
ghost use Rattle.parts.specs.Answer.{Answers, Ready};
ghost use Rattle.statements.specs.Statement.{Compiles};
ghost use Rattle.conditions.specs.Comparison.{Relates, read_right, code_compared, in_compared};

use code::{JUMP_UNLESS, relation_number};
use expressions::expression;
use int32::Relation;
use lexer::{pass, reads, token};
use names::Table;
use parts::{Got, expect, then_emit};
use syntax::Rank;

// A relation, and the place after it.
#[derive(Clone, Copy, Debug, PartialEq, Eq)]
struct Compared {
    relation: Relation,
    next: usize,
}

// The relation at a place, where one stands there.
fn relation(s: &[u8], at: usize) -> Option<Compared>
    requires { at ≤ length s.now }
    ensures { MatchOption result (rel_of (peek_in (drop at s.now)) ≡ none) (Relates s.now at) }
{
    let t = token(s, at);
    let next = t.stop;
    if reads(s, t, b"==") {
        return Some(Compared {
            relation: Relation::Equal,
            next,
        });
    }
    if reads(s, t, b"/=") {
        return Some(Compared {
            relation: Relation::Unequal,
            next,
        });
    }
    if reads(s, t, b"<") {
        return Some(Compared {
            relation: Relation::Less,
            next,
        });
    }
    if reads(s, t, b"<=") {
        return Some(Compared {
            relation: Relation::AtMost,
            next,
        });
    }
    if reads(s, t, b">") {
        return Some(Compared {
            relation: Relation::Greater,
            next,
        });
    }
    if reads(s, t, b">=") {
        return Some(Compared {
            relation: Relation::AtLeast,
            next,
        });
    }
    None
}

// A relation and the right side, the bracket that ends a condition, and `then`.
fn comparison(s: &[u8], from: Got, line: u32, table: &Table, code: &mut [u32]) -> Option<Got>
    requires ready { Ready s.now from.at 0 from.place code.old }
    requires line_bound { line ≤ 2049 }
    ensures { Answers read_right (code_compared line) in_compared 2 (suc from.at) table.now s.now from.at from.place (level from.rank) code.old code.new result }
{
    let by = relation(s, from.at)?;
    let right = Got {
        at: by.next,
        ..from
    };
    let g = expression(s, right, 0, line, table, code)?;
    let g = expect(s, g, b')')?;
    let at = pass(s, g.at, b"then")?;
    Some(then_emit(
        Got { at, ..g },
        code,
        JUMP_UNLESS,
        relation_number(by.relation),
    ))
}

// `if`, a bracket, the two sides with their relation, the other bracket, and `then`. The bracket does not count among those that are open.
pub fn condition(s: &[u8], line: u32, table: &Table, code: &mut [u32], place: usize) -> Option<Got>
    requires { (length s.now ≤ 2048) × (line ≤ 2049) × (2 * (place + 2 * length s.now) ≤ length code.old) }
    ensures { Compiles (read_when peek_in skip_in) table.now s.now line place code.old code.new result }
{
    let bracket = pass(s, 0, b"if")?;
    let at = pass(s, bracket, b"(")?;
    let left = Got {
        at,
        place,
        rank: Rank::InOrder,
    };
    let g = expression(s, left, 0, line, table, code)?;
    comparison(s, g, line, table, code)
}
