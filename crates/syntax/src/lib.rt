// What a loop text is (RULES 1): the definitions stand in specs/, the theorems in proofs/Theorem.antt. The only code is enums that
// the grammar and the readers share.
#![tactic(auto)]

ghost use Rattle.std.specs.Prelude.{◌≡◌, max};
ghost use Rattle.syntax.specs.Flaws.{flaw_number};
ghost use Rattle.syntax.specs.Ranks.{level};

use rules::Operator;

// The functions of two numbers: `rdiv(e, e)`, and `max(e, e)` (RULES 1.10).
#[derive(Clone, Copy, Debug, PartialEq, Eq)]
pub enum Function {
    Rdiv,
    Max,
}

// What a clause with a list of names says of them: `shared(list)`, `lastprivate(list)`, `firstprivate(list)`, `reduction(+:list)`,
// `reduction(*:list)`, `reduction(max:list)` (Point 6).
#[derive(Clone, Copy, Debug, PartialEq, Eq)]
pub enum ClauseKind {
    Shared,
    Lastprivate,
    Firstprivate,
    Reduction { operator: Operator },
}

// What the names and the numbers of a part of a line come to: in order, a number over a limit, or a wrong name, each worse than the one before.
#[derive(Clone, Copy, Debug, PartialEq, Eq, PartialOrd, Ord)]
pub enum Rank {
    InOrder,
    OverLimit,
    WrongName,
}

impl Rank {
    // The worse of two.
    pub fn worse(self, other: Rank) -> Rank
        ensures { level result ≡ max (level self) (level other) }
    {
        self.max(other)
    }
}

// What is wrong with a text (RULES 10, 1 to 4): over 2,048 bytes, a broken form, a wrong name, or a number over a limit.
#[derive(Clone, Copy, Debug, PartialEq, Eq)]
pub enum Flaw {
    TooLong,
    BrokenForm,
    WrongName,
    OverLimit,
}

impl Flaw {
    // Its number.
    pub fn number(self) -> u32
        ensures { result ≡ flaw_number self }
    {
        self as u32 + 1
    }
}
