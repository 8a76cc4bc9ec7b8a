// What the services answer (RULES 9), or a refusal or fault in its place (RULES 10). specs/Answers.antt says what each answers and leaves, by the verdict on the
// text; specs/Numbers.antt has the number, line and v of RULES 10 for what the serial run answers.
#![tactic(auto)]

ghost use Rattle.std.specs.Prelude.{◌≡◌};
ghost use Rattle.answers.specs.Answers.{refusal_at};
ghost use Rattle.answers.specs.declared.Failure.TheVariants.{Refused};

use rules::{Class, Grouping};

// A refusal: its number, and the line of the text that it is for (0: none).
#[derive(Clone, Copy, Debug, PartialEq, Eq)]
pub struct Refusal {
    pub number: u32,
    pub line: u32,
}

impl Refusal {
    // For what is lent, and so for no line of the text.
    pub fn of_lent(number: u32) -> Refusal
        ensures { result ≡ refusal_at number 0 }
    {
        Refusal { number, line: 0 }
    }
}

// A fault: its number, the line of the statement, and the value of the loop's variable.
#[derive(Clone, Copy, Debug, PartialEq, Eq)]
pub struct Fault {
    pub number: u32,
    pub line: u32,
    pub v: i32,
}

// What ends Run, Plan or the serial run without what was asked for.
#[derive(Clone, Copy, Debug, PartialEq, Eq)]
pub enum Failure {
    Refused(Refusal),
    Faulted(Fault),
}

impl From<Refusal> for Failure {
    ghost from_gives = { λ r e. e ≡ Refused r };

    fn from(r: Refusal) -> Failure {
        Failure::Refused(r)
    }
}

// Both write counts.
#[derive(Clone, Copy, Debug, PartialEq, Eq)]
pub struct Counts {
    pub pairs: u32,
    pub cells: u32,
}

// What Check answers: N and P.
#[derive(Clone, Copy, Debug, PartialEq, Eq)]
pub struct Sizes {
    pub cells: u32,
    pub processors: u32,
}

// What Bounds answers: the first value of v, the number of iterations and how they are grouped.
#[derive(Clone, Copy, Debug, PartialEq, Eq)]
pub struct Bounds {
    pub from: i32,
    pub iterations: u32,
    pub grouping: Grouping,
}

// What Name answers: the first cell of a name, how many it has, how many subscripts it takes, its class and its extents.
#[derive(Clone, Copy, Debug, PartialEq, Eq)]
pub struct Located {
    pub first: u32,
    pub count: u32,
    pub subscripts: u32,
    pub class: Class,
    pub rows: u32,
    pub columns: u32,
}

// What Run answers: a run that passed, or was made again, with the serial run's write counts.
#[derive(Clone, Copy, Debug, PartialEq, Eq)]
pub enum Ran {
    Passed(Counts),
    Rerun(Counts),
}
