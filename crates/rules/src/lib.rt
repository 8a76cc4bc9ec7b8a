// The rules of a loop run (RULES 4 to 7). What a run is stands in specs/, the theorem that order decides nothing in
// proofs/Theorem.antt; the code here has the numbers of iterations, groups and processors, and deals the iterations out.
#![tactic(auto)]

ghost use Rattle.std.specs.Prelude.{◌≡◌, ◌≤◌, ◌<◌};
ghost use Rattle.rules.specs.Blocks.{block_start};
ghost use Rattle.rules.specs.Loop.{operator};
ghost use Rattle.rules.specs.Numbers.{grouped, class_number, class_by};
ghost use Rattle.rules.specs.Operation.{operation};

// The index of an iteration, from 0. It is never used for a processor's number.
#[derive(Clone, Copy, Debug, PartialEq, Eq)]
pub struct Iteration(pub u32);

// The number of a group of neighbouring iterations, by which own writes, marks and obstacles go. It is never used for an iteration or a processor.
#[derive(Clone, Copy, Debug, PartialEq, Eq)]
pub struct Group(pub u32);

// The number of a processor, from 0. It is never used for an iteration's index.
#[derive(Clone, Copy, Debug, PartialEq, Eq)]
pub struct Processor(pub u32);

// How a text's iterations are grouped: each is a group of its own, or a processor's block is one (RULES 4.1 b).
#[derive(Clone, Copy, Debug, PartialEq, Eq)]
pub enum Grouping {
    Iterations,
    Blocks,
}

// The operator of a reduction (RULES 3.2 c): what an update does to its cell, and partial results to one another.
#[derive(Clone, Copy, Debug, PartialEq, Eq)]
pub enum Operator {
    Sum,
    Product,
    Maximum,
}

// The class of a cell (RULES 1.7): shared, last private, copied in, or updated by an operator alone.
#[derive(Clone, Copy, Debug, PartialEq, Eq)]
pub enum Class {
    Shared,
    Lastprivate,
    Copied,
    Reduction(Operator),
}

impl Class {
    // The operator of its updates. The other classes have none, and theirs stands for nothing.
    pub fn operator(self) -> Operator
        ensures { result ≡ operator self }
    {
        match self {
            Class::Reduction(operator) => operator,
            _ => Operator::Sum,
        }
    }

    // Its number, which Name answers (RULES 9.2 c), and which the words of the tables hold.
    pub fn number(self) -> u32
        ensures { (result ≡ class_number self) × (result ≤ 5) }
    {
        match self {
            Class::Shared => 0,
            Class::Lastprivate => 1,
            Class::Copied => 3,
            Class::Reduction(Operator::Sum) => 2,
            Class::Reduction(Operator::Product) => 4,
            Class::Reduction(Operator::Maximum) => 5,
        }
    }

    // The class of a number. That of a number that no class has stands for nothing.
    pub fn of_number(number: u32) -> Class
        ensures { result ≡ class_by number }
    {
        match number {
            0 => Class::Shared,
            1 => Class::Lastprivate,
            3 => Class::Copied,
            4 => Class::Reduction(Operator::Product),
            5 => Class::Reduction(Operator::Maximum),
            _ => Class::Reduction(Operator::Sum),
        }
    }
}

// The group of an iteration of a processor.
pub fn group_of(grouping: Grouping, i: Iteration, p: Processor) -> Group
    ensures { result.0 ≡ grouped grouping i.0 p.0 }
{
    match grouping {
        Grouping::Iterations => Group(i.0),
        Grouping::Blocks => Group(p.0),
    }
}

// Two numbers brought together by an operator.
pub fn combine(o: Operator, x: i32, y: i32) -> i32
    ensures { result ≡ (operation o).join x y }
{
    match o {
        Operator::Sum => int32::add(x, y),
        Operator::Product => int32::multiply(x, y),
        Operator::Maximum => int32::maximum(x, y),
    }
}

// The number that a partial result begins with.
pub fn neutral(o: Operator) -> i32
    ensures { result ≡ (operation o).start }
{
    match o {
        Operator::Sum => 0,
        Operator::Product => 1,
        Operator::Maximum => -2147483648,
    }
}

// The first iteration of processor p, of so many iterations and processors. The one after the last processor stands for the end.
#[tactic(auto, unfolding(crate::specs::Blocks::block_start))]
pub fn block_start(iterations: u32, processors: u32, p: Processor) -> Iteration
    requires { (iterations ≤ 65535) × ((0 < processors) × ((processors ≤ 8) × (p.0 ≤ processors))) }
    ensures { result.0 ≡ block_start iterations processors p.0 }
{
    Iteration(iterations * p.0 / processors)
}
