// One step of a processor (RULES 4.3, 4.4): the code up to its next cell access, and that access, noted in the shadow tables. `carry_on` is the only
// caller of the step. A schedule's byte takes one, the run to the end all that are left; the serial run takes all of them, with accesses in place, and the sweep of
// crates/sweeping the same one by one.
// What a step does to cells, words and pending values is in specs/Step.antt; that it is the step rule's is shown in crates/trial, the serial run's in
// crates/serial.
#![tactic(auto)]

ghost use Rattle.std.specs.Prelude.{◌≡◌, ◌≤◌, pos, ◌+ℤ◌};
ghost use Rattle.std.specs.Int.{w32};
ghost use Rattle.std.proofs.Common.{SFits};
ghost use Rattle.stepping.specs.Step.{unstopped, scene, CanMake, Makes, CanGo, Went};
ghost use Rattle.stepping.specs.Carrying.{opened, CanCarry, Carries, Does};

use machine::Advanced;
use operands::Move;
use rules::{Grouping, Iteration, Processor};

mod access;

// How accesses work: by the class of the cell, with private values kept apart, or in place, whatever the class.
// No closure or type parameter: each access has one `match` on it, and a parameter would put a second step into the code, as a second caller of the step did (see `Extent`).
#[derive(Clone, Copy, Debug, PartialEq, Eq)]
pub enum Manner {
    ByClass,
    InPlace,
}

// How far a processor goes: one step, or until it is finished or stopped.
// No function for each, and no closure: a second caller of the step was tried, and Run took a third longer.
#[derive(Clone, Copy, Debug, PartialEq, Eq)]
pub enum Extent {
    Once,
    ToTheEnd,
}

// What is fixed for a processor: how its accesses work, how its iterations are grouped, for how many processors the tables are laid out, its number, the first
// value of the loop's variable, and the iteration that its block ends before.
#[derive(Clone, Copy, Debug, PartialEq, Eq)]
pub struct Role {
    pub manner: Manner,
    pub grouping: Grouping,
    pub processors: u32,
    pub number: Processor,
    pub from: i32,
    pub end: Iteration,
}

// A fault: its number (RULES 10) and its line.
#[derive(Clone, Copy, Debug, PartialEq, Eq)]
pub struct Fault {
    pub number: u32,
    pub line: u32,
}

// Where a processor is: how many values are pending, its place in the code and its iteration, and the fault that stopped it.
#[derive(Clone, Copy, Debug, PartialEq, Eq)]
pub struct Point {
    pub depth: usize,
    pub place: usize,
    pub iteration: Iteration,
    pub fault: Option<Fault>,
}

// What a step came to: where the processor then is, and the move that it made.
#[derive(Clone, Copy, Debug, PartialEq, Eq)]
pub struct Stepped {
    pub point: Point,
    pub done: Move,
}

// The value of the loop's variable in an iteration.
pub fn value_at(from: i32, i: Iteration) -> i32
    requires { (i.0 ≤ 65535) × SFits w32 (from +ℤ pos i.0) }
    ensures { result ≡ from +ℤ pos i.0 }
{
    from + i.0 as i32
}

// Where a processor is that no fault stopped.
pub fn unstopped_at(depth: usize, place: usize, iteration: Iteration) -> Point
    ensures { result ≡ unstopped depth place iteration.0 }
{
    Point {
        depth,
        place,
        iteration,
        fault: None,
    }
}

// The move that the code came to: its access, and where the processor then is.
fn make(
    role: Role,
    i: Iteration,
    cells: &mut [i32],
    w: &mut [u32],
    pending: &mut [i32; 32],
    r: Advanced,
) -> Point
    requires { CanMake role i.0 cells.old w.old pending.old r }
    ensures { Makes role i.0 cells.old w.old pending.old r (scene cells.new w.new pending.new result) }
{
    match r.done {
        Move::Read { cell } => {
            let x = access::read_cell(role, i, cells, w, cell);
            let d = operands::put(pending, r.depth, x);
            unstopped_at(d, r.place, i)
        }
        Move::Write { cell, value } => {
            access::write_cell(role, i, cells, w, cell, value);
            unstopped_at(r.depth, r.place, i)
        }
        Move::Update { cell, value } => {
            access::update_cell(role, i, cells, w, cell, value);
            unstopped_at(r.depth, r.place, i)
        }
        Move::Fault { number, line } => Point {
            depth: r.depth,
            place: r.place,
            iteration: i,
            fault: Some(Fault { number, line }),
        },
        Move::End => unstopped_at(0, 0, Iteration(i.0 + 1)),
    }
}

// One step of a processor that is not finished and not stopped: up to and including its next cell access, or to the end of its iteration or a fault.
fn go_on(
    code: &[u32],
    role: Role,
    cells: &mut [i32],
    w: &mut [u32],
    pending: &mut [i32; 32],
    t: Point,
) -> Stepped
    requires { CanGo role code.now (scene cells.old w.old pending.old t) }
    ensures { Went role code.now (scene cells.old w.old pending.old t)
        (scene cells.new w.new pending.new result.point) result.done }
{
    let i = t.iteration;
    let v = value_at(role.from, i);
    let r = machine::advance(code, t.place, t.depth, pending, v);
    Stepped {
        point: make(role, i, cells, w, pending, r),
        done: r.done,
    }
}

// Whether a processor whose block ends before an iteration is neither stopped nor finished.
#[tactic(auto, unfolding(crate::specs::Carrying::opened))]
fn is_open(t: Point, end: Iteration) -> bool
    ensures { result ≡ opened t end.0 }
{
    t.fault.is_none() && t.iteration.0 < end.0
}

// The steps of a processor, as far as it is to go. A finished or stopped one does nothing. The answer's move is that of the one step (`Once`), if it makes it; else it
// is free.
pub fn carry_on(
    code: &[u32],
    role: Role,
    cells: &mut [i32],
    w: &mut [u32],
    pending: &mut [i32; 32],
    from: Point,
    extent: Extent,
) -> Stepped
    requires { CanCarry role code.now (scene cells.old w.old pending.old from) }
    ensures carries { Carries extent role code.now (scene cells.old w.old pending.old from)
        (scene cells.new w.new pending.new result.point) }
    ensures does { Does extent role code.now (scene cells.old w.old pending.old from)
        (scene cells.new w.new pending.new result.point) result.done }
{
    let mut t = from;
    while is_open(t, role.end) {
        let r = go_on(code, role, cells, w, pending, t);
        t = r.point;
        match extent {
            Extent::Once => return r,
            Extent::ToTheEnd => {}
        }
    }
    Stepped {
        point: t,
        done: Move::End,
    }
}
