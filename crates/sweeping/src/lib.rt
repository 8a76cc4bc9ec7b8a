// The sweep that finds the stages (RULES 8): the serial run of a loop that is known to meet no fault, once more and step by step, each access also noted
// in the stage table (crates/staging). An iteration's stage is written to the list at its end.
#![tactic(auto)]

ghost use Rattle.std.specs.Prelude.{length};
ghost use Rattle.sweeping.specs.Sweep.{CanNote, Notes, CanIterate, Iterates, CanSweep, Sweeps};

use operands::Move;
use rules::{Class, Iteration};
use staging::Touch;
use stepping::{Extent, Role};
use trial::Setting;

// A move of iteration i, in the rows of the stage table. The answer is the highest stage that the iteration has to come after, which was `over`.
#[tactic(auto, unfolding(crate::specs::Sweep::CanNote, crate::specs::Sweep::noted_by, crate::specs::Sweep::over_by))]
fn note(rows: &mut [u32], list: &[u16], i: Iteration, done: Move, over: u32) -> u32
    requires { CanNote list.now i.0 rows.old done }
    ensures { Notes list.now i.0 rows.old done over rows.new result }
{
    match done {
        Move::Read { cell } => staging::note(rows, list, i, cell, Touch::Read, over),
        Move::Write { cell, .. } | Move::Update { cell, .. } => {
            staging::note(rows, list, i, cell, Touch::Change, over)
        }
        Move::Fault { .. } | Move::End => over,
    }
}

// Iteration i. The answer is the highest stage of a lower iteration that it depends on, 0 for none.
fn iterate(
    code: &[u32],
    role: Role,
    list: &[u16],
    i: Iteration,
    cells: &mut [i32],
    w: &mut [u32],
    rows: &mut [u32],
) -> u32
    requires { CanIterate code.now role i.0 cells.old w.old rows.old list.now }
    ensures { Iterates code.now role i.0 cells.old w.old rows.old list.now
        cells.new w.new rows.new result }
{
    let mut pending = [0; 32];
    let mut t = stepping::unstopped_at(0, 0, i);
    let mut over: u32 = 0;
    while t.iteration.0 == i.0 {
        let r = stepping::carry_on(code, role, cells, w, &mut pending, t, Extent::Once);
        over = note(rows, list, i, r.done, over);
        t = r.point;
    }
    over
}

// All iterations. Each one's stage goes to the list, and the answer is the highest. Free: cells, words and rows.
pub fn sweep(
    code: &[u32],
    setting: Setting,
    classes: &[Class],
    cells: &mut [i32],
    w: &mut [u32],
    rows: &mut [u32],
    list: &mut [u16],
) -> u32
    requires { CanSweep code.now setting cells.old classes.now (length w.old) rows.old (length list.old) }
    ensures { Sweeps code.now setting cells.old classes.now (length w.old) list.new result }
{
    trial::enter(1, cells, classes, w);
    let role = serial::only_role(setting);
    let mut stages: u32 = 0;
    for i in 0..setting.iterations {
        let over = iterate(code, role, list, Iteration(i), cells, w, rows);
        let stage = over + 1;
        list[i as usize] = stage as u16;
        stages = stages.max(stage);
    }
    stages
}
