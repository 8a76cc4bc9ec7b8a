// What is read off cells, words and records after a run: whether it met a fault or an obstacle, the cells that it leaves, and those at entry; and what Run
// answers after the serial run.
#![tactic(auto)]

ghost use Rattle.std.specs.Prelude.{◌≡◌, ◌||◌, ◌≤◌};
ghost use Rattle.trial.specs.Standing.{Stands};
ghost use Rattle.outcome.specs.ReadOff.{Fails, Judges, Merges, CanRestore, Restores};
ghost use Rattle.outcome.specs.Concluding.{CanConclude, ConcludesBy};

use answers::{Counts, Failure, Ran};
use trial::Worker;

// Whether a fault stopped some processor.
pub fn is_faulty(processors: u32, workers: [Worker; 8]) -> bool
    requires { processors ≤ 8 }
    ensures { Fails processors workers result }
{
    workers[..processors as usize]
        .iter()
        .any(|worker| worker.point.fault.is_some())
}

// Whether some cell has an obstacle.
pub fn is_obstructed(processors: u32, cells: &[i32], w: &[u32]) -> bool
    requires { Stands processors cells.now w.now }
    ensures { Judges processors cells.now w.now result }
{
    for c in 0..cells.len() {
        if findings::is_blocked(w, tables::row_of(c, processors)) {
            return true;
        }
    }
    false
}

// The cells that a run that passed leaves.
pub fn merge(processors: u32, cells: &mut [i32], w: &[u32])
    requires { Stands processors cells.old w.now }
    ensures { Merges processors cells.old w.now cells.new }
{
    for (c, cell) in cells.iter_mut().enumerate() {
        let row = tables::row_of(c, processors);
        *cell = findings::merged_value(w, row, *cell, processors);
    }
}

// The cells as they were at entry.
pub fn restore(processors: u32, cells: &mut [i32], w: &[u32])
    requires { CanRestore processors cells.old w.now }
    ensures { Restores processors cells.old w.now cells.new }
{
    for (c, cell) in cells.iter_mut().enumerate() {
        *cell = findings::entry_value(w, tables::row_of(c, processors));
    }
}

// Whether a trial is rejected: a fault stopped a processor, or a cell has an obstacle.
pub fn is_rejected(faulty: bool, obstructed: bool) -> bool
    ensures { result ≡ faulty || obstructed }
{
    faulty || obstructed
}

// What Run answers after the serial run: a fault brings the cells back to entry. The workspace is left all zero.
pub fn conclude(
    served: Result<Counts, Failure>,
    cells: &mut [i32],
    workspace: &mut [u32],
) -> Result<Ran, Failure>
    requires { CanConclude served cells.old workspace.old }
    ensures { ConcludesBy served cells.old workspace.old result cells.new workspace.new }
{
    match served {
        Ok(counts) => {
            tables::clear(workspace);
            Ok(Ran::Rerun(counts))
        }
        Err(failure) => match failure {
            Failure::Faulted(_) => {
                restore(1, cells, workspace);
                tables::clear(workspace);
                Err(failure)
            }
            Failure::Refused(_) => Err(failure),
        },
    }
}
