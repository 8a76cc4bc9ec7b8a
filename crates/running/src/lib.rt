// Run (RULES 9.5): the trial, and the serial run where a fault or an obstacle rejects it. It takes any text and whatever is lent, and
// refuses what it can't take; a refusal leaves all that is lent as it came.
#![tactic(auto)]

ghost use Rattle.std.specs.Prelude.{◌≡◌, length};
ghost use Rattle.syntax.specs.Text.{read as read_text};
ghost use Rattle.answers.specs.Answers.{run_of, cells_run, run_workspace};

use answers::{Counts, Failure, Ran};
use outcome::{conclude, is_rejected};
use serving::run_serially;

// Demand 3. No order of the steps decides what it answers and leaves: on the right the schedule is looked at for number 7 alone. Nor does the number of
// processors: for texts alike in all but P the right sides are the same (`alike_texts`, proofs/Theorem.antt), but that in those with the clause
// `schedule(static)` the word passed or rerun may differ (`alike_but_for_the_word`).
pub fn run(
    text: &[u8],
    cells: &mut [i32],
    workspace: &mut [u32],
    schedule: &[u8],
) -> Result<Ran, Failure>
    ensures value { result ≡ run_of (read_text text.now) cells.old (length workspace.old) schedule.now }
    ensures cells_after { cells.new ≡ cells_run (read_text text.now) cells.old (length workspace.old) schedule.now }
    ensures workspace_after { workspace.new ≡ run_workspace (read_text text.now) cells.old workspace.old schedule.now }
{
    let t = trying::trial(text, cells, workspace, schedule)?;
    if is_rejected(t.faulty, t.obstructed) {
        outcome::restore(t.processors, cells, workspace);
        let served = run_serially(text, cells, workspace);
        return conclude(served, cells, workspace);
    }
    outcome::merge(t.processors, cells, workspace);
    let counts = Counts {
        pairs: findings::pair_count(workspace),
        cells: findings::cell_count(workspace),
    };
    tables::clear(workspace);
    Ok(Ran::Passed(counts))
}
