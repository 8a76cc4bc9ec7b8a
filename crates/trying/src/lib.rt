// The trial of a text (RULES 4.2, 9.7 a): it takes the schedule's bytes and then runs on to the end by the step that Look uses. It takes any
// text and whatever is lent, and refuses what it can't take; a refusal leaves all that is lent as it came.
#![tactic(auto)]

ghost use Rattle.syntax.specs.Text.{read as read_text};
ghost use Rattle.trying.specs.Trial.{TrialOf};

use answers::Refusal;
use preparing::prepare_run;
use rules::Class;
use trial::Worker;

// What the trial answers: P; whether a fault stopped a processor, and whether a cell has an obstacle; the processors' records.
#[derive(Clone, Copy)]
pub struct Tried {
    pub processors: u32,
    pub faulty: bool,
    pub obstructed: bool,
    pub workers: [Worker; 8],
}

// The schedule's steps, and then all processors to their end, by the step that Look uses. The cells and the workspace are left as the trial leaves them.
// Free: the records from number P on; of the others the pending values at and above the depth, and place and depth themselves where others come to the same rest
// of the iteration; the words past the tables. After a refusal nothing.
pub fn trial(
    text: &[u8],
    cells: &mut [i32],
    workspace: &mut [u32],
    schedule: &[u8],
) -> Result<Tried, Refusal>
    ensures { TrialOf (read_text text.now) cells.old workspace.old schedule.now result cells.new workspace.new }
{
    let mut code = [0; code::WORDS];
    let mut classes = [Class::Shared; 4096];
    let r = prepare_run(
        text,
        cells.len(),
        workspace.len(),
        schedule,
        &mut code,
        &mut classes,
    )?;
    let processors = r.setting.processors;
    let workers = trial::trial(
        &code[..r.end],
        r.setting,
        &classes,
        schedule,
        cells,
        workspace,
    );
    Ok(Tried {
        processors,
        faulty: outcome::is_faulty(processors, workers),
        obstructed: outcome::is_obstructed(processors, cells, workspace),
        workers,
    })
}
