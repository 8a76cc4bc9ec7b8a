// What can't be taken of what is lent (RULES 10: numbers 5 to 7).
#![tactic(auto)]

ghost use Rattle.std.specs.Prelude.{◌≡◌, ◌≤◌, ltb};
ghost use Rattle.syntax.specs.Bytes.{all};
ghost use Rattle.answers.specs.Answers.{needed, cells_number, fit_number, completed};

use answers::Refusal;

// The words of workspace that a run needs.
fn needed_words(n: u32, processors: u32) -> usize
    requires { (n ≤ 4096) × (processors ≤ 8) }
    ensures { result ≡ needed n processors }
{
    let p = processors as usize;
    4352 + 64 * p + n as usize * (4 + 8 * p)
}

// Whether each byte of a schedule names a processor.
fn is_schedule(schedule: &[u8], processors: u32) -> bool
    ensures { result ≡ all (λ b. ltb b processors) schedule.now }
{
    schedule.iter().all(|&b| u32::from(b) < processors)
}

// Whether so many cells can be taken for n: else number 5.
pub fn check_cells(n: u32, cells: usize) -> Result<(), Refusal>
    ensures { result ≡ completed (cells_number n cells) }
{
    if cells != n as usize {
        return Err(Refusal::of_lent(5));
    }
    Ok(())
}

// Whether so many cells and words and this schedule can be taken for n cells and so many processors; else the number of the first that can't be: 5 the cells,
// 6 the workspace, 7 the schedule.
pub fn check_lent(
    n: u32,
    processors: u32,
    cells: usize,
    words: usize,
    schedule: &[u8],
) -> Result<(), Refusal>
    requires { (n ≤ 4096) × (processors ≤ 8) }
    ensures { result ≡ completed (fit_number n processors cells words schedule.now) }
{
    check_cells(n, cells)?;
    if words < needed_words(n, processors) {
        return Err(Refusal::of_lent(6));
    }
    if !is_schedule(schedule, processors) {
        return Err(Refusal::of_lent(7));
    }
    Ok(())
}
