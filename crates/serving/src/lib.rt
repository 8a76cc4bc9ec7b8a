// The serial run of a text (RULES 6, 9.7 b). It takes any text and whatever is lent, and refuses what it can't take; a refusal leaves all that is
// lent as it came.
#![tactic(auto)]

ghost use Rattle.std.specs.Prelude.{◌≡◌, length};
ghost use Rattle.syntax.specs.Text.{read as read_text};
ghost use Rattle.answers.specs.Numbers.{served_numbers};
ghost use Rattle.serving.specs.Serial.{SerialOf, serial_numbers};

use answers::{Counts, Failure, Fault};
use preparing::prepare_run;
use rules::Class;

// The serial run, in place over the cells: the text and the cells alone decide it. A refusal apart, the workspace keeps the cells at entry, in the rows of
// tables for one processor, for whoever restores them. Free: its other words.
pub fn run_serially(
    text: &[u8],
    cells: &mut [i32],
    workspace: &mut [u32],
) -> Result<Counts, Failure>
    ensures serial_of { SerialOf (read_text text.now) cells.old workspace.old result cells.new workspace.new }
    ensures result_value { served_numbers result ≡ serial_numbers (read_text text.now) cells.old (length workspace.old) }
{
    let mut code = [0; code::WORDS];
    let mut classes = [Class::Shared; 4096];
    let r = prepare_run(
        text,
        cells.len(),
        workspace.len(),
        b"",
        &mut code,
        &mut classes,
    )?;
    let t = serial::run(&code[..r.end], r.setting, &classes, cells, workspace);
    match t.fault {
        None => Ok(Counts {
            pairs: findings::pair_count(workspace),
            cells: findings::cell_count(workspace),
        }),
        Some(fault) => Err(Failure::Faulted(Fault {
            number: fault.number,
            line: fault.line,
            v: stepping::value_at(r.setting.from, t.iteration),
        })),
    }
}
