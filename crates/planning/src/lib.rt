// Plan (RULES 8, 9.6): the stages in which a loop's iterations can be run. It takes any text and whatever is lent, and refuses what it can't take; a
// refusal leaves the list as it came. The cells are lent to be read only.
//
// The loop is run serially twice, each time over a copy of the cells: the first run tells whether there is a fault, so that the second can write to the list.
#![tactic(auto)]

ghost use Rattle.std.specs.Prelude.{◌≡◌, ◌≤◌, length, replicate};
ghost use Rattle.syntax.specs.Text.{read as read_text};
ghost use Rattle.answers.specs.Answers.{plan_of, list_planned, plan_workspace};
ghost use Rattle.serial.specs.Serving.{CanSerial};
ghost use Rattle.sweeping.specs.Sweep.{Zeros, CanSweep, Sweeps};
ghost use Rattle.planning.specs.Plan.{Ends, CanPlan, Plans};

use answers::{Failure, Fault, Refusal};
use preparing::prepare_run;
use rules::Class;
use stepping::Point;
use trial::Setting;

// The serial run, for where it ends. The workspace is left all zero.
fn run_copied(
    code: &[u32],
    setting: Setting,
    classes: &[Class],
    cells: &[i32],
    own: &mut [i32],
    w: &mut [u32],
) -> Point
    requires { CanSerial code.now setting cells.now classes.now (length w.old) × (length cells.now ≤ length own.old) }
    ensures ends { Ends code.now setting cells.now classes.now (length w.old) result }
    ensures w_after { w.new ≡ replicate (length w.old) 0 }
{
    let own = &mut own[..cells.len()];
    own.copy_from_slice(cells);
    let t = serial::run(code, setting, classes, own, w);
    tables::clear(w);
    t
}

// The sweep, for the stages. The workspace is left all zero.
fn sweep_copied(
    code: &[u32],
    setting: Setting,
    classes: &[Class],
    cells: &[i32],
    own: &mut [i32],
    w: &mut [u32],
    rows: &mut [u32],
    list: &mut [u16],
) -> u32
    requires { CanSweep code.now setting cells.now classes.now (length w.old) rows.old (length list.old) × (length cells.now ≤ length own.old) }
    ensures sweeps { Sweeps code.now setting cells.now classes.now (length w.old) list.new result }
    ensures w_after { w.new ≡ replicate (length w.old) 0 }
{
    let own = &mut own[..cells.len()];
    own.copy_from_slice(cells);
    let stages = sweeping::sweep(code, setting, classes, own, w, rows, list);
    tables::clear(w);
    stages
}

// Both runs.
fn stages_of(
    code: &[u32],
    setting: Setting,
    classes: &[Class],
    cells: &[i32],
    own: &mut [i32],
    w: &mut [u32],
    rows: &mut [u32],
    list: &mut [u16],
) -> Result<u32, Failure>
    requires { CanPlan code.now setting cells.now classes.now (length w.old) (length list.old) × (length cells.now ≤ length own.old)
        × Zeros cells.now rows.old }
    ensures plans { Plans code.now setting cells.now classes.now (length w.old) list.old result list.new }
    ensures w_after { w.new ≡ replicate (length w.old) 0 }
{
    let t = run_copied(code, setting, classes, cells, own, w);
    match t.fault {
        Some(fault) => Err(Failure::Faulted(Fault {
            number: fault.number,
            line: fault.line,
            v: stepping::value_at(setting.from, t.iteration),
        })),
        None => Ok(sweep_copied(code, setting, classes, cells, own, w, rows, list)),
    }
}

// The stage of each iteration, and how many stages there are: running them in turn, the iterations of a stage in any order, gives the cells of the serial run, and
// no plan has fewer (`stages_in_turn` and `fewest_stages`, proofs/Theorem.antt).
pub fn plan(
    text: &[u8],
    cells: &[i32],
    workspace: &mut [u32],
    list: &mut [u16],
) -> Result<u32, Failure>
    ensures value { result ≡ plan_of (read_text text.now) cells.now (length workspace.old) (length list.old) }
    ensures list_after { list.new ≡ list_planned (read_text text.now) cells.now (length workspace.old) list.old }
    ensures workspace_after { workspace.new
        ≡ plan_workspace (read_text text.now) cells.now workspace.old (length list.old) }
{
    let mut code = [0; code::WORDS];
    let mut classes = [Class::Shared; 4096];
    let r = prepare_run(
        text,
        cells.len(),
        workspace.len(),
        b"",
        &mut code,
        &mut classes,
    )?;
    if list.len() != r.setting.iterations as usize {
        return Err(Failure::Refused(Refusal::of_lent(11)));
    }
    let mut own = [0; 4096];
    let mut rows = [0; staging::WORDS];
    stages_of(
        &code[..r.end],
        r.setting,
        &classes,
        cells,
        &mut own,
        workspace,
        &mut rows,
        list,
    )
}
