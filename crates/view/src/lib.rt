// What Look shows of a loop's run: for each cell the shared value and the marks, after the steps of a schedule.
#![tactic(auto)]

ghost use Rattle.std.specs.Prelude.{◌≡◌, ◌*◌, ◌≤◌, length, replicate};
ghost use Rattle.trial.specs.Standing.{Stands};
ghost use Rattle.trial.specs.Start.{CanTry};
ghost use Rattle.view.specs.View.{Shown, ShowsAfter};

use rules::Class;
use trial::Setting;

// For each cell the word of its shared value, and its marks.
pub fn show(processors: u32, cells: &[i32], w: &[u32], view: &mut [u32])
    requires { Stands processors cells.now w.now × (length view.old ≡ 2 * length cells.now) }
    ensures { Shown processors cells.now w.now view.new }
{
    for (c, &x) in cells.iter().enumerate() {
        let row = tables::row_of(c, processors);
        view[2 * c] = int32::to_word(x);
        view[2 * c + 1] = findings::marks_of(w, row);
    }
}

// What stands after the schedule's steps, in the view. The workspace is left all zero. Free: the cells.
fn show_after(
    code: &[u32],
    setting: Setting,
    classes: &[Class],
    schedule: &[u8],
    cells: &mut [i32],
    w: &mut [u32],
    view: &mut [u32],
)
    requires { CanTry code.now setting cells.old classes.now schedule.now (length w.old) × (length view.old ≡ 2 * length cells.old) }
    ensures shows_after { ShowsAfter code.now setting cells.old classes.now schedule.now (length w.old) view.new }
    ensures w_after { w.new ≡ replicate (length w.old) 0 }
{
    let mut workers = trial::begin(setting, classes, cells, w);
    trial::follow(code, setting, schedule, cells, w, &mut workers);
    show(setting.processors, cells, w, view);
    tables::clear(w);
}

// The same over a copy of the cells. Free: `own`, which has it.
pub fn show_copied(
    code: &[u32],
    setting: Setting,
    classes: &[Class],
    schedule: &[u8],
    cells: &[i32],
    own: &mut [i32],
    w: &mut [u32],
    view: &mut [u32],
)
    requires { CanTry code.now setting cells.now classes.now schedule.now (length w.old) × (length view.old ≡ 2 * length cells.now)
        × (length cells.now ≤ length own.old) }
    ensures shows_after { ShowsAfter code.now setting cells.now classes.now schedule.now (length w.old) view.new }
    ensures w_after { w.new ≡ replicate (length w.old) 0 }
{
    let own = &mut own[..cells.len()];
    own.copy_from_slice(cells);
    show_after(code, setting, classes, schedule, own, w, view);
}
