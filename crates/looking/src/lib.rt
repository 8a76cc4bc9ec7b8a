// Look (RULES 9.4). It takes any text and whatever is lent, and refuses what it can't take; a refusal leaves all that is lent as it
// came. The cells are lent to be read only.
#![tactic(auto)]

ghost use Rattle.std.specs.Prelude.{◌≡◌, length};
ghost use Rattle.syntax.specs.Text.{read as read_text};
ghost use Rattle.answers.specs.Answers.{look_of, view_shown, look_workspace};

use answers::Refusal;
use preparing::prepare_run;
use rules::Class;

// The shared value and the marks of each cell after the schedule's bytes.
pub fn look(
    text: &[u8],
    cells: &[i32],
    workspace: &mut [u32],
    schedule: &[u8],
    view: &mut [u32],
) -> Result<(), Refusal>
    ensures value { result ≡ look_of (read_text text.now) cells.now (length workspace.old) schedule.now (length view.old) }
    ensures view_after { view.new
        ≡ view_shown (read_text text.now) cells.now (length workspace.old) schedule.now view.old }
    ensures workspace_after { workspace.new
        ≡ look_workspace (read_text text.now) cells.now workspace.old schedule.now (length view.old) }
{
    let mut code = [0; code::WORDS];
    let mut classes = [Class::Shared; 4096];
    let r = prepare_run(
        text,
        cells.len(),
        workspace.len(),
        schedule,
        &mut code,
        &mut classes,
    )?;
    if view.len() != 2 * cells.len() {
        return Err(Refusal::of_lent(8));
    }
    let mut own = [0; 4096];
    view::show_copied(
        &code[..r.end],
        r.setting,
        &classes,
        schedule,
        cells,
        &mut own,
        workspace,
        view,
    );
    Ok(())
}
