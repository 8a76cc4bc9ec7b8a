// The services for callers in C and Fortran (include/lrpd.h, fortran/lrpd.f90): each calls the function of its name in `exports`. A slice is two
// arguments of C, a pointer and a length.
#![tactic(auto)]

ghost use Rattle.std.specs.Prelude.{◌≡◌, length};
ghost use Rattle.syntax.specs.Text.{read};
ghost use Rattle.answers.specs.Answers.{check_of, bounds_of, name_of, load_of, cells_loaded, look_of, view_shown, look_workspace, run_of, cells_run, run_workspace, plan_of, list_planned, plan_workspace, print_of, bytes_printed, arrange_of, cells_by_rows, cells_by_columns};
ghost use Rattle.exports.specs.Numbers.{check_numbers, bounds_numbers, name_numbers, done_numbers, run_numbers, plan_numbers, print_numbers};

use exports::{
    BoundsAnswer, CheckAnswer, DoneAnswer, NameAnswer, PlanAnswer, PrintAnswer, RunAnswer,
};

#[unsafe(no_mangle)]
pub extern "C" fn lrpd_check(text: &[u8]) -> CheckAnswer
    ensures { result ≡ check_numbers (check_of (read text.now)) }
{
    exports::lrpd_check(text)
}

#[unsafe(no_mangle)]
pub extern "C" fn lrpd_bounds(text: &[u8]) -> BoundsAnswer
    ensures { result ≡ bounds_numbers (bounds_of (read text.now)) }
{
    exports::lrpd_bounds(text)
}

#[unsafe(no_mangle)]
pub extern "C" fn lrpd_name(text: &[u8], name: &[u8]) -> NameAnswer
    ensures { result ≡ name_numbers (name_of (read text.now) name.now) }
{
    exports::lrpd_name(text, name)
}

#[unsafe(no_mangle)]
pub extern "C" fn lrpd_load(text: &[u8], cells: &mut [i32]) -> DoneAnswer
    ensures value { result ≡ done_numbers (load_of (read text.now) (length cells.old)) }
    ensures cells_after { cells.new ≡ cells_loaded (read text.now) cells.old }
{
    exports::lrpd_load(text, cells)
}

#[unsafe(no_mangle)]
pub extern "C" fn lrpd_look(
    text: &[u8],
    cells: &[i32],
    workspace: &mut [u32],
    schedule: &[u8],
    view: &mut [u32],
) -> DoneAnswer
    ensures value { result ≡ done_numbers (look_of (read text.now) cells.now (length workspace.old) schedule.now
        (length view.old)) }
    ensures view_after { view.new ≡ view_shown (read text.now) cells.now (length workspace.old) schedule.now view.old }
    ensures workspace_after { workspace.new
        ≡ look_workspace (read text.now) cells.now workspace.old schedule.now (length view.old) }
{
    exports::lrpd_look(text, cells, workspace, schedule, view)
}

#[unsafe(no_mangle)]
pub extern "C" fn lrpd_run(
    text: &[u8],
    cells: &mut [i32],
    workspace: &mut [u32],
    schedule: &[u8],
) -> RunAnswer
    ensures value { result ≡ run_numbers (run_of (read text.now) cells.old (length workspace.old) schedule.now) }
    ensures cells_after { cells.new ≡ cells_run (read text.now) cells.old (length workspace.old) schedule.now }
    ensures workspace_after { workspace.new ≡ run_workspace (read text.now) cells.old workspace.old schedule.now }
{
    exports::lrpd_run(text, cells, workspace, schedule)
}

#[unsafe(no_mangle)]
pub extern "C" fn lrpd_plan(
    text: &[u8],
    cells: &[i32],
    workspace: &mut [u32],
    list: &mut [u16],
) -> PlanAnswer
    ensures value { result ≡ plan_numbers (plan_of (read text.now) cells.now (length workspace.old) (length list.old)) }
    ensures list_after { list.new ≡ list_planned (read text.now) cells.now (length workspace.old) list.old }
    ensures workspace_after { workspace.new
        ≡ plan_workspace (read text.now) cells.now workspace.old (length list.old) }
{
    exports::lrpd_plan(text, cells, workspace, list)
}

#[unsafe(no_mangle)]
pub extern "C" fn lrpd_print(text: &[u8], bytes: &mut [u8]) -> PrintAnswer
    ensures value { result ≡ print_numbers (print_of (read text.now) text.now (length bytes.old)) }
    ensures bytes_after { bytes.new ≡ bytes_printed (read text.now) text.now bytes.old }
{
    exports::lrpd_print(text, bytes)
}

#[unsafe(no_mangle)]
pub extern "C" fn lrpd_rows(text: &[u8], cells: &mut [i32], name: &[u8]) -> DoneAnswer
    ensures value { result ≡ done_numbers (arrange_of (read text.now) name.now (length cells.old)) }
    ensures cells_after { cells.new ≡ cells_by_rows (read text.now) name.now cells.old }
{
    exports::lrpd_rows(text, cells, name)
}

#[unsafe(no_mangle)]
pub extern "C" fn lrpd_columns(text: &[u8], cells: &mut [i32], name: &[u8]) -> DoneAnswer
    ensures value { result ≡ done_numbers (arrange_of (read text.now) name.now (length cells.old)) }
    ensures cells_after { cells.new ≡ cells_by_columns (read text.now) name.now cells.old }
{
    exports::lrpd_columns(text, cells, name)
}
