// The services for callers in C and Fortran (include/lrpd.h, fortran/lrpd.f90): an answer is a struct of the numbers of RULES 9 and 10. A slice is two
// arguments of C, a pointer and a length.
#![tactic(auto)]

ghost use Rattle.std.specs.Prelude.{◌≡◌, length};
ghost use Rattle.syntax.specs.Text.{read};
ghost use Rattle.answers.specs.Answers.{check_of, bounds_of, name_of, load_of, cells_loaded, look_of, view_shown, look_workspace, run_of, cells_run, run_workspace, plan_of, list_planned, plan_workspace, print_of, bytes_printed, arrange_of, cells_by_rows, cells_by_columns};
ghost use Rattle.exports.specs.Numbers.{check_numbers, bounds_numbers, name_numbers, by_blocks, done_numbers, run_numbers, plan_numbers, print_numbers};

use answers::{Bounds, Counts, Failure, Located, Ran, Refusal, Sizes};
use rules::Grouping;

// Check's answer: a refusal's number (0: none), line and v; N and P (0 after a refusal).
#[repr(C)]
#[derive(Clone, Copy, Debug, PartialEq, Eq)]
pub struct CheckAnswer {
    pub number: u32,
    pub line: u32,
    pub v: i32,
    pub cells: u32,
    pub processors: u32,
}

impl From<Result<Sizes, Refusal>> for CheckAnswer {
    ghost from_gives = { λ r a. a ≡ check_numbers r };

    fn from(r: Result<Sizes, Refusal>) -> CheckAnswer {
        match r {
            Ok(Sizes { cells, processors }) => CheckAnswer {
                number: 0,
                line: 0,
                v: 0,
                cells,
                processors,
            },
            Err(Refusal { number, line }) => CheckAnswer {
                number,
                line,
                v: 0,
                cells: 0,
                processors: 0,
            },
        }
    }
}

// Bounds' answer: a refusal's number (0: none), line and v; m, the number of iterations, and 1 if the test is by blocks.
#[repr(C)]
#[derive(Clone, Copy, Debug, PartialEq, Eq)]
pub struct BoundsAnswer {
    pub number: u32,
    pub line: u32,
    pub v: i32,
    pub from: i32,
    pub iterations: u32,
    pub blocks: u32,
}

impl From<Result<Bounds, Refusal>> for BoundsAnswer {
    ghost from_gives = { λ r a. a ≡ bounds_numbers r };

    fn from(r: Result<Bounds, Refusal>) -> BoundsAnswer {
        match r {
            Ok(b) => BoundsAnswer {
                number: 0,
                line: 0,
                v: 0,
                from: b.from,
                iterations: b.iterations,
                blocks: blocks_of(b.grouping),
            },
            Err(Refusal { number, line }) => BoundsAnswer {
                number,
                line,
                v: 0,
                from: 0,
                iterations: 0,
                blocks: 0,
            },
        }
    }
}

// Whether the test is by blocks.
fn blocks_of(grouping: Grouping) -> u32
    ensures { result ≡ by_blocks grouping }
{
    match grouping {
        Grouping::Iterations => 0,
        Grouping::Blocks => 1,
    }
}

// Name's answer: a refusal's number (0: none), line and v; the first cell, how many, how many subscripts the name takes, its class, and its
// rows and columns (0 where it has none; the rows of an array are its length).
#[repr(C)]
#[derive(Clone, Copy, Debug, PartialEq, Eq)]
pub struct NameAnswer {
    pub number: u32,
    pub line: u32,
    pub v: i32,
    pub first: u32,
    pub cells: u32,
    pub subscripts: u32,
    pub clause: u32,
    pub rows: u32,
    pub columns: u32,
}

impl From<Result<Located, Refusal>> for NameAnswer {
    ghost from_gives = { λ r a. a ≡ name_numbers r };

    fn from(r: Result<Located, Refusal>) -> NameAnswer {
        match r {
            Ok(l) => NameAnswer {
                number: 0,
                line: 0,
                v: 0,
                first: l.first,
                cells: l.count,
                subscripts: l.subscripts,
                clause: l.class.number(),
                rows: l.rows,
                columns: l.columns,
            },
            Err(Refusal { number, line }) => NameAnswer {
                number,
                line,
                v: 0,
                first: 0,
                cells: 0,
                subscripts: 0,
                clause: 0,
                rows: 0,
                columns: 0,
            },
        }
    }
}

// The answer of Load, Look, Rows and Columns: a refusal's number (0: done), line and v.
#[repr(C)]
#[derive(Clone, Copy, Debug, PartialEq, Eq)]
pub struct DoneAnswer {
    pub number: u32,
    pub line: u32,
    pub v: i32,
}

impl From<Result<(), Refusal>> for DoneAnswer {
    ghost from_gives = { λ r a. a ≡ done_numbers r };

    fn from(r: Result<(), Refusal>) -> DoneAnswer {
        match r {
            Ok(()) => DoneAnswer {
                number: 0,
                line: 0,
                v: 0,
            },
            Err(Refusal { number, line }) => DoneAnswer { number, line, v: 0 },
        }
    }
}

// Run's answer: a refusal's number (0: none), line and v; 1 if the loop was run again serially; both write counts.
#[repr(C)]
#[derive(Clone, Copy, Debug, PartialEq, Eq)]
pub struct RunAnswer {
    pub number: u32,
    pub line: u32,
    pub v: i32,
    pub rerun: u32,
    pub pairs: u32,
    pub cells: u32,
}

impl From<Result<Ran, Failure>> for RunAnswer {
    ghost from_gives = { λ r a. a ≡ run_numbers r };

    fn from(r: Result<Ran, Failure>) -> RunAnswer {
        match r {
            Ok(ran) => match ran {
                Ran::Passed(Counts { pairs, cells }) => RunAnswer {
                    number: 0,
                    line: 0,
                    v: 0,
                    rerun: 0,
                    pairs,
                    cells,
                },
                Ran::Rerun(Counts { pairs, cells }) => RunAnswer {
                    number: 0,
                    line: 0,
                    v: 0,
                    rerun: 1,
                    pairs,
                    cells,
                },
            },
            Err(failure) => match failure {
                Failure::Faulted(f) => RunAnswer {
                    number: f.number,
                    line: f.line,
                    v: f.v,
                    rerun: 0,
                    pairs: 0,
                    cells: 0,
                },
                Failure::Refused(Refusal { number, line }) => RunAnswer {
                    number,
                    line,
                    v: 0,
                    rerun: 0,
                    pairs: 0,
                    cells: 0,
                },
            },
        }
    }
}

// Plan's answer: a refusal's number (0: none), line and v; the number of stages.
#[repr(C)]
#[derive(Clone, Copy, Debug, PartialEq, Eq)]
pub struct PlanAnswer {
    pub number: u32,
    pub line: u32,
    pub v: i32,
    pub stages: u32,
}

impl From<Result<u32, Failure>> for PlanAnswer {
    ghost from_gives = { λ r a. a ≡ plan_numbers r };

    fn from(r: Result<u32, Failure>) -> PlanAnswer {
        match r {
            Ok(count) => PlanAnswer {
                number: 0,
                line: 0,
                v: 0,
                stages: count,
            },
            Err(failure) => match failure {
                Failure::Faulted(f) => PlanAnswer {
                    number: f.number,
                    line: f.line,
                    v: f.v,
                    stages: 0,
                },
                Failure::Refused(Refusal { number, line }) => PlanAnswer {
                    number,
                    line,
                    v: 0,
                    stages: 0,
                },
            },
        }
    }
}

// Print's answer: a refusal's number (0: none), line and v; the length of the printed form.
#[repr(C)]
#[derive(Clone, Copy, Debug, PartialEq, Eq)]
pub struct PrintAnswer {
    pub number: u32,
    pub line: u32,
    pub v: i32,
    pub length: u32,
}

impl From<Result<u32, Refusal>> for PrintAnswer {
    ghost from_gives = { λ r a. a ≡ print_numbers r };

    fn from(r: Result<u32, Refusal>) -> PrintAnswer {
        match r {
            Ok(n) => PrintAnswer {
                number: 0,
                line: 0,
                v: 0,
                length: n,
            },
            Err(Refusal { number, line }) => PrintAnswer {
                number,
                line,
                v: 0,
                length: 0,
            },
        }
    }
}

#[unsafe(no_mangle)]
pub extern "C" fn lrpd_check(text: &[u8]) -> CheckAnswer
    ensures { result ≡ check_numbers (check_of (read text.now)) }
{
    CheckAnswer::from(checking::check(text))
}

#[unsafe(no_mangle)]
pub extern "C" fn lrpd_bounds(text: &[u8]) -> BoundsAnswer
    ensures { result ≡ bounds_numbers (bounds_of (read text.now)) }
{
    BoundsAnswer::from(describing::bounds(text))
}

#[unsafe(no_mangle)]
pub extern "C" fn lrpd_name(text: &[u8], name: &[u8]) -> NameAnswer
    ensures { result ≡ name_numbers (name_of (read text.now) name.now) }
{
    NameAnswer::from(describing::name(text, name))
}

#[unsafe(no_mangle)]
pub extern "C" fn lrpd_load(text: &[u8], cells: &mut [i32]) -> DoneAnswer
    ensures value { result ≡ done_numbers (load_of (read text.now) (length cells.old)) }
    ensures cells_after { cells.new ≡ cells_loaded (read text.now) cells.old }
{
    DoneAnswer::from(checking::load(text, cells))
}

#[unsafe(no_mangle)]
pub extern "C" fn lrpd_look(
    text: &[u8],
    cells: &[i32],
    workspace: &mut [u32],
    schedule: &[u8],
    view: &mut [u32],
) -> DoneAnswer
    ensures value { result ≡ done_numbers (look_of (read text.now) cells.now (length workspace.old) schedule.now
        (length view.old)) }
    ensures view_after { view.new ≡ view_shown (read text.now) cells.now (length workspace.old) schedule.now view.old }
    ensures workspace_after { workspace.new
        ≡ look_workspace (read text.now) cells.now workspace.old schedule.now (length view.old) }
{
    DoneAnswer::from(looking::look(text, cells, workspace, schedule, view))
}

#[unsafe(no_mangle)]
pub extern "C" fn lrpd_run(
    text: &[u8],
    cells: &mut [i32],
    workspace: &mut [u32],
    schedule: &[u8],
) -> RunAnswer
    ensures value { result ≡ run_numbers (run_of (read text.now) cells.old (length workspace.old) schedule.now) }
    ensures cells_after { cells.new ≡ cells_run (read text.now) cells.old (length workspace.old) schedule.now }
    ensures workspace_after { workspace.new ≡ run_workspace (read text.now) cells.old workspace.old schedule.now }
{
    RunAnswer::from(running::run(text, cells, workspace, schedule))
}

#[unsafe(no_mangle)]
pub extern "C" fn lrpd_plan(
    text: &[u8],
    cells: &[i32],
    workspace: &mut [u32],
    list: &mut [u16],
) -> PlanAnswer
    ensures value { result ≡ plan_numbers (plan_of (read text.now) cells.now (length workspace.old) (length list.old)) }
    ensures list_after { list.new ≡ list_planned (read text.now) cells.now (length workspace.old) list.old }
    ensures workspace_after { workspace.new
        ≡ plan_workspace (read text.now) cells.now workspace.old (length list.old) }
{
    PlanAnswer::from(planning::plan(text, cells, workspace, list))
}

#[unsafe(no_mangle)]
pub extern "C" fn lrpd_print(text: &[u8], bytes: &mut [u8]) -> PrintAnswer
    ensures value { result ≡ print_numbers (print_of (read text.now) text.now (length bytes.old)) }
    ensures bytes_after { bytes.new ≡ bytes_printed (read text.now) text.now bytes.old }
{
    PrintAnswer::from(forming::print(text, bytes))
}

#[unsafe(no_mangle)]
pub extern "C" fn lrpd_rows(text: &[u8], cells: &mut [i32], name: &[u8]) -> DoneAnswer
    ensures value { result ≡ done_numbers (arrange_of (read text.now) name.now (length cells.old)) }
    ensures cells_after { cells.new ≡ cells_by_rows (read text.now) name.now cells.old }
{
    DoneAnswer::from(arranging::rows(text, cells, name))
}

#[unsafe(no_mangle)]
pub extern "C" fn lrpd_columns(text: &[u8], cells: &mut [i32], name: &[u8]) -> DoneAnswer
    ensures value { result ≡ done_numbers (arrange_of (read text.now) name.now (length cells.old)) }
    ensures cells_after { cells.new ≡ cells_by_columns (read text.now) name.now cells.old }
{
    DoneAnswer::from(arranging::columns(text, cells, name))
}
