// The trial of a loop (RULES 4): each processor's record, the steps of a schedule and the run to the end, both by the step of crates/stepping; the
// shadow tables in the workspace are kept on the way. What records, cells and words stand for is in specs/Standing.antt, the step rule in crates/rules.
#![tactic(auto)]

ghost use Rattle.std.specs.Prelude.{◌≡◌, ◌<◌, ◌≤◌, length};
ghost use Rattle.trial.specs.Running.{role_of, waiting, HasTurn, TakesTurn, HasRole, Carries, CanFollow, Follows, RunsOut, Over, AllOver, CanRun, RunsOn};
ghost use Rattle.trial.specs.Start.{Entry, Enters, Crew, CanBegin, Begins, CanTry, Tries};
ghost use Rattle.rules.specs.Loop.{Loop, Partition};

use rules::{Class, Grouping, Iteration, Processor};
use stepping::{Extent, Manner, Point, Role};

// A processor's record: its pending values, and where it is.
#[derive(Clone, Copy, Debug, PartialEq, Eq)]
pub struct Worker {
    pub pending: [i32; 32],
    pub point: Point,
}

// What is fixed in a run: how many processors there are, how their iterations are grouped, how many iterations there are, and the first value of the loop's
// variable.
#[derive(Clone, Copy, Debug, PartialEq, Eq)]
pub struct Setting {
    pub processors: u32,
    pub grouping: Grouping,
    pub iterations: u32,
    pub from: i32,
}

// ---- steps

// What is fixed for a processor of a trial.
fn role_of(setting: Setting, p: Processor) -> Role
    requires { (setting.iterations ≤ 65535) × (setting.processors ≤ 8) × (p.0 < setting.processors) }
    ensures { result ≡ role_of setting p.0 }
{
    let end = rules::block_start(setting.iterations, setting.processors, Processor(p.0 + 1));
    Role {
        manner: Manner::ByClass,
        grouping: setting.grouping,
        processors: setting.processors,
        number: p,
        from: setting.from,
        end,
    }
}

// The steps of a processor by its record, as far as it is to go.
fn carry(
    worker: &mut Worker,
    code: &[u32],
    role: Role,
    cells: &mut [i32],
    w: &mut [u32],
    extent: Extent,
)
    requires { HasRole code.now role cells.old w.old worker.old }
    ensures { Carries extent code.now role cells.old w.old worker.old cells.new w.new worker.new }
{
    let r = stepping::carry_on(
        code,
        role,
        cells,
        w,
        &mut worker.pending,
        worker.point,
        extent,
    );
    worker.point = r.point;
}

// One step of a processor by its record. A finished or stopped one does nothing.
pub fn step(
    worker: Worker,
    code: &[u32],
    setting: Setting,
    p: Processor,
    cells: &mut [i32],
    w: &mut [u32],
) -> Worker
    requires { HasTurn code.now setting cells.old w.old p.0 worker }
    ensures { TakesTurn code.now setting cells.old w.old p.0 worker cells.new w.new result }
{
    let mut after = worker;
    carry(
        &mut after,
        code,
        role_of(setting, p),
        cells,
        w,
        Extent::Once,
    );
    after
}

// The same step on the record of the one processor that it names, which is lent; no other record is.
pub fn step_record(
    worker: &mut Worker,
    code: &[u32],
    setting: Setting,
    p: Processor,
    cells: &mut [i32],
    w: &mut [u32],
)
    requires { HasTurn code.now setting cells.old w.old p.0 worker.old }
    ensures { TakesTurn code.now setting cells.old w.old p.0 worker.old cells.new w.new worker.new }
{
    *worker = step(*worker, code, setting, p, cells, w);
}

// The steps of a schedule, in order.
pub fn follow(
    code: &[u32],
    setting: Setting,
    schedule: &[u8],
    cells: &mut [i32],
    w: &mut [u32],
    workers: &mut [Worker; 8],
)
    requires { CanFollow code.now setting cells.old w.old workers.old schedule.now }
    ensures { Follows code.now setting cells.old w.old workers.old schedule.now cells.new w.new workers.new }
{
    for &b in schedule {
        let p = Processor(u32::from(b));
        step_record(&mut workers[p.0 as usize], code, setting, p, cells, w);
    }
}

// A processor to its end.
pub fn run_out(
    worker: &mut Worker,
    code: &[u32],
    setting: Setting,
    p: Processor,
    cells: &mut [i32],
    w: &mut [u32],
)
    requires { HasTurn code.now setting cells.old w.old p.0 worker.old }
    ensures runs_out { RunsOut code.now setting cells.old w.old p.0 worker.old cells.new w.new worker.new }
    ensures over { Over setting p.0 worker.new }
{
    carry(
        worker,
        code,
        role_of(setting, p),
        cells,
        w,
        Extent::ToTheEnd,
    );
}

// All processors to their end, in number order.
pub fn run_on(
    code: &[u32],
    setting: Setting,
    cells: &mut [i32],
    w: &mut [u32],
    workers: &mut [Worker; 8],
)
    requires { CanRun code.now setting cells.old w.old workers.old }
    ensures runs_on { RunsOn code.now setting cells.old w.old workers.old cells.new w.new workers.new }
    ensures all_over { AllOver setting workers.new }
{
    for q in 0..setting.processors {
        run_out(
            &mut workers[q as usize],
            code,
            setting,
            Processor(q),
            cells,
            w,
        );
    }
}

// ---- the start, and the whole

// The tables of no access, by the entry value and the class of each cell.
pub fn enter(processors: u32, cells: &[i32], classes: &[Class], w: &mut [u32])
    requires { (l : Loop) × (δ : Partition) × Entry processors l δ cells.now classes.now (length w.old) }
    ensures { Enters processors cells.now classes.now (length w.old) w.new }
{
    tables::clear(w);
    for (c, &x) in cells.iter().enumerate() {
        let row = tables::row_of(c, processors);
        tables::begin_row(w, row, processors, x, classes[c]);
    }
}

// A record at the start of an iteration.
pub fn record_at(i: Iteration) -> Worker
    ensures { result ≡ waiting i.0 }
{
    Worker {
        pending: [0; 32],
        point: stepping::unstopped_at(0, 0, i),
    }
}

// Each processor at the start of its block.
fn crew(setting: Setting) -> [Worker; 8]
    requires { (setting.iterations ≤ 65535) × ((0 < setting.processors) × (setting.processors ≤ 8)) }
    ensures { Crew setting result }
{
    let mut workers = [record_at(Iteration(0)); 8];
    for q in 0..setting.processors {
        let i = rules::block_start(setting.iterations, setting.processors, Processor(q));
        workers[q as usize] = record_at(i);
    }
    workers
}

// The start of a run: the workspace made ready and the processors' records. The cells stay as they are.
pub fn begin(setting: Setting, classes: &[Class], cells: &[i32], w: &mut [u32]) -> [Worker; 8]
    requires { CanBegin setting cells.now classes.now (length w.old) }
    ensures { Begins setting cells.now classes.now (length w.old) w.new result }
{
    enter(setting.processors, cells, classes, w);
    crew(setting)
}

// The trial of a loop: the schedule's steps, and then all processors to their end. The answer is the processors' records.
pub fn trial(
    code: &[u32],
    setting: Setting,
    classes: &[Class],
    schedule: &[u8],
    cells: &mut [i32],
    w: &mut [u32],
) -> [Worker; 8]
    requires { CanTry code.now setting cells.old classes.now schedule.now (length w.old) }
    ensures tries { Tries code.now setting cells.old classes.now schedule.now (length w.old) cells.new w.new result }
    ensures all_over { AllOver setting result }
{
    let mut workers = begin(setting, classes, cells, w);
    follow(code, setting, schedule, cells, w, &mut workers);
    run_on(code, setting, cells, w, &mut workers);
    workers
}
