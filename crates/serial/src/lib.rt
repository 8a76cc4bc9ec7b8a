// The serial run (RULES 6): by the step of crates/stepping, in place over the cells. Its accesses are noted for one processor, for the
// write counts.
#![tactic(auto)]

ghost use Rattle.std.specs.Prelude.{◌≡◌, length};
ghost use Rattle.serial.specs.Serving.{alone, CanSerial, RunsSerially};

use rules::{Class, Grouping, Iteration, Processor};
use stepping::{Extent, Manner, Point, Role};
use trial::Setting;

// What is fixed for the one processor of the serial run.
pub fn only_role(setting: Setting) -> Role
    ensures { result ≡ alone setting.from setting.iterations }
{
    Role {
        manner: Manner::InPlace,
        grouping: Grouping::Iterations,
        processors: 1,
        number: Processor(0),
        from: setting.from,
        end: Iteration(setting.iterations),
    }
}

// The serial run. The answer is the point that it ends at: the fault that stopped it, if one did, and its iteration.
// Free: how many values are pending there, and its place in the code; without a fault its iteration too.
pub fn run(
    code: &[u32],
    setting: Setting,
    classes: &[Class],
    cells: &mut [i32],
    w: &mut [u32],
) -> Point
    requires { CanSerial code.now setting cells.old classes.now (length w.old) }
    ensures { RunsSerially code.now setting cells.old classes.now (length w.old) cells.new w.new result }
{
    trial::enter(1, cells, classes, w);
    let mut pending = [0; 32];
    let role = only_role(setting);
    let start = stepping::unstopped_at(0, 0, Iteration(0));
    let r = stepping::carry_on(code, role, cells, w, &mut pending, start, Extent::ToTheEnd);
    r.point
}
