// The stepping machine: it runs the code of a loop body, two words for each instruction (crates/code), from a place up to and including the
// next cell access, or to the end of the iteration or a fault (RULES 4.3). The values pending stand in an array that is lent.
#![tactic(auto)]

ghost use Rattle.operands.specs.Pending.{Holding};
ghost use Rattle.machine.specs.Machine.{Advances};

use operands::Move;

// Where a processor then stands, and how many values are pending.
#[derive(Clone, Copy, Debug, PartialEq, Eq)]
pub struct Advanced {
    pub place: usize,
    pub depth: usize,
    pub done: Move,
}

// Up to and including the next cell access, or to the end of the iteration or a fault; v is the value of the loop's variable.
// Free: the values from the new depth on; place and depth themselves, where others come to the same rest of the iteration.
pub fn advance(
    code: &[u32],
    place: usize,
    depth: usize,
    pending: &mut [i32; 32],
    v: i32,
) -> Advanced
    requires { Holding pending.old depth }
    ensures { Advances code.now place depth pending.old v pending.new result }
{
    let count = code.len() / 2;
    let mut at = place;
    let mut d = depth;
    while at < count {
        let r = instructions::perform(code[2 * at], code[2 * at + 1], at + 1, d, pending, v);
        at = r.place;
        d = r.depth;
        if let Some(done) = r.next {
            return Advanced {
                place: at,
                depth: d,
                done,
            };
        }
    }
    Advanced {
        place: at,
        depth: d,
        done: Move::End,
    }
}
