// The values that are pending while the code of a loop body is run, and the instructions that work on them alone. A function is given the place after
// its instruction, the pending values and how many they are. An instruction that finds too few values, or no room for one more, ends the iteration.
#![tactic(auto)]

ghost use Rattle.std.specs.Prelude.{◌≡◌, ◌∷◌, ◌<◌, length, ℤ};
ghost use Rattle.int32.specs.Integers.{divided};
ghost use Rattle.syntax.specs.Meaning.{divides};
ghost use Rattle.code.specs.Instr.{Instr, room, with2};
ghost use Rattle.operands.specs.Pending.{pendings, Holding, Pushed};
ghost use Rattle.operands.specs.Performing.{onward, stopped, does, Performs, with_quotient, Is};

// What a processor does where it stops. A read's value is then pushed.
#[derive(Clone, Copy, Debug, PartialEq, Eq)]
pub enum Move {
    Read { cell: usize },
    Write { cell: usize, value: i32 },
    Update { cell: usize, value: i32 },
    Fault { number: u32, line: u32 },
    End,
}

// Where the machine stands after an instruction, how many values are pending, and the move that it makes, or none where the next instruction comes.
// Place, depth and the lent array stay three parameters: a struct that holds the array needs, at each function, the promise that it still holds the same
// reference, as many clauses as `Holding` stands in now (the new form is no plainer).
#[derive(Clone, Copy, Debug, PartialEq, Eq)]
pub struct Performed {
    pub place: usize,
    pub depth: usize,
    pub next: Option<Move>,
}

// ---- what comes then

// The next instruction comes.
pub fn go_on(place: usize, depth: usize) -> Performed
    ensures { result ≡ onward place depth }
{
    Performed {
        place,
        depth,
        next: None,
    }
}

// A move.
pub fn stop(place: usize, depth: usize, done: Move) -> Performed
    ensures { result ≡ stopped place depth done }
{
    Performed {
        place,
        depth,
        next: Some(done),
    }
}

// The fault of a number and a line.
pub fn fault(place: usize, depth: usize, number: u32, line: u32) -> Performed
    ensures { result ≡ stopped place depth (Move.Fault number line) }
{
    stop(place, depth, Move::Fault { number, line })
}

// ---- values

// One value more. The answer is the new depth.
pub fn put(pending: &mut [i32; 32], depth: usize, x: i32) -> usize
    requires { (length pending.old ≡ 32) × (depth < 32) }
    ensures { Pushed pending.old depth x pending.new result }
{
    pending[depth] = x;
    depth + 1
}

// A literal or the loop's variable.
pub fn push(place: usize, depth: usize, pending: &mut [i32; 32], x: i32) -> Performed
    requires { Holding pending.old depth }
    ensures { Performs (λ go. room (pendings pending.old depth) (go place (x ∷ pendings pending.old depth))) place pending.new result }
{
    if 32 <= depth {
        return stop(place, depth, Move::End);
    }
    go_on(place, put(pending, depth, x))
}

// Two values replaced by what an operation makes of them.
pub fn compute<F: Fn(i32, i32) -> i32>(
    place: usize,
    depth: usize,
    pending: &mut [i32; 32],
    operation: F,
) -> Performed
    requires holding { Holding pending.old depth }
    requires callable { F.IsAlwaysCallable operation }
    ensures { (f : ℤ → ℤ → ℤ) → Is (F.post operation) f → Performs (λ go. with2 (pendings pending.old depth) (λ x y t. go place (f x y ∷ t))) place pending.new result }
{
    if depth < 2 {
        return stop(place, depth, Move::End);
    }
    let d = depth - 2;
    let z = operation(pending[d], pending[d + 1]);
    go_on(place, put(pending, d, z))
}

// The negation of a value.
pub fn negate(place: usize, depth: usize, pending: &mut [i32; 32]) -> Performed
    requires { Holding pending.old depth }
    ensures { (v : ℤ) → Performs (does Instr.negate place depth pending.old v) place pending.new result }
{
    if depth < 1 {
        return stop(place, depth, Move::End);
    }
    let d = depth - 1;
    let z = int32::negate(pending[d]);
    go_on(place, put(pending, d, z))
}

// A quotient in place of the two values from d on, or the fault of a zero divisor.
pub fn settle(
    place: usize,
    d: usize,
    pending: &mut [i32; 32],
    quotient: Option<i32>,
    line: u32,
) -> Performed
    requires { (length pending.old ≡ 32) × (d < 32) }
    ensures { Performs (λ go. with_quotient quotient line (λ z. go place (z ∷ pendings pending.old d))) place pending.new result }
{
    match quotient {
        Some(z) => go_on(place, put(pending, d, z)),
        None => fault(place, d, 10, line),
    }
}

// Two values replaced by their quotient, as a division makes it.
pub fn divide<F: Fn(i32, i32) -> Option<i32>>(
    place: usize,
    depth: usize,
    pending: &mut [i32; 32],
    division: F,
    line: u32,
) -> Performed
    requires holding { Holding pending.old depth }
    requires callable { F.IsAlwaysCallable division }
    ensures { (f : ℤ → ℤ → ℤ) → Is (F.post division) (divided f) → Performs (λ go. with2 (pendings pending.old depth) (λ x y t. divides line f x y (λ z. go place (z ∷ t)))) place pending.new result }
{
    if depth < 2 {
        return stop(place, depth, Move::End);
    }
    let d = depth - 2;
    let quotient = division(pending[d], pending[d + 1]);
    settle(place, d, pending, quotient, line)
}
