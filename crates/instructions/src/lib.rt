// The instructions that jump, and the instruction of two words (crates/code).
#![tactic(auto)]

ghost use Rattle.std.specs.Prelude.{◌≡◌, List, ◌^◌, ◌/◌, ◌%◌, ◌≤◌, ◌<◌, length, ℤ};
ghost use Rattle.code.specs.Instr.{Instr, decode, relation_of};
ghost use Rattle.operands.specs.Pending.{Holding};
ghost use Rattle.operands.specs.Performing.{does, Performs};

use operands::{Move, Performed, go_on, stop};

// ---- jumps

// A jump over so many instructions.
pub fn jump(place: usize, depth: usize, arg: u32) -> Performed
    requires { (depth ≤ 32) × (place < 2 ^ 63) }
    ensures { (a : List ℤ) (v : ℤ) → length a ≡ 32 → Performs (does (Instr.jump (arg / 8)) place depth a v) place a result }
{
    go_on(place + (arg / code::DISTANCE) as usize, depth)
}

// A jump unless a relation holds between two values.
pub fn jump_unless(place: usize, depth: usize, pending: &[i32; 32], arg: u32) -> Performed
    requires { (Holding pending.now depth) × (place < 2 ^ 63) }
    ensures { (v : ℤ) → Performs (does (Instr.jump_unless (relation_of (arg % 8)) (arg / 8)) place depth pending.now v) place pending.now result }
{
    if depth < 2 {
        return stop(place, depth, Move::End);
    }
    let d = depth - 2;
    if int32::holds(
        code::relation_of(arg % code::DISTANCE),
        pending[d],
        pending[d + 1],
    ) {
        return go_on(place, d);
    }
    jump(place, d, arg)
}

// ---- by its number

// The instruction of two words.
pub fn perform(
    word: u32,
    arg: u32,
    place: usize,
    depth: usize,
    pending: &mut [i32; 32],
    v: i32,
) -> Performed
    requires { (Holding pending.old depth) × (place < 2 ^ 63) }
    ensures { Performs (does (decode word arg) place depth pending.old v) place pending.new result }
{
    let line = word / code::LINE;
    match word % code::LINE {
        code::PUSH => operands::push(place, depth, pending, int32::of_word(arg)),
        code::PUSH_V => operands::push(place, depth, pending, v),
        code::LOAD => accesses::load(place, depth, arg),
        code::LOAD_AT => accesses::load_at(place, depth, pending, arg, line),
        code::ADD => operands::compute(place, depth, pending, int32::add),
        code::SUBTRACT => operands::compute(place, depth, pending, int32::subtract),
        code::MULTIPLY => operands::compute(place, depth, pending, int32::multiply),
        code::NEGATE => operands::negate(place, depth, pending),
        code::DIVIDE => operands::divide(place, depth, pending, int32::divide, line),
        code::ROUND => operands::divide(place, depth, pending, int32::round_divide, line),
        code::STORE => accesses::change_cell(
            place,
            depth,
            pending,
            arg,
            |cell, value| Move::Write { cell, value },
        ),
        code::STORE_AT => accesses::store_at(place, depth, pending, arg, line),
        code::CHECK => accesses::check(place, depth, pending, arg, line),
        code::UPDATE => accesses::change_cell(
            place,
            depth,
            pending,
            arg,
            |cell, value| Move::Update { cell, value },
        ),
        code::UPDATE_AT => accesses::update_at(place, depth, pending, arg, line),
        code::JUMP_UNLESS => jump_unless(place, depth, pending, arg),
        code::JUMP => jump(place, depth, arg),
        code::MAXIMUM => operands::compute(place, depth, pending, int32::maximum),
        code::FLATTEN => accesses::flatten(place, depth, pending, arg, line),
        _ => stop(place, depth, Move::End),
    }
}
