// The instructions that access cells, and the place of a grid's two subscripts (crates/code).
#![tactic(auto)]

ghost use Rattle.std.specs.Prelude.{◌≡◌, List, ℕ, ◌/◌, ◌%◌, ◌≤◌, length, ℤ, FitsSigned};
ghost use Rattle.std.specs.Int.{w32};
ghost use Rattle.rules.specs.Loop.{Act};
ghost use Rattle.syntax.specs.Meaning.{located, in_grid};
ghost use Rattle.code.specs.Instr.{Instr, with1};
ghost use Rattle.operands.specs.Pending.{pendings, Holding};
ghost use Rattle.operands.specs.Performing.{left, does, Performs};
ghost use Rattle.operands.specs.declared.Move.{Move};
ghost use Rattle.accesses.specs.Cells.{at_cell};

use operands::{Move, Performed, fault, go_on, stop};

// The cell of subscript i in an array of so many cells from `first` on, if it is inside its bounds.
pub fn locate(first: u32, size: u32, i: i32) -> Option<usize>
    ensures { (line : ℕ) (k : ℕ → Act) → located line first size i k ≡ at_cell result line k }
{
    if i < 1 {
        return None;
    }
    let k = i as u32 - 1;
    if size <= k {
        return None;
    }
    Some(first as usize + k as usize)
}

// The place of two subscripts among the cells of a grid, the first subscript fastest, if both are inside their bounds.
pub fn locate_both(rows: u32, columns: u32, i: i32, j: i32) -> Option<usize>
    ensures { (line : ℕ) (k : ℕ → Act) → in_grid line 0 rows columns i j k ≡ at_cell result line k }
{
    let a = locate(0, rows, i)?;
    let b = locate(0, columns, j)?;
    Some(a + b * rows as usize)
}

// The move at the element of subscript i, as `access` makes it, or the fault of a subscript outside its bounds.
fn at_element<F: FnOnce(usize) -> Move>(arg: u32, line: u32, i: i32, access: F) -> Move
    requires { F.IsAlwaysCallable access }
    ensures { (m : ℕ → Move) → ((c : ℕ) (r : Move) → F.post access c r → r ≡ m c) → (on : List ℤ → Act) (s : List ℤ) → located line (arg % 4096) (arg / 4096) i (λ c. left (m c) on s) ≡ left result on s }
{
    match locate(arg % code::ELEMENT, arg / code::ELEMENT, i) {
        Some(cell) => access(cell),
        None => Move::Fault { number: 9, line },
    }
}

// The value of a cell.
pub fn load(place: usize, depth: usize, cell: u32) -> Performed
    requires { depth ≤ 32 }
    ensures { (a : List ℤ) (v : ℤ) → length a ≡ 32 → Performs (does (Instr.load cell) place depth a v) place a result }
{
    if 32 <= depth {
        return stop(place, depth, Move::End);
    }
    stop(
        place,
        depth,
        Move::Read {
            cell: cell as usize,
        },
    )
}

// The value of an element; the subscript is pending.
pub fn load_at(place: usize, depth: usize, pending: &[i32; 32], arg: u32, line: u32) -> Performed
    requires { Holding pending.now depth }
    ensures { (v : ℤ) → Performs (does (Instr.load_at (arg % 4096) (arg / 4096) line) place depth pending.now v) place pending.now result }
{
    if depth < 1 {
        return stop(place, depth, Move::End);
    }
    let d = depth - 1;
    let done = at_element(arg, line, pending[d], |cell| Move::Read { cell });
    stop(place, d, done)
}

// A cell is changed by a value, as `change` makes the move: it is written or updated.
pub fn change_cell<F: FnOnce(usize, i32) -> Move>(
    place: usize,
    depth: usize,
    pending: &[i32; 32],
    cell: u32,
    change: F,
) -> Performed
    requires holding { Holding pending.now depth }
    requires callable { F.IsAlwaysCallable change }
    ensures { (m : ℕ → ℤ → Move) → ((x : ℤ) → FitsSigned w32 x → (r : Move) → F.post change cell x r → r ≡ m cell x) → Performs (λ go. with1 (pendings pending.now depth) (λ x t. left (m cell x) (go place) t)) place pending.now result }
{
    if depth < 1 {
        return stop(place, depth, Move::End);
    }
    let d = depth - 1;
    let done = change(cell as usize, pending[d]);
    stop(place, d, done)
}

// A value is written to an element; the subscript is pending above the value.
pub fn store_at(place: usize, depth: usize, pending: &[i32; 32], arg: u32, line: u32) -> Performed
    requires { Holding pending.now depth }
    ensures { (v : ℤ) → Performs (does (Instr.store_at (arg % 4096) (arg / 4096) line) place depth pending.now v) place pending.now result }
{
    if depth < 2 {
        return stop(place, depth, Move::End);
    }
    let d = depth - 2;
    let value = pending[d];
    let done = at_element(
        arg,
        line,
        pending[d + 1],
        |cell| Move::Write { cell, value },
    );
    stop(place, d, done)
}

// An update's subscript is tested and stays.
pub fn check(place: usize, depth: usize, pending: &[i32; 32], arg: u32, line: u32) -> Performed
    requires { Holding pending.now depth }
    ensures { (v : ℤ) → Performs (does (Instr.check (arg % 4096) (arg / 4096) line) place depth pending.now v) place pending.now result }
{
    if depth < 1 {
        return stop(place, depth, Move::End);
    }
    let d = depth - 1;
    match locate(arg % code::ELEMENT, arg / code::ELEMENT, pending[d]) {
        Some(_) => go_on(place, depth),
        None => fault(place, d, 9, line),
    }
}

// A value is added to an element; the subscript is pending below the value.
pub fn update_at(place: usize, depth: usize, pending: &[i32; 32], arg: u32, line: u32) -> Performed
    requires { Holding pending.now depth }
    ensures { (v : ℤ) → Performs (does (Instr.update_at (arg % 4096) (arg / 4096) line) place depth pending.now v) place pending.now result }
{
    if depth < 2 {
        return stop(place, depth, Move::End);
    }
    let d = depth - 2;
    let value = pending[d + 1];
    let done = at_element(arg, line, pending[d], |cell| Move::Update { cell, value });
    stop(place, d, done)
}

// A grid's two subscripts are tested, and the place among its cells is left as one subscript.
pub fn flatten(
    place: usize,
    depth: usize,
    pending: &mut [i32; 32],
    arg: u32,
    line: u32,
) -> Performed
    requires { Holding pending.old depth }
    ensures { (v : ℤ) → Performs (does (Instr.flatten (arg % 8192) (arg / 8192 % 8192) line) place depth pending.old v) place pending.new result }
{
    if depth < 2 {
        return stop(place, depth, Move::End);
    }
    let d = depth - 2;
    let i = pending[d];
    let j = pending[d + 1];
    match locate_both(arg % code::EXTENT, arg / code::EXTENT % code::EXTENT, i, j) {
        Some(c) => go_on(place, operands::put(pending, d, (c + 1) as i32)),
        None => fault(place, d, 9, line),
    }
}
