// The shadow tables in words of a lent workspace: crates/shadow says what they are, specs/Layout.antt where each word stands. Accesses are noted by
// crates/noting, and crates/findings reads off what they came to.
#![tactic(auto)]

ghost use Rattle.std.specs.Prelude.{eqb, ◌≡◌, max, ◌+◌, ◌*◌, ◌≤◌, ◌<◌, length, replicate};
ghost use Rattle.tables.specs.Layout.{row_at, own_at, class_word, class_held};
ghost use Rattle.tables.specs.Entered.{entered, started, begun};

use rules::{Class, Processor};

// Both write counts stand before the rows.
pub const PAIRS: usize = 0;

pub const CELLS: usize = 1;

pub const COUNTS: usize = 2;

// A row has the entry value, and after it how many groups met the cell, how many wrote it, flags, and the stamps of the lowest group that wrote it and of
// the highest that read it exposed; then the processors' own parts. A stamp is 1 + a number, 0 for none.
pub const MET: usize = 1;

pub const WRITERS: usize = 2;

pub const FLAGS: usize = 3;

pub const LOWEST: usize = 4;

pub const HIGHEST: usize = 5;

pub const ROW: usize = 6;

// An own part has the private value, and after it the stamps of the group that wrote last and of the one that read exposed last, the partial result of its
// updates, and the stamp of the iteration that wrote or updated last.
pub const WROTE: usize = 1;

pub const EXPOSED: usize = 2;

pub const PARTIAL: usize = 3;

pub const TOUCHED: usize = 4;

pub const OWN: usize = 5;

// The place of a cell's row.
pub fn row_of(cell: usize, processors: u32) -> usize
    requires { (cell ≤ 4096) × (processors ≤ 8) }
    ensures { result ≡ row_at processors cell }
{
    COUNTS + cell * (ROW + OWN * processors as usize)
}

// The place of a processor's own part in a row.
pub fn own_of(row: usize, p: Processor) -> usize
    requires { row < 4294967296 }
    ensures { result ≡ own_at row p.0 }
{
    row + ROW + OWN * p.0 as usize
}

// The cell's class.
pub fn class_of(w: &[u32], row: usize) -> Class
    requires { row + 6 ≤ length w.now }
    ensures { result ≡ class_held w.now row }
{
    Class::of_number(w[row + FLAGS] / 4)
}

// Whether the cell is shared: one comparison, for each access asks it.
pub fn is_shared(w: &[u32], row: usize) -> bool
    requires { row + 6 ≤ length w.now }
    ensures { result ≡ eqb (class_word w.now row) 0 }
{
    w[row + FLAGS] / 4 == 0
}

// A row's entry value and class.
#[tactic(auto, unfolding(crate::specs::Entered::entered))]
fn set_entry(w: &mut [u32], row: usize, value: i32, class: Class)
    requires { row + 6 ≤ length w.old }
    ensures { w.new ≡ entered w.old row value class }
{
    w[row] = int32::to_word(value);
    w[row + MET] = 0;
    w[row + WRITERS] = 0;
    w[row + FLAGS] = 4 * class.number();
    w[row + LOWEST] = 0;
    w[row + HIGHEST] = 0;
}

// The partial results of a row, at the number with which they begin.
#[tactic(auto, unfolding(crate::specs::Entered::started))]
fn begin_partials(w: &mut [u32], row: usize, processors: u32, start: i32)
    requires { (row < 4294967296) × (row + 6 + 5 * processors ≤ length w.old) }
    ensures { w.new ≡ started w.old row start processors }
{
    let word = int32::to_word(start);
    for q in 0..processors {
        w[own_of(row, Processor(q)) + PARTIAL] = word;
    }
}

// A row before any access, of a cell with a value at entry and a class.
#[tactic(auto, unfolding(crate::specs::Entered::begun))]
pub fn begin_row(w: &mut [u32], row: usize, processors: u32, value: i32, class: Class)
    requires { (row < 4294967296) × (row + 6 + 5 * processors ≤ length w.old) }
    ensures { w.new ≡ begun w.old row processors value class }
{
    set_entry(w, row, value, class);
    let start = rules::neutral(class.operator());
    begin_partials(w, row, processors, start);
}

// All words are 0.
pub fn clear(w: &mut [u32])
    ensures { w.new ≡ replicate (length w.old) 0 }
{
    w.fill(0);
}
