// What is read off the shadow tables (crates/tables) after a run, or on the way: marks, obstacles, the merged value of a cell, its value at entry, and both
// write counts. What it means is in proofs/Logged.antt.
#![tactic(auto)]

ghost use Rattle.std.specs.Prelude.{◌≡◌, ◌+◌, ◌*◌, ◌≤◌, ◌<◌, length};
ghost use Rattle.int32.specs.Integers.{value};
ghost use Rattle.rules.specs.Choose.{below};
ghost use Rattle.rules.specs.Operation.{operation};
ghost use Rattle.tables.specs.Layout.{pairs_word, cells_word, entry_word};
ghost use Rattle.findings.specs.Findings.{marks_read, marks_of, contested, stale, late, mixed, blocked, blocked_of, last_word, gathered, merged};

use rules::{Class, Operator, Processor};
use tables::{CELLS, FLAGS, HIGHEST, LOWEST, MET, PAIRS, PARTIAL, WRITERS, WROTE, own_of};

// The number of different pairs of iteration and cell among writes and updates.
pub fn pair_count(w: &[u32]) -> u32
    requires { 2 ≤ length w.now }
    ensures { result ≡ pairs_word w.now }
{
    w[PAIRS]
}

// The number of different cells among them.
pub fn cell_count(w: &[u32]) -> u32
    requires { 2 ≤ length w.now }
    ensures { result ≡ cells_word w.now }
{
    w[CELLS]
}

// The value of the cell at entry.
pub fn entry_value(w: &[u32], row: usize) -> i32
    requires { row < length w.now }
    ensures { result ≡ value (entry_word w.now row) }
{
    int32::of_word(w[row])
}

// ---- marks

// The marks of a cell by three words of its row.
#[tactic(auto, unfolding(rules::specs::Choose::below))]
fn marks_by(met: u32, writers: u32, flags: u32) -> u32
    ensures { result ≡ marks_read met writers flags }
{
    u32::from(0 < writers) + 2 * u32::from(writers < met) + 4 * (flags % 2) + 8 * (flags / 2 % 2)
}

// The marks of a cell.
pub fn marks_of(w: &[u32], row: usize) -> u32
    requires { row + 6 ≤ length w.now }
    ensures { result ≡ marks_of w.now row }
{
    marks_by(w[row + MET], w[row + WRITERS], w[row + FLAGS])
}

// ---- obstacles

// Two groups met a cell and one wrote it.
fn is_contested(met: u32, writers: u32) -> bool
    ensures { result ≡ contested met writers }
{
    0 < writers && 1 < met
}

// And one read it exposed.
fn is_stale(met: u32, writers: u32, flags: u32) -> bool
    ensures { result ≡ stale met writers flags }
{
    is_contested(met, writers) && (writers < met || flags % 2 == 1)
}

// A group wrote a cell and a higher one read it exposed, by the record of the cell.
fn is_late(lowest: u32, highest: u32) -> bool
    ensures { result ≡ late lowest highest }
{
    0 < lowest && lowest < highest
}

// A cell has an update and an ordinary access.
fn is_mixed(met: u32, flags: u32) -> bool
    ensures { result ≡ mixed met flags }
{
    0 < met && flags / 2 % 2 == 1
}

// Whether a cell of a class has an obstacle, by five words of its row.
fn is_obstacle(class: Class, met: u32, writers: u32, flags: u32, lowest: u32, highest: u32) -> bool
    ensures { result ≡ blocked class met writers flags lowest highest }
{
    match class {
        Class::Shared => is_contested(met, writers),
        Class::Copied => is_late(lowest, highest),
        Class::Lastprivate => is_stale(met, writers, flags),
        Class::Reduction(_) => is_stale(met, writers, flags) || is_mixed(met, flags),
    }
}

// Whether a cell has an obstacle.
pub fn is_blocked(w: &[u32], row: usize) -> bool
    requires { row + 6 ≤ length w.now }
    ensures { result ≡ blocked_of w.now row }
{
    is_obstacle(
        tables::class_of(w, row),
        w[row + MET],
        w[row + WRITERS],
        w[row + FLAGS],
        w[row + LOWEST],
        w[row + HIGHEST],
    )
}

// ---- the merge

// The private value of the highest processor that wrote the cell, else the entry value.
#[tactic(auto, unfolding(crate::specs::Findings::last_word, rules::specs::Choose::pick))]
fn last_value(w: &[u32], row: usize, processors: u32) -> i32
    requires { (row < 4294967296) × (row + 6 + 5 * processors ≤ length w.now) }
    ensures { result ≡ value (last_word w.now row processors) }
{
    let mut x = w[row];
    for q in 0..processors {
        let own = own_of(row, Processor(q));
        if w[own + WROTE] != 0 {
            x = w[own];
        }
    }
    int32::of_word(x)
}

// The partial results of the processors, taken together.
#[tactic(auto, unfolding(rules::specs::Merge::join_all))]
fn total(w: &[u32], row: usize, processors: u32, operator: Operator) -> i32
    requires { (row < 4294967296) × (row + 6 + 5 * processors ≤ length w.now) }
    ensures { result ≡ gathered (operation operator) w.now row processors }
{
    let mut x = rules::neutral(operator);
    for q in 0..processors {
        let own = own_of(row, Processor(q));
        x = rules::combine(operator, x, int32::of_word(w[own + PARTIAL]));
    }
    x
}

// What a cell is left with after a run that passed; `shared` is what stands in it.
pub fn merged_value(w: &[u32], row: usize, shared: i32, processors: u32) -> i32
    requires { (row < 4294967296) × (row + 6 + 5 * processors ≤ length w.now) }
    ensures { result ≡ merged w.now row processors shared }
{
    match tables::class_of(w, row) {
        Class::Shared => shared,
        Class::Reduction(operator) if w[row + FLAGS] / 2 % 2 == 1 => rules::combine(
            operator,
            last_value(w, row, processors),
            total(w, row, processors, operator),
        ),
        _ => last_value(w, row, processors),
    }
}
