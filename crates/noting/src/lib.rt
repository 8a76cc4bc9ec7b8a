// Notes of accesses in the shadow tables (crates/tables). A caller works out the places of a cell's row and of a processor's own part in it; each function then
// takes a few steps.
#![tactic(auto)]

ghost use Rattle.std.specs.Prelude.{◌≡◌, max, ◌+◌, ◌*◌, ◌/◌, ◌%◌, ◌≤◌, ◌<◌, length};
ghost use Rattle.shadow.specs.Tables.{lower};
ghost use Rattle.tables.specs.Layout.{met_word, writers_word};
ghost use Rattle.noting.specs.Changes.{Placed, Ready, one_more, read_noted, counted, row_written, own_written, written, updated, own_seen};

use rules::{Class, Group, Iteration};
use tables::{
    CELLS, EXPOSED, FLAGS, HIGHEST, LOWEST, MET, PAIRS, PARTIAL, TOUCHED, WRITERS, WROTE,
};

// How many groups met a cell, with the group of a stamp more unless it wrote or read it before.
#[tactic(auto, unfolding(rules::specs::Choose::pick))]
fn met_by(wrote: u32, exposed: u32, stamp: u32, met: u32) -> u32
    requires { met < 4294967295 }
    ensures { result ≡ one_more wrote exposed stamp met }
{
    if wrote == stamp || exposed == stamp {
        met
    } else {
        met + 1
    }
}

// The lower of a stamp and a word that is a stamp or 0 for none.
#[tactic(auto, unfolding(rules::specs::Choose::pick))]
fn lower_of(stamp: u32, word: u32) -> u32
    ensures { result ≡ lower stamp word }
{
    if word == 0 { stamp } else { stamp.min(word) }
}

// A group reads the cell.
#[tactic(auto, unfolding(crate::specs::Changes::read_noted, rules::specs::Choose::pick))]
pub fn note_read(w: &mut [u32], row: usize, own: usize, group: Group)
    requires { (Ready w.old row own) × (group.0 < 4294967295) }
    ensures { w.new ≡ read_noted w.old row own group.0 }
{
    let stamp = group.0 + 1;
    if w[own + WROTE] == stamp {
        return;
    }
    if w[own + EXPOSED] != stamp {
        w[row + MET] += 1;
    }
    w[row + HIGHEST] = w[row + HIGHEST].max(stamp);
    w[own + EXPOSED] = stamp;
}

// Both write counts, before a write or an update of the cell by an iteration.
#[tactic(auto, unfolding(crate::specs::Changes::counted, rules::specs::Choose::pick))]
fn count(w: &mut [u32], row: usize, own: usize, iteration: Iteration)
    requires { (Ready w.old row own) × (iteration.0 < 4294967295) }
    ensures { w.new ≡ counted w.old row own iteration.0 }
{
    let stamp = iteration.0 + 1;
    if w[own + TOUCHED] != stamp {
        w[PAIRS] += 1;
    }
    if w[row + FLAGS] / 2 % 2 == 0 && w[row + WRITERS] == 0 {
        w[CELLS] += 1;
    }
    w[own + TOUCHED] = stamp;
}

// A group writes the cell: the words of its row.
#[tactic(auto, unfolding(crate::specs::Changes::row_written, rules::specs::Choose::pick))]
fn mark_row(w: &mut [u32], row: usize, own: usize, group: Group)
    requires { (Placed w.old row own) × (met_word w.old row < 4294967295) × (writers_word w.old row < 4294967295) × (group.0 < 4294967295) }
    ensures { w.new ≡ row_written w.old row own group.0 }
{
    let stamp = group.0 + 1;
    let wrote = w[own + WROTE];
    let exposed = w[own + EXPOSED];
    let met = w[row + MET];
    let writers = w[row + WRITERS];
    let flags = w[row + FLAGS];
    let lowest = w[row + LOWEST];
    w[row + MET] = met_by(wrote, exposed, stamp, met);
    w[row + WRITERS] = if wrote == stamp { writers } else { writers + 1 };
    w[row + FLAGS] = if exposed == stamp {
        flags / 2 * 2 + 1
    } else {
        flags
    };
    w[row + LOWEST] = if wrote == stamp {
        lowest
    } else {
        lower_of(stamp, lowest)
    };
}

// A group writes the cell: the words of its processor.
#[tactic(auto, unfolding(crate::specs::Changes::own_written))]
fn mark_own(w: &mut [u32], own: usize, group: Group, value: i32)
    requires { (own + 5 ≤ length w.old) × (group.0 < 4294967295) }
    ensures { w.new ≡ own_written w.old own group.0 value }
{
    w[own] = int32::to_word(value);
    w[own + WROTE] = group.0 + 1;
}

// An iteration updates the cell, whose counts are done.
#[tactic(auto, unfolding(crate::specs::Changes::updated))]
fn mark_updated(w: &mut [u32], row: usize, own: usize, value: i32)
    requires { Placed w.old row own }
    ensures { w.new ≡ updated w.old row own value }
{
    let flags = w[row + FLAGS];
    let operator = Class::of_number(flags / 4).operator();
    let partial = rules::combine(operator, value, int32::of_word(w[own + PARTIAL]));
    w[row + FLAGS] = flags / 4 * 4 + 2 + flags % 2;
    w[own + PARTIAL] = int32::to_word(partial);
}

// An iteration of a group writes the cell.
#[tactic(auto, unfolding(crate::specs::Changes::written))]
pub fn note_write(
    w: &mut [u32],
    row: usize,
    own: usize,
    group: Group,
    iteration: Iteration,
    value: i32,
)
    requires { (Ready w.old row own) × (group.0 < 4294967295) × (iteration.0 < 4294967295) }
    ensures { w.new ≡ written (counted w.old row own iteration.0) row own group.0 value }
{
    count(w, row, own, iteration);
    mark_row(w, row, own, group);
    mark_own(w, own, group, value);
}

// An iteration updates the cell.
pub fn note_update(w: &mut [u32], row: usize, own: usize, iteration: Iteration, value: i32)
    requires { (Ready w.old row own) × (iteration.0 < 4294967295) }
    ensures { w.new ≡ updated (counted w.old row own iteration.0) row own value }
{
    count(w, row, own, iteration);
    mark_updated(w, row, own, value);
}

// What a group reads that has the cell for itself: what it wrote, else the entry value.
#[tactic(auto, unfolding(rules::specs::Choose::pick))]
pub fn own_value(w: &[u32], row: usize, own: usize, group: Group) -> i32
    requires { (row < own) × (own + 5 ≤ length w.now) × (group.0 < 4294967295) }
    ensures { result ≡ own_seen w.now row own group.0 }
{
    let wrote = w[own + WROTE] == group.0 + 1;
    int32::of_word(if wrote { w[own] } else { w[row] })
}
