// One access of a processor to a cell, and its note in the shadow tables.
ghost use Rattle.std.specs.Prelude.{◌≡◌, ◌+◌, ◌<◌, ◌≤◌, length};
ghost use Rattle.tables.specs.Layout.{class_held};
ghost use Rattle.stepping.specs.Access.{seen_by, stored_by, joined_by, row_of, own_of, group_of, Accessible, Reads, Writes, Updates};

use crate::{Manner, Role};
use rules::{Group, Iteration};

// Where an access of a processor's iteration is noted: the cell's row in the tables, the processor's own part there, and the group.
#[derive(Clone, Copy, Debug, PartialEq, Eq)]
struct Places {
    row: usize,
    own: usize,
    group: Group,
}

fn places_of(role: Role, i: Iteration, cell: usize) -> Places
    requires { (role.processors ≤ 8) × (role.number.0 < role.processors) × (cell < 4096) × (i.0 < 65535) }
    ensures places { result ≡ record { row = row_of role cell; own = own_of role cell; group = record { 0 = group_of role i.0 } } }
    ensures low { result.group.0 < 4294967295 }
{
    let row = tables::row_of(cell, role.processors);
    Places {
        row,
        own: tables::own_of(row, role.number),
        group: rules::group_of(role.grouping, i, role.number),
    }
}

// What a group sees of a cell: a shared one as it stands, another as the group wrote it, else as at entry; in place, any as it stands.
#[tactic(auto, unfolding(crate::specs::Access::seen_by, rules::specs::Choose::pick, rules::specs::Cells::cell_of))]
fn seen(manner: Manner, cells: &[i32], w: &[u32], cell: usize, at: Places) -> i32
    requires { (cell < length cells.now) × (at.row + 6 ≤ at.own) × (at.own + 5 ≤ length w.now) × (at.group.0 < 4294967295) }
    ensures { result ≡ seen_by manner cells.now w.now at.row at.own at.group.0 cell }
{
    match manner {
        Manner::ByClass if !tables::is_shared(w, at.row) => {
            noting::own_value(w, at.row, at.own, at.group)
        }
        _ => cells[cell],
    }
}

// A read. The answer is what is read.
pub fn read_cell(role: Role, i: Iteration, cells: &[i32], w: &mut [u32], cell: usize) -> i32
    requires { Accessible role cells.now w.old cell × (i.0 < 65535) }
    ensures { Reads role i.0 cells.now w.old cell w.new result }
{
    let at = places_of(role, i, cell);
    let x = seen(role.manner, cells, w, cell, at);
    noting::note_read(w, at.row, at.own, at.group);
    x
}

// A value in a cell that is shared; in place, in any.
#[tactic(auto, unfolding(crate::specs::Access::stored_by, rules::specs::Cells::cell_of))]
fn store(manner: Manner, cells: &mut [i32], shared: bool, cell: usize, value: i32)
    requires { cell < length cells.old }
    ensures { cells.new ≡ stored_by manner shared cells.old cell value }
{
    match manner {
        Manner::ByClass if !shared => {}
        _ => cells[cell] = value,
    }
}

// A write.
pub fn write_cell(
    role: Role,
    i: Iteration,
    cells: &mut [i32],
    w: &mut [u32],
    cell: usize,
    value: i32,
)
    requires { Accessible role cells.old w.old cell × (i.0 < 65535) }
    ensures { Writes role i.0 cells.old w.old cell value cells.new w.new }
{
    let at = places_of(role, i, cell);
    let shared = tables::is_shared(w, at.row);
    store(role.manner, cells, shared, cell, value);
    noting::note_write(w, at.row, at.own, at.group, i, value);
}

// A value is joined to a cell in place, as updates of its class are. By class, updates gather in the tables alone.
#[tactic(auto, unfolding(crate::specs::Access::joined_by, rules::specs::Cells::cell_of))]
fn join_in(manner: Manner, cells: &mut [i32], w: &[u32], row: usize, cell: usize, value: i32)
    requires { (cell < length cells.old) × (row + 6 ≤ length w.now) }
    ensures { cells.new ≡ joined_by manner (class_held w.now row) cells.old cell value }
{
    match manner {
        Manner::InPlace => {
            let operator = tables::class_of(w, row).operator();
            cells[cell] = rules::combine(operator, cells[cell], value);
        }
        Manner::ByClass => {}
    }
}

// An update.
pub fn update_cell(
    role: Role,
    i: Iteration,
    cells: &mut [i32],
    w: &mut [u32],
    cell: usize,
    value: i32,
)
    requires { Accessible role cells.old w.old cell × (i.0 < 65535) }
    ensures { Updates role i.0 cells.old w.old cell value cells.new w.new }
{
    let at = places_of(role, i, cell);
    join_in(role.manner, cells, w, at.row, cell, value);
    noting::note_update(w, at.row, at.own, i, value);
}
