// The stage table (crates/reorder, StageTable): rows of four words for each cell, and the lent list of stages. An access is noted in a few steps.
#![tactic(auto)]

ghost use Rattle.std.specs.Prelude.{◌≡◌, ◌+◌, ◌*◌, ◌≤◌, ◌<◌, length};
ghost use Rattle.reorder.specs.StageTable.{latest, opened};
ghost use Rattle.staging.specs.Rows.{stage_in, row_in, row_set, kind_of, Notable, Noted};

use reorder::Row;
use rules::Iteration;

// A row has the stamp of the last toucher (1 + its index, 0 for none), 1 if that one writes or updates the cell, and two stages.
pub const CHANGES: usize = 1;

pub const CHANGED: usize = 2;

pub const TOUCHED: usize = 3;

pub const ROW: usize = 4;

// The words of the rows of 4,096 cells.
pub const WORDS: usize = 16384;

// The row of a cell.
#[tactic(auto, unfolding(crate::specs::Rows::row_in))]
fn row_of(w: &[u32], cell: usize) -> Row
    requires { (cell < 4096) × (cell * 4 + 4 ≤ length w.now) }
    ensures { result ≡ row_in w.now cell }
{
    let at = cell * ROW;
    Row {
        last: w[at],
        changes: w[at + CHANGES] == 1,
        changed: w[at + CHANGED],
        touched: w[at + TOUCHED],
    }
}

#[tactic(auto, unfolding(crate::specs::Rows::row_set))]
fn set_row(w: &mut [u32], cell: usize, row: Row)
    requires { (cell < 4096) × (cell * 4 + 4 ≤ length w.old) }
    ensures { w.new ≡ row_set w.old cell row }
{
    let at = cell * ROW;
    w[at] = row.last;
    w[at + CHANGES] = u32::from(row.changes);
    w[at + CHANGED] = row.changed;
    w[at + TOUCHED] = row.touched;
}

// The stage of the iteration of a stamp; 0 for none.
// No Option of an iteration: a row's word is the stamp, and each access would turn it into one and back.
#[tactic(auto, unfolding(reorder::specs::StageTable::latest))]
fn stage_of(list: &[u16], stamp: u32) -> u32
    requires { stamp ≤ length list.now }
    ensures { result ≡ latest (stage_in list.now) stamp }
{
    if stamp == 0 {
        0
    } else {
        u32::from(list[stamp as usize - 1])
    }
}

// A row as iteration i finds it: at its first touch the last toucher becomes one of the lower iterations. Its stage is known by now, since it has ended.
#[tactic(auto, unfolding(reorder::specs::StageTable::opened, rules::specs::Choose::pick))]
fn open(list: &[u16], i: Iteration, row: Row) -> Row
    requires { (row.last ≤ length list.now) × (i.0 < 65535) }
    ensures { result ≡ opened (stage_in list.now) i.0 row }
{
    let stamp = i.0 + 1;
    if row.last == stamp {
        return row;
    }
    let stage = stage_of(list, row.last);
    Row {
        last: stamp,
        changes: false,
        changed: if row.changes {
            row.changed.max(stage)
        } else {
            row.changed
        },
        touched: row.touched.max(stage),
    }
}

// What an iteration does to a cell: it reads it, or it writes or updates it.
#[derive(Clone, Copy, Debug, PartialEq, Eq)]
pub enum Touch {
    Read,
    Change,
}

// Iteration i touches a cell. The answer is the highest stage that it has to come after, which was `over`: where it reads the cell also after those that write
// or update the cell, else after all that touch it.
#[tactic(auto, unfolding(crate::specs::Rows::noted_in, crate::specs::Rows::over_in, reorder::specs::StageTable::needs, reorder::specs::StageTable::marked))]
pub fn note(w: &mut [u32], list: &[u16], i: Iteration, cell: usize, touch: Touch, over: u32) -> u32
    requires { Notable list.now i.0 w.old cell }
    ensures { Noted (kind_of touch) list.now i.0 w.old cell over w.new result }
{
    let mut row = open(list, i, row_of(w, cell));
    let stage = match touch {
        Touch::Read => row.changed,
        Touch::Change => {
            row.changes = true;
            row.touched
        }
    };
    set_row(w, cell, row);
    stage.max(over)
}
