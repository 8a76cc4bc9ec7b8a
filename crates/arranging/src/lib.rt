// Rows and Columns (RULES 9.9): the cells of one named grid put in row order, and back. Each takes any text, cells and name, and refuses what it can't
// take; a refusal leaves the cells as they came.
#![tactic(auto)]

ghost use Rattle.std.specs.Prelude.{◌≡◌, length};
ghost use Rattle.syntax.specs.Text.{read as read_text};
ghost use Rattle.answers.specs.Answers.{arrange_of, cells_by_rows, cells_by_columns};
ghost use Rattle.arranging.specs.Sought.{grid_told, sought_of};

use answers::{Located, Refusal};
use describing::located;
use fitting::check_cells;
use moving::to_rows;
use preparing::Source;

// A grid: its first cell and its extents.
#[derive(Clone, Copy, Debug, PartialEq, Eq)]
struct Grid {
    first: usize,
    rows: usize,
    columns: usize,
}

// The grid of which Name tells this: it takes two subscripts.
fn grid_of(told: Result<Located, Refusal>) -> Result<Grid, Refusal>
    ensures { result ≡ grid_told told }
{
    match told {
        Ok(l) if 2 <= l.subscripts => Ok(Grid {
            first: l.first as usize,
            rows: l.rows as usize,
            columns: l.columns as usize,
        }),
        _ => Err(Refusal::of_lent(13)),
    }
}

// The grid that a text's name names, where so many cells are lent.
fn seek(text: &[u8], cells: usize, name: &[u8]) -> Result<Grid, Refusal>
    ensures { result ≡ sought_of (read_text text.now) name.now cells }
{
    let mut source = Source::new();
    let p = source.read(text)?;
    check_cells(p.cells, cells)?;
    grid_of(located(&source.table, name))
}

// Rows and Columns differ in the order of two extents alone: a closure or a flag for that order would be longer than the three lines of each.

// The cells of the grid of this name in row order.
pub fn rows(text: &[u8], cells: &mut [i32], name: &[u8]) -> Result<(), Refusal>
    ensures value { result ≡ arrange_of (read_text text.now) name.now (length cells.old) }
    ensures cells_after { cells.new ≡ cells_by_rows (read_text text.now) name.now cells.old }
{
    let g = seek(text, cells.len(), name)?;
    to_rows(cells, g.first, g.rows, g.columns);
    Ok(())
}

// And back from row order: its columns are the rows of what is in row order.
pub fn columns(text: &[u8], cells: &mut [i32], name: &[u8]) -> Result<(), Refusal>
    ensures value { result ≡ arrange_of (read_text text.now) name.now (length cells.old) }
    ensures cells_after { cells.new ≡ cells_by_columns (read_text text.now) name.now cells.old }
{
    let g = seek(text, cells.len(), name)?;
    to_rows(cells, g.first, g.columns, g.rows);
    Ok(())
}
