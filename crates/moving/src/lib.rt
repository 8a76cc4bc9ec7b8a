// A grid's cells moved into row order (RULES 9.9), each once into a spare array and once back.
#![tactic(auto)]

ghost use Rattle.std.specs.Prelude.{◌≡◌, ◌+◌, ◌*◌, ◌≤◌, ◌<◌, length};
ghost use Rattle.grids.specs.Arrange.{source, by_rows, rearranged};
ghost use Rattle.moving.specs.Moving.{Gathered};

// The place among a grid's cells of what stands at place p in row order.
fn source_of(rows: usize, columns: usize, p: usize) -> usize
    requires { (p < rows * columns) × (rows * columns ≤ 4096) }
    ensures { (result ≡ source rows columns p) × (result < rows * columns) }
{
    p / columns + p % columns * rows
}

// The cells of a grid in row order, in as many spare ones.
fn gather(cells: &[i32], first: usize, rows: usize, columns: usize, spare: &mut [i32])
    requires { (first + rows * columns ≤ length cells.now) × (rows * columns ≤ 4096) × (length spare.old ≡ rows * columns) }
    ensures { Gathered cells.now first rows columns spare.new (rows * columns) }
{
    for (p, to) in spare.iter_mut().enumerate() {
        *to = cells[first + source_of(rows, columns, p)];
    }
}

// The cells with those of a grid in row order.
pub fn to_rows(cells: &mut [i32], first: usize, rows: usize, columns: usize)
    requires { (first + rows * columns ≤ length cells.old) × (rows * columns ≤ 4096) }
    ensures { cells.new ≡ rearranged by_rows (record { first = first; rows = rows; columns = columns }) cells.old }
{
    let n = rows * columns;
    let mut room = [0; 4096];
    let spare = &mut room[..n];
    gather(cells, first, rows, columns, spare);
    cells[first..first + n].copy_from_slice(spare);
}
