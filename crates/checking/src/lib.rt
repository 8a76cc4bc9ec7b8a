// Check and Load (RULES 9.2 a, 9.3). Each takes any text and whatever is lent, and refuses what it can't take; a refusal leaves the cells as
// they came.
#![tactic(auto)]

ghost use Rattle.std.specs.Prelude.{◌≡◌, length};
ghost use Rattle.syntax.specs.Text.{read as read_text};
ghost use Rattle.answers.specs.Answers.{check_of, load_of, cells_loaded};

use answers::{Refusal, Sizes};
use fitting::check_cells;
use preparing::Source;

// N and P.
pub fn check(text: &[u8]) -> Result<Sizes, Refusal>
    ensures { result ≡ check_of (read_text text.now) }
{
    let mut source = Source::new();
    let p = source.read(text)?;
    Ok(Sizes {
        cells: p.cells,
        processors: p.processors,
    })
}

// The cells from the data.
pub fn load(text: &[u8], cells: &mut [i32]) -> Result<(), Refusal>
    ensures value { result ≡ load_of (read_text text.now) (length cells.old) }
    ensures cells_after { cells.new ≡ cells_loaded (read_text text.now) cells.old }
{
    let mut source = Source::new();
    let p = source.read(text)?;
    check_cells(p.cells, cells.len())?;
    let n = cells.len();
    cells.copy_from_slice(&source.initial[..n]);
    Ok(())
}
