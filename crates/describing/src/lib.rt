// Bounds and Name (RULES 9.2 b and c): what a text says of its loop and of its names, so that no caller reads it again. Each takes any text and any name.
#![tactic(auto)]

ghost use Rattle.std.specs.Prelude.{◌≡◌, List, map};
ghost use Rattle.syntax.specs.Bytes.{lower};
ghost use Rattle.syntax.specs.Known.{Entry};
ghost use Rattle.syntax.specs.Text.{read as read_text};
ghost use Rattle.names.specs.Table.{Tabled};
ghost use Rattle.answers.specs.Answers.{bounds_of, located_in, name_of};

use answers::{Bounds, Located, Refusal};
use lexer::lowered;
use names::Table;
use preparing::Source;

// The longest name for which the table has room.
const LONGEST: usize = 32;

// The loop's first value, its iterations and how they are grouped.
pub fn bounds(text: &[u8]) -> Result<Bounds, Refusal>
    ensures { result ≡ bounds_of (read_text text.now) }
{
    let mut source = Source::new();
    let p = source.read(text)?;
    Ok(Bounds {
        from: p.from,
        iterations: p.count as u32,
        grouping: p.grouping,
    })
}

// The cells of the name that these bytes spell; 3 where it is not declared.
#[tactic(auto, using(crate::proofs::Answering::over_long))]
pub fn located(table: &Table, name: &[u8]) -> Result<Located, Refusal>
    ensures { (t : List Entry) → Tabled table.now t → result ≡ located_in t (map lower name.now) }
{
    let n = name.len();
    if LONGEST < n {
        return Err(Refusal::of_lent(3));
    }
    let mut low = [0; LONGEST];
    lowered(name, &mut low);
    match names::find(table, &low[0..n]) {
        Some(e) => Ok(Located {
            first: e.first,
            count: e.size,
            subscripts: names::subscripts_of(e.rows, e.columns),
            class: e.class,
            rows: e.rows,
            columns: e.columns,
        }),
        None => Err(Refusal::of_lent(3)),
    }
}

// The cells of a name, how many subscripts it takes, its clause and its extents.
pub fn name(text: &[u8], name: &[u8]) -> Result<Located, Refusal>
    ensures { result ≡ name_of (read_text text.now) name.now }
{
    let mut source = Source::new();
    source.read(text)?;
    located(&source.table, name)
}
