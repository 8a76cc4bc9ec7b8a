// From an accepted text to what a run takes: the class of each cell, off the table of names.
#![tactic(auto)]

ghost use Rattle.std.specs.Prelude.{◌≤◌, ◌<◌, length};
ghost use Rattle.names.specs.Table.{most_names};
ghost use Rattle.setup.specs.Classes.{Marked, Classifies};

use names::Table;
use rules::Class;

// The class of entry i for those of its cells that are among the first.
fn mark(table: &Table, i: usize, count: usize, out: &mut [Class])
    requires { (i < most_names) × (count ≤ length out.old) }
    ensures { Marked table.now i count out.old out.new }
{
    let first = count.min(names::first_of(table, i));
    let end = count.min(names::end_of(table, i));
    out[first..end].fill(names::class_of(table, i));
}

// The class of each of the first cells, name by name from the last, so that the first that has a cell decides.
pub fn classes(table: &Table, count: usize, out: &mut [Class])
    requires { (count ≤ length out.old) × (length out.old ≤ 4096) }
    ensures { Classifies table.now count out.old out.new }
{
    out[..count].fill(Class::Shared);
    for i in (0..names::count(table)).rev() {
        mark(table, i, count, out);
    }
}
