// `integer` lines (RULES 1.5), after their first word.
#![tactic(auto)]

ghost use Rattle.std.specs.Prelude.{◌≡◌, not, ◌≤◌, ◌*◌, max, min, length, IfSome};
ghost use Rattle.syntax.specs.Reader.{peek_in, skip_in, read_declared};
ghost use Rattle.syntax.specs.Ranks.{level};
ghost use Rattle.lexer.specs.Places.{Finds};
ghost use Rattle.names.specs.Table.{name_words, most_names};
ghost use Rattle.heading.specs.Lists.{order, Keeps};
ghost use Rattle.declarations.specs.Integer.{Declares, Later, Repeated, Enters, fits, Entered, Integers};

use heading::ranked;
use lexer::{digits, name, pass};
use names::{MOST, Shape, Table, add, count, find};
use syntax::Rank;

// A declared name: the place after it, where it lies, and its shape, with up to 4,097 cells and extents up to 2^31.
#[derive(Clone, Copy, Debug, PartialEq, Eq)]
pub struct Item {
    pub next: usize,
    pub start: usize,
    pub stop: usize,
    pub shape: Shape,
}

// A product up to 4,097, one over the limit.
fn product(m: u32, n: u32) -> u32
    ensures { result ≡ min (m * n) 4097 }
{
    m.saturating_mul(n).min(4097)
}

fn declared(s: &[u8], at: usize) -> Option<Item>
    ensures { Finds (λ r. r.next) (Declares s.now) s.now at (read_declared peek_in skip_in) result }
{
    let x = name(s, at)?;
    let Some(open) = pass(s, x.next, b"(") else {
        return Some(Item {
            next: x.next,
            start: x.start,
            stop: x.next,
            shape: Shape {
                size: 1,
                rows: 0,
                columns: 0,
            },
        });
    };
    let rows = digits(s, open)?;
    let Some(comma) = pass(s, rows.next, b",") else {
        return Some(Item {
            next: pass(s, rows.next, b")")?,
            start: x.start,
            stop: x.next,
            shape: Shape {
                size: product(rows.number, 1),
                rows: rows.number,
                columns: 0,
            },
        });
    };
    let columns = digits(s, comma)?;
    Some(Item {
        next: pass(s, columns.next, b")")?,
        start: x.start,
        stop: x.next,
        shape: Shape {
            size: product(rows.number, columns.number),
            rows: rows.number,
            columns: columns.number,
        },
    })
}

// Whether the name w is declared in what is left of the list after a place.
fn later(s: &[u8], at: usize, w: &[u8]) -> bool
    requires { at ≤ length s.now }
    ensures { Later s.now at w.now result }
{
    let Some(comma) = pass(s, at, b",") else {
        return false;
    };
    match declared(s, comma) {
        Some(d) => w == &s[d.start..d.stop] || later(s, d.next, w),
        None => false,
    }
}

// Whether a name was declared before, or is declared again in what is left of the list after a place.
fn repeated(s: &[u8], at: usize, w: &[u8], table: &Table) -> bool
    requires { (at ≤ length s.now) × (length w.now ≤ name_words) }
    ensures { Repeated table.now s.now at w.now result }
{
    find(table, w).is_some() || later(s, at, w)
}

// The rank so far, with that of one declared name after as many cells and names.
fn declared_rank(rank: Rank, repeated: bool, cells: u32, size: u32, names: usize) -> Rank
    requires { (cells ≤ 4097) × (size ≤ 4097) × (names ≤ most_names) }
    ensures { level result ≡ max (level rank) (order (not repeated) (fits names cells size)) }
{
    let fits = 1 <= size && size <= 4096 && cells + size <= 4096 && names < MOST;
    ranked(rank, !repeated, fits)
}

// A declared name in order is added to the table: the number of cells after it.
fn enter(table: &mut Table, w: &[u8], cells: u32, shape: Shape, rank: Rank) -> u32
    requires { (length w.now ≤ name_words) × (cells ≤ 4097) × (shape.size ≤ 4097) }
    ensures { Enters table.old w.now cells shape (level rank) table.new result }
{
    if rank != Rank::InOrder {
        return cells;
    }
    add(table, w, cells, shape);
    cells + shape.size
}

// What declared names come to: the place after them, how many cells there are by then, and the highest rank.
#[derive(Clone, Copy, Debug, PartialEq, Eq)]
pub struct Listed {
    pub next: usize,
    pub cells: u32,
    pub rank: Rank,
}

// A declared name after others: in order, it is added to the table.
fn integer(s: &[u8], table: &mut Table, before: Listed) -> Option<Listed>
    requires { before.cells ≤ 4096 }
    ensures finds { Finds (λ r. r.next) (λ r. Entered table.old s.now before.cells (level before.rank) table.new r) s.now before.next
        (read_declared peek_in skip_in) result }
    ensures keeps { Keeps table.old table.new }
    ensures few_cells { IfSome result (λ r. r.cells ≤ 4096) }
{
    let d = declared(s, before.next)?;
    let w = &s[d.start..d.stop];
    let again = repeated(s, d.next, w, table);
    let rank = declared_rank(before.rank, again, before.cells, d.shape.size, count(table));
    let cells = enter(table, w, before.cells, d.shape, rank);
    Some(Listed {
        next: d.next,
        cells,
        rank,
    })
}

// Declared names after others.
pub fn integers(s: &[u8], table: &mut Table, before: Listed) -> Option<Listed>
    requires { before.cells ≤ 4096 }
    ensures integers { Integers table.old s.now before table.new result }
    ensures keeps { Keeps table.old table.new }
    ensures few_cells { IfSome result (λ r. r.cells ≤ 4096) }
{
    let d = integer(s, table, before)?;
    match pass(s, d.next, b",") {
        Some(next) => integers(s, table, Listed { next, ..d }),
        None => Some(d),
    }
}
