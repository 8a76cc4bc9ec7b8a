// `data` lines (RULES 1.6), after their first word.
#![tactic(auto)]

ghost use Rattle.std.specs.Prelude.{◌≡◌, List, not, ◌&&◌, eqb, ℕ, ◌≤◌, ◌<◌, ◌+◌, min, length, IfSome, MatchOption};
ghost use Rattle.std.proofs.Math.Option.{Option};
ghost use Rattle.syntax.specs.Grammar.{item};
ghost use Rattle.syntax.specs.Known.{copies_of};
ghost use Rattle.syntax.specs.Ranks.{level};
ghost use Rattle.syntax.specs.Reader.{read_signed, peek_in, skip_in, read_item};
ghost use Rattle.lexer.specs.Places.{Finds};
ghost use Rattle.names.specs.Table.{most_names};
ghost use Rattle.heading.specs.Lists.{Keeps, Standing};
ghost use Rattle.values.specs.Data.{Itemized, Placed, Put, read_counted, Items, Given, Data};

use heading::{Headed, item_value, limited, ranked};
use lexer::{Leading, digits, lead, name, pass};
use names::{Named, Table, find, give};
use syntax::Rank;

// An item: the place after it, how many copies, and the sign and size of the value; both numbers up to 2^31.
#[derive(Clone, Copy, Debug, PartialEq, Eq)]
pub struct Datum {
    pub next: usize,
    pub copies: u32,
    pub sign: Leading,
    pub size: u32,
}

// A literal with an optional sign, as an item of so many copies.
fn copied(s: &[u8], at: usize, copies: u32) -> Option<Datum>
    requires { at ≤ length s.now }
    ensures { (o : Option (List ℕ)) → copies ≡ min (copies_of o) 2147483648
        → Finds (λ r. r.next) Itemized s.now at (read_signed peek_in skip_in (item o)) result }
{
    let l = lead(s, at);
    let d = digits(s, l.next)?;
    Some(Datum {
        next: d.next,
        copies,
        sign: l.sign,
        size: d.number,
    })
}

fn item_at(s: &[u8], at: usize) -> Option<Datum>
    requires { at ≤ length s.now }
    ensures { Finds (λ r. r.next) Itemized s.now at (read_item peek_in skip_in) result }
{
    if let Some(r) = digits(s, at) {
        if let Some(star) = pass(s, r.next, b"*") {
            return copied(s, star, r.number);
        }
    }
    copied(s, at, 1)
}

// So many copies of a value after the values so far in the cells of a name: how many values there are then, and one more than there are cells where they
// are too many.
fn place(cells: &mut [i32], values: usize, copies: u32, x: i32) -> usize
    requires { (length cells.old ≤ 4096) × (values ≤ length cells.old + 1) }
    ensures { Placed cells.old values copies x cells.new result }
{
    let end = values + copies as usize;
    if end <= cells.len() {
        cells[values..end].fill(x);
    }
    end.min(cells.len() + 1)
}

// What items come to: the place after them, how many values there are by then, and the highest rank.
#[derive(Clone, Copy, Debug, PartialEq, Eq)]
pub struct Filled {
    pub next: usize,
    pub values: usize,
    pub rank: Rank,
}

// An item after others, for the cells of a name. A repeat of 0 is a broken form.
fn put_item(s: &[u8], cells: &mut [i32], before: Filled) -> Option<Filled>
    requires { (before.next ≤ length s.now) × (length cells.old ≤ 4096) × (before.values ≤ length cells.old + 1) }
    ensures finds { Finds (λ r. r.next) (λ r. Put cells.old before.values (level before.rank) cells.new r) s.now before.next read_counted result }
    ensures cells_len_unchanged { length cells.new ≡ length cells.old }
    ensures few_values { IfSome result (λ r. r.values ≤ length cells.old + 1) }
{
    let d = item_at(s, before.next)?;
    if d.copies == 0 {
        return None;
    }
    let rank = ranked(before.rank, true, limited(d.copies, d.size));
    let values = place(cells, before.values, d.copies, item_value(d.sign, d.size));
    Some(Filled {
        next: d.next,
        values,
        rank,
    })
}

// Items after others, for the cells of a name.
fn items(s: &[u8], cells: &mut [i32], before: Filled) -> Option<Filled>
    requires { (before.next ≤ length s.now) × (length cells.old ≤ 4096) × (before.values ≤ length cells.old + 1) }
    ensures items { Items cells.old s.now before cells.new result }
    ensures cells_len_unchanged { length cells.new ≡ length cells.old }
{
    let d = put_item(s, cells, before)?;
    match pass(s, d.next, b",") {
        Some(next) => items(s, cells, Filled { next, ..d }),
        None => Some(d),
    }
}

// Whether a declared name may be given so many values: it was given none, and has as many cells.
fn due(n: Named, values: usize) -> bool
    ensures { result ≡ not n.given && eqb values n.size }
{
    !n.given && values == n.size as usize
}

// Data in order is given to its name: the rank with that of the name, which is declared.
fn give_data(table: &mut Table, n: Option<Named>, values: usize, rank: Rank) -> Rank
    requires { IfSome n (λ n. n.index < most_names) }
    ensures { Given table.old n values (level rank) table.new (level result) }
{
    match n {
        Some(n) if due(n, values) => {
            if rank == Rank::InOrder {
                give(table, n.index);
            }
            rank
        }
        _ => Rank::WrongName,
    }
}

// Where the cells of a name lie: the first, and how many. One that is not declared has none.
fn extent_of(n: Option<Named>) -> (usize, usize)
    ensures { MatchOption n (result ≡ (0, 0)) (λ n. result ≡ (n.first, n.size)) }
{
    n.map_or((0, 0), |n| (n.first as usize, n.size as usize))
}

// A data line, after its first word.
pub fn data_values(s: &[u8], at: usize, table: &mut Table, cells: &mut [i32]) -> Option<Headed>
    requires { (4096 ≤ length cells.old) × Standing table.old }
    ensures fact { Data table.old cells.old s.now at table.new cells.new result }
    ensures keeps { Keeps table.old table.new × (length cells.new ≡ length cells.old) }
{
    let x = name(s, at)?;
    let open = pass(s, x.next, b"/")?;
    let n = find(table, &s[x.start..x.next]);
    let (first, size) = extent_of(n);
    let none = Filled {
        next: open,
        values: 0,
        rank: Rank::InOrder,
    };
    let d = items(s, &mut cells[first..first + size], none)?;
    let next = pass(s, d.next, b"/")?;
    let rank = give_data(table, n, d.values, d.rank);
    Some(Headed { next, rank })
}
