// The `do` line (RULES 1.8), after its first word.
#![tactic(auto)]

ghost use Rattle.std.specs.Prelude.{◌≡◌, ◌≤◌};
ghost use Rattle.syntax.specs.Known.{signed};
ghost use Rattle.lexer.specs.Places.{Finds, lead_of};
ghost use Rattle.bounds.specs.DoLine.{Found, read_ends, raise, Do};

use heading::{item_value, limited, ranked};
use lexer::{Leading, digits, lead, name, pass};
use names::{Table, VARIABLE, find, put_name};
use syntax::Rank;

// The name and the two bounds of the loop: the place after them, where the name lies, the sign of the first and its size, the sign of the last and its
// size; sizes up to 2^31.
#[derive(Clone, Copy, Debug, PartialEq, Eq)]
pub struct Bounds {
    pub next: usize,
    pub start: usize,
    pub stop: usize,
    pub lead: Leading,
    pub first: u32,
    pub tail: Leading,
    pub last: u32,
}

fn bounds_at(s: &[u8], at: usize) -> Option<Bounds>
    ensures { Finds (λ r. r.next) (Found s.now) s.now at read_ends result }
{
    let v = name(s, at)?;
    let a = pass(s, v.next, b"=")?;
    let l = lead(s, a);
    let m = digits(s, l.next)?;
    let b = pass(s, m.next, b",")?;
    let k = lead(s, b);
    let n = digits(s, k.next)?;
    Some(Bounds {
        next: n.next,
        start: v.start,
        stop: v.next,
        lead: l.sign,
        first: m.number,
        tail: k.sign,
        last: n.number,
    })
}

// A bound and 2^31.
fn raised(sign: Leading, size: u32) -> u64
    requires { size ≤ 2147483648 }
    ensures { result ≡ raise (signed (lead_of sign) size) }
{
    match sign {
        Leading::Bare | Leading::Plus => 2147483648 + size as u64,
        Leading::Minus => 2147483648 - size as u64,
    }
}

// What the loop's line comes to: the place after it, its rank, m, and how many iterations there are.
#[derive(Clone, Copy, Debug, PartialEq, Eq)]
pub struct Looped {
    pub next: usize,
    pub rank: Rank,
    pub from: i32,
    pub count: u64,
}

// The loop's line, after its first word: its variable is written into the table.
pub fn do_line(s: &[u8], at: usize, table: &mut Table) -> Option<Looped>
    ensures { Do table.old s.now at table.new result }
{
    let b = bounds_at(s, at)?;
    let v = &s[b.start..b.stop];
    let first = raised(b.lead, b.first);
    let last = raised(b.tail, b.last);
    let count = (last + 1).saturating_sub(first);
    let named = find(table, v).is_none();
    let small = limited(b.first, b.last) && count <= 65535;
    put_name(table, VARIABLE, v);
    Some(Looped {
        next: b.next,
        rank: ranked(Rank::InOrder, named, small),
        from: item_value(b.lead, b.first),
        count,
    })
}
