// Names in clauses (RULES 1.7, 1.12 d). The clauses of a directive are read twice: in the first reading names get the classes
// of all clauses but `firstprivate`; in the second those in `firstprivate` must be lastprivate by then, and are copied in.
#![tactic(auto)]

ghost use Rattle.std.specs.Prelude.{◌≡◌, ◌≤◌, length};
ghost use Rattle.syntax.specs.Ranks.{level};
ghost use Rattle.names.specs.Table.{name_words};
ghost use Rattle.heading.specs.Lists.{Keeps, Standing};
ghost use Rattle.claiming.specs.Claims.{deed, class_by, ClaimsOne};
ghost use Rattle.claiming.specs.declared.Deed.TheVariants.{Claim, CopyIn};

use names::{Table, classify, copy_in, find};
use rules::Class;
use syntax::{ClauseKind, Rank};

// ---- readings

// Which of the two readings it is.
#[derive(Clone, Copy, Debug, PartialEq, Eq)]
pub enum Reading {
    Classes,
    Copies,
}

// What is done with a name of a clause: nothing; it gets the class of the clause; it is copied in.
#[derive(Clone, Copy, Debug, PartialEq, Eq)]
pub enum Deed {
    Skip,
    Claim { kind: ClauseKind },
    CopyIn,
}

// What a reading does with the names of a clause.
pub fn deed_of(reading: Reading, kind: ClauseKind) -> Deed
    ensures { result ≡ deed reading kind }
{
    match (reading, kind) {
        (Reading::Classes, ClauseKind::Firstprivate) => Deed::Skip,
        (Reading::Copies, ClauseKind::Firstprivate) => Deed::CopyIn,
        (Reading::Classes, kind) => Deed::Claim { kind },
        (Reading::Copies, _) => Deed::Skip,
    }
}

// ---- names

// The class that a clause gives its names (RULES 1.7 d): here a clause becomes a class.
fn class_of(kind: ClauseKind) -> Class
    ensures { result ≡ class_by kind }
{
    match kind {
        ClauseKind::Shared => Class::Shared,
        ClauseKind::Lastprivate => Class::Lastprivate,
        ClauseKind::Firstprivate => Class::Copied,
        ClauseKind::Reduction { operator } => Class::Reduction(operator),
    }
}

// A name in a clause: the rank with that of the name, which is declared and stands in no clause before.
fn claim(table: &mut Table, w: &[u8], kind: ClauseKind, rank: Rank) -> Rank
    requires { (length w.now ≤ name_words) × Standing table.old }
    ensures claims_one { ClaimsOne (Claim kind) table.old w.now (level rank) table.new (level result) }
    ensures keeps { Keeps table.old table.new × Standing table.new }
{
    match find(table, w) {
        Some(n) if !n.claimed => {
            classify(table, n.index, class_of(kind));
            rank
        }
        _ => Rank::WrongName,
    }
}

// A name in `firstprivate`: the rank with that of the name, which is lastprivate and not copied in yet.
fn copy(table: &mut Table, w: &[u8], rank: Rank) -> Rank
    requires { (length w.now ≤ name_words) × Standing table.old }
    ensures claims_one { ClaimsOne CopyIn table.old w.now (level rank) table.new (level result) }
    ensures keeps { Keeps table.old table.new × Standing table.new }
{
    match find(table, w) {
        Some(n) if n.class == Class::Lastprivate => {
            copy_in(table, n.index);
            rank
        }
        _ => Rank::WrongName,
    }
}

// A name of a clause, and what is to be done with it.
pub fn dispose(table: &mut Table, w: &[u8], deed: Deed, rank: Rank) -> Rank
    requires { (length w.now ≤ name_words) × Standing table.old }
    ensures claims_one { ClaimsOne deed table.old w.now (level rank) table.new (level result) }
    ensures keeps { Keeps table.old table.new × Standing table.new }
{
    match deed {
        Deed::Skip => rank,
        Deed::Claim { kind } => claim(table, w, kind, rank),
        Deed::CopyIn => copy(table, w, rank),
    }
}
