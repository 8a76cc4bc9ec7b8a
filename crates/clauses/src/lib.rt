// The directive (RULES 1.7), after its first words: its clauses, which are read twice. What each reading does with their names is in
// crates/claiming.
#![tactic(auto)]

ghost use Rattle.std.specs.Prelude.{◌≡◌, ◌&&◌, ◌≤◌, ◌<◌, ◌+◌, min, eqb, leb, length, IfSome};
ghost use Rattle.syntax.specs.Bytes.{between};
ghost use Rattle.syntax.specs.Grammar.{number, static};
ghost use Rattle.syntax.specs.Known.{grouping_by};
ghost use Rattle.syntax.specs.Ranks.{level};
ghost use Rattle.syntax.specs.Reader.{read_operator, read_kind, read_threads, read_static, peek_in, skip_in};
ghost use Rattle.lexer.specs.Places.{Finds, Numbers};
ghost use Rattle.heading.specs.Lists.{Keeps, Standing};
ghost use Rattle.clauses.specs.Directive.{ClaimAt, Claims, NamesAt, ClauseAt, Clauses, none_before, Directive};

use claiming::{Deed, Reading, deed_of, dispose};
use heading::{Headed, ranked};
use lexer::{Number, digits, is_end, name, pass};
use names::Table;
use rules::{Grouping, Operator};
use syntax::{ClauseKind, Rank};

// ---- names

// A name in a clause, after others.
fn claim_at(s: &[u8], table: &mut Table, deed: Deed, before: Headed) -> Option<Headed>
    requires { Standing table.old }
    ensures claim_at { ClaimAt deed table.old s.now before table.new result }
    ensures keeps { Keeps table.old table.new × Standing table.new }
{
    let x = name(s, before.next)?;
    Some(Headed {
        next: x.next,
        rank: dispose(table, &s[x.start..x.next], deed, before.rank),
    })
}

// The names of a clause, after others.
fn claims(s: &[u8], table: &mut Table, deed: Deed, before: Headed) -> Option<Headed>
    requires { Standing table.old }
    ensures claims { Claims deed table.old s.now before table.new result }
    ensures keeps { Keeps table.old table.new × Standing table.new }
{
    let c = claim_at(s, table, deed, before)?;
    match pass(s, c.next, b",") {
        Some(next) => claims(s, table, deed, Headed { next, ..c }),
        None => Some(c),
    }
}

// ---- clauses

// The operator of a reduction (RULES 1.7), and the place after it.
#[derive(Clone, Copy, Debug, PartialEq, Eq)]
pub struct Operated {
    pub next: usize,
    pub operator: Operator,
}

fn operator_at(s: &[u8], at: usize) -> Option<Operated>
    ensures { Finds (λ r. r.next) (λ r o. r.operator ≡ o) s.now at (read_operator peek_in skip_in) result }
{
    if let Some(next) = pass(s, at, b"+") {
        return Some(Operated {
            next,
            operator: Operator::Sum,
        });
    }
    if let Some(next) = pass(s, at, b"*") {
        return Some(Operated {
            next,
            operator: Operator::Product,
        });
    }
    let next = pass(s, at, b"max")?;
    Some(Operated {
        next,
        operator: Operator::Maximum,
    })
}

// What the words and signs before the names of a clause say, and the place after them.
#[derive(Clone, Copy, Debug, PartialEq, Eq)]
pub struct Opened {
    pub next: usize,
    pub kind: ClauseKind,
}

fn kind_at(s: &[u8], at: usize) -> Option<Opened>
    ensures finds { Finds (λ r. r.next) (λ r k. r.kind ≡ k) s.now at (read_kind peek_in skip_in) result }
    ensures at_lt_next { IfSome result (λ r. at < r.next) }
{
    if let Some(word) = pass(s, at, b"shared") {
        return Some(Opened {
            next: pass(s, word, b"(")?,
            kind: ClauseKind::Shared,
        });
    }
    if let Some(word) = pass(s, at, b"lastprivate") {
        return Some(Opened {
            next: pass(s, word, b"(")?,
            kind: ClauseKind::Lastprivate,
        });
    }
    if let Some(word) = pass(s, at, b"firstprivate") {
        return Some(Opened {
            next: pass(s, word, b"(")?,
            kind: ClauseKind::Firstprivate,
        });
    }
    let word = pass(s, at, b"reduction")?;
    let open = pass(s, word, b"(")?;
    let o = operator_at(s, open)?;
    Some(Opened {
        next: pass(s, o.next, b":")?,
        kind: ClauseKind::Reduction {
            operator: o.operator,
        },
    })
}

// A clause with names.
fn names_at(s: &[u8], table: &mut Table, reading: Reading, before: Headed) -> Option<Headed>
    requires { Standing table.old }
    ensures names_at { NamesAt reading table.old s.now before table.new result }
    ensures keeps { Keeps table.old table.new × Standing table.new }
    ensures at_lt_next { IfSome result (λ r. before.next < r.next) }
{
    let k = kind_at(s, before.next)?;
    let deed = deed_of(reading, k.kind);
    let opened = Headed {
        next: k.next,
        ..before
    };
    let c = claims(s, table, deed, opened)?;
    Some(Headed {
        next: pass(s, c.next, b")")?,
        ..c
    })
}

// What follows `num_threads`: its number, up to 2^31.
fn threads_at(s: &[u8], at: usize) -> Option<Number>
    ensures { Finds (λ r. r.next) Numbers s.now at (read_threads peek_in skip_in) result }
{
    let open = pass(s, at, b"(")?;
    let d = digits(s, open)?;
    Some(Number {
        next: pass(s, d.next, b")")?,
        ..d
    })
}

// Whether there are 1 to 8 processors.
fn few(processors: u32) -> bool
    ensures { result ≡ between 1 8 processors }
{
    1 <= processors && processors <= 8
}

// What follows `schedule`, which is `(static)`: the place after it (RULES 1.7).
fn static_at(s: &[u8], at: usize) -> Option<usize>
    ensures { Finds (λ next. next) (λ next c. static ≡ c) s.now at (read_static peek_in skip_in) result }
{
    let open = pass(s, at, b"(")?;
    let word = pass(s, open, b"static")?;
    pass(s, word, b")")
}

// One more, up to 2.
fn again(times: u32) -> u32
    ensures { result ≡ min (times + 1) 2 }
{
    times.saturating_add(1).min(2)
}

// What clauses come to: the place after them, the highest rank, how often `num_threads` stands, up to 2, and the number that it gives last, up to 2^31;
// how often `schedule(static)` stands, up to 2.
#[derive(Clone, Copy, Debug, PartialEq, Eq)]
pub struct Directed {
    pub next: usize,
    pub rank: Rank,
    pub threads: u32,
    pub processors: u32,
    pub statics: u32,
}

// Whether `num_threads` stands once and `schedule(static)` at most once.
pub fn stands_rightly(threads: u32, statics: u32) -> bool
    ensures { result ≡ eqb threads 1 && leb statics 1 }
{
    threads == 1 && statics <= 1
}

// How a text's iterations are grouped in which `schedule(static)` stands so often.
pub fn grouping_of(statics: u32) -> Grouping
    ensures { result ≡ grouping_by statics }
{
    if statics == 0 {
        Grouping::Iterations
    } else {
        Grouping::Blocks
    }
}

// A clause after others.
fn clause_at(s: &[u8], table: &mut Table, reading: Reading, before: Directed) -> Option<Directed>
    requires { Standing table.old }
    ensures clause_at { ClauseAt reading table.old s.now before table.new result }
    ensures keeps { Keeps table.old table.new × Standing table.new }
    ensures next_lt_next { IfSome result (λ r. before.next < r.next) }
{
    if let Some(word) = pass(s, before.next, b"num_threads") {
        let n = threads_at(s, word)?;
        return Some(Directed {
            next: n.next,
            rank: ranked(before.rank, true, few(n.number)),
            threads: again(before.threads),
            processors: n.number,
            ..before
        });
    }
    if let Some(word) = pass(s, before.next, b"schedule") {
        return Some(Directed {
            next: static_at(s, word)?,
            statics: again(before.statics),
            ..before
        });
    }
    let named = Headed {
        next: before.next,
        rank: before.rank,
    };
    let c = names_at(s, table, reading, named)?;
    Some(Directed {
        next: c.next,
        rank: c.rank,
        ..before
    })
}

// Clauses up to the line's end, after others.
fn clauses(s: &[u8], table: &mut Table, reading: Reading, before: Directed) -> Option<Directed>
    requires { Standing table.old }
    ensures clauses { Clauses reading table.old s.now before table.new result }
    ensures keeps { Keeps table.old table.new × Standing table.new }
{
    if s.len() < before.next {
        return None;
    }
    if is_end(s, before.next) {
        return Some(before);
    }
    let c = clause_at(s, table, reading, before)?;
    clauses(s, table, reading, c)
}

// ---- the directive

// No clause before the first; names and limits came to a rank.
fn none_before(at: usize, rank: Rank) -> Directed
    ensures { result ≡ none_before at rank }
{
    Directed {
        next: at,
        rank,
        threads: 0,
        processors: 0,
        statics: 0,
    }
}

// The directive, after `parallel do`. Both readings come to the same numbers but for the rank, and the second goes on with that of the first.
pub fn directive(s: &[u8], at: usize, table: &mut Table) -> Option<Directed>
    requires { Standing table.old }
    ensures directive { Directive table.old s.now at table.new result }
    ensures keeps { Keeps table.old table.new }
{
    let classes = clauses(s, table, Reading::Classes, none_before(at, Rank::InOrder))?;
    clauses(s, table, Reading::Copies, none_before(at, classes.rank))
}
