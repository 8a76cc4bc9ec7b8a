// The steps of the readers of expressions that call no reader: ranks, signs, the instructions that are emitted, and factors of one token.
#![tactic(auto)]

ghost use Rattle.std.specs.Prelude.{◌≡◌, [], ◌∷◌, cond, suc, ◌≤◌, ◌+◌, ◌*◌, max, leb, length, drop, set, false, MatchOption};
ghost use Rattle.syntax.specs.Ranks.{level};
ghost use Rattle.code.specs.Instr.{add, subtract, multiply, divide, operation as operation_of, words};
ghost use Rattle.code.specs.Compile.{code_lead, calls};
ghost use Rattle.parts.specs.Parts.{kind_at, text_at, Sign, stands, lead_by, chosen, Joins, called_at, Begins, Closes, Fits, Ranked, Worded, span_of, extents_argument, Emits, Fetches, Pushes, Loads};
ghost use Rattle.names.specs.Table.{name_words};

use code::{
    ADD, DIVIDE, FLATTEN, LINE, LOAD, LOAD_AT, MAXIMUM, MULTIPLY, NEGATE, PUSH, PUSH_V, ROUND,
    SUBTRACT,
};
use lexer::{Kind, literal, reads, token};
use names::{Table, VARIABLE, find, is_named, subscripts_of};
use syntax::{Function, Rank};

// Where a reader stopped: the next place of the line and of the code, and the worst rank so far.
#[derive(Clone, Copy, Debug, PartialEq, Eq)]
pub struct Got {
    pub at: usize,
    pub place: usize,
    pub rank: Rank,
}

// Which of two signs stands at a place. No Option of a sign: a lead is one of the three, and `next` of `Joined` goes with each, so it is no plainer.
#[derive(Clone, Copy, Debug, PartialEq, Eq)]
pub enum Joint {
    Neither,
    First,
    Second,
}

// A sign or none, and the place after it.
#[derive(Clone, Copy, Debug, PartialEq, Eq)]
pub struct Joined {
    pub joint: Joint,
    pub next: usize,
}

// How a factor begins: with a literal, a bracket, a function and a bracket, a name, or a name and a bracket.
#[derive(Clone, Copy, Debug, PartialEq, Eq)]
pub enum Beginning {
    Literal,
    Bracket,
    Call { function: Function },
    Name,
    Element,
}

// A beginning, and the place after it.
#[derive(Clone, Copy, Debug, PartialEq, Eq)]
pub struct Begun {
    pub beginning: Beginning,
    pub next: usize,
}

// What is emitted for a name: the read of its cell; that of an element, whose subscript is pending; the place of a grid's two subscripts, which are pending.
#[derive(Clone, Copy, Debug, PartialEq, Eq)]
pub enum Fetch {
    Cell,
    Indexed,
    Place,
}

// The two words of an instruction.
#[derive(Clone, Copy, Debug, PartialEq, Eq)]
struct Words {
    operation: u32,
    argument: u32,
}

// ---- ranks

// The worst rank, once as many brackets are open together.
pub fn opened(rank: Rank, depth: usize) -> Rank
    ensures { level result ≡ max (level rank) (cond (leb depth 8) 0 1) }
{
    if depth <= 8 {
        rank
    } else {
        rank.worse(Rank::OverLimit)
    }
}

// The rank of a literal.
fn literal_rank(n: u32) -> Rank
    ensures { level result ≡ cond (leb n 2147483647) 0 1 }
{
    if n <= 2147483647 {
        Rank::InOrder
    } else {
        Rank::OverLimit
    }
}

// Whether a name may have so many subscripts: the loop's variable none, a declared one as many as it has extents.
fn fits(table: &Table, w: &[u8], subscripts: u32) -> bool
    requires { length w.now ≤ name_words }
    ensures { Fits table.now w.now subscripts result }
{
    if is_named(table, VARIABLE, w) {
        return subscripts == 0;
    }
    match find(table, w) {
        Some(n) => subscripts == subscripts_of(n.rows, n.columns),
        None => false,
    }
}

// The worst rank, with that of the name at a place.
pub fn named(s: &[u8], at: usize, rank: Rank, table: &Table, subscripts: u32) -> Rank
    requires { (at ≤ length s.now) × (kind_at s.now at ≡ 1) }
    ensures { Ranked table.now (text_at s.now at) subscripts rank result }
{
    let t = token(s, at);
    if fits(table, &s[t.start..t.stop], subscripts) {
        rank
    } else {
        Rank::WrongName
    }
}

// ---- signs

// Which of two signs stands at a place.
pub fn join(s: &[u8], at: usize, a: u8, b: u8) -> Joined
    requires { (at ≤ length s.now) × Sign a × Sign b }
    ensures { Joins a b s.now at result }
{
    let t = token(s, at);
    if reads(s, t, &[a]) {
        Joined {
            joint: Joint::First,
            next: t.stop,
        }
    } else if reads(s, t, &[b]) {
        Joined {
            joint: Joint::Second,
            next: t.stop,
        }
    } else {
        Joined {
            joint: Joint::Neither,
            next: at,
        }
    }
}

// A function with its bracket; without, it begins no factor.
fn called(function: Function, bracketed: bool, past: usize) -> Option<Begun>
    ensures { result ≡ called_at function bracketed past }
{
    if bracketed {
        Some(Begun {
            beginning: Beginning::Call { function },
            next: past,
        })
    } else {
        None
    }
}

// How the factor at a place begins, where one does.
pub fn begin(s: &[u8], at: usize) -> Option<Begun>
    requires { at ≤ length s.now }
    ensures { Begins s.now at result }
{
    let t = token(s, at);
    if t.kind == Kind::Digits {
        return Some(Begun {
            beginning: Beginning::Literal,
            next: t.stop,
        });
    }
    if reads(s, t, b"(") {
        return Some(Begun {
            beginning: Beginning::Bracket,
            next: t.stop,
        });
    }
    let u = token(s, t.stop);
    let open = reads(s, u, b"(");
    if reads(s, t, b"rdiv") {
        return called(Function::Rdiv, open, u.stop);
    }
    if reads(s, t, b"max") {
        return called(Function::Max, open, u.stop);
    }
    if t.kind != Kind::Name {
        return None;
    }
    if open {
        Some(Begun {
            beginning: Beginning::Element,
            next: u.stop,
        })
    } else {
        Some(Begun {
            beginning: Beginning::Name,
            next: t.stop,
        })
    }
}

// Reads a sign after what was read.
pub fn expect(s: &[u8], g: Got, c: u8) -> Option<Got>
    requires { (g.at ≤ length s.now) × Sign c }
    ensures { MatchOption result (stands c (drop g.at s.now) ≡ false) (Closes c s.now g) }
{
    let t = token(s, g.at);
    if reads(s, t, &[c]) {
        Some(Got { at: t.stop, ..g })
    } else {
        None
    }
}

// ---- instructions

// Writes an instruction's two words.
pub fn emit(code: &mut [u32], place: usize, operation: u32, argument: u32)
    requires { 2 * (place + 1) ≤ length code.old }
    ensures { code.new ≡ set (set code.old (2 * place) operation) (suc (2 * place)) argument }
{
    let i = 2 * place;
    code[i] = operation;
    code[i + 1] = argument;
}

// Writes an instruction after what was read.
pub fn then_emit(g: Got, code: &mut [u32], operation: u32, argument: u32) -> Got
    requires { 2 * (g.place + 1) ≤ length code.old }
    ensures { Emits 1 (operation ∷ argument ∷ []) g code.old code.new result }
{
    emit(code, g.place, operation, argument);
    Got {
        place: g.place + 1,
        ..g
    }
}

// Writes the instruction of a leading minus, the second of the two signs, after what was read.
pub fn then_negate(g: Got, code: &mut [u32], lead: Joint) -> Got
    requires { 2 * (g.place + length (code_lead (lead_by lead))) ≤ length code.old }
    ensures { Emits (length (code_lead (lead_by lead))) (words (code_lead (lead_by lead))) g code.old code.new result }
{
    match lead {
        Joint::Neither | Joint::First => g,
        Joint::Second => then_emit(g, code, NEGATE, 0),
    }
}

// The operation of a further term, after + or -.
pub fn term_operation(sign: Joint) -> u32
    ensures { result ≡ operation_of (chosen sign add subtract) }
{
    match sign {
        Joint::First => ADD,
        Joint::Second | Joint::Neither => SUBTRACT,
    }
}

// The operation of a further factor, after * or /.
pub fn factor_operation(sign: Joint, line: u32) -> u32
    requires { line ≤ 2049 }
    ensures { result ≡ operation_of (chosen sign multiply (divide line)) }
{
    match sign {
        Joint::First => MULTIPLY,
        Joint::Second | Joint::Neither => DIVIDE + LINE * line,
    }
}

// The operation of a function.
pub fn call_operation(function: Function, line: u32) -> u32
    requires { line ≤ 2049 }
    ensures { result ≡ operation_of (calls line function) }
{
    match function {
        Function::Rdiv => ROUND + LINE * line,
        Function::Max => MAXIMUM,
    }
}

// A first cell and a length in one argument. A table of names within the limits has no others.
pub fn span(first: u32, size: u32) -> u32
    ensures { result ≡ span_of first size }
{
    if first <= code::ELEMENT && size <= code::ELEMENT {
        first + code::ELEMENT * size
    } else {
        0
    }
}

// Two extents in one argument. A table of names within the limits has no others.
fn extents(rows: u32, columns: u32) -> u32
    ensures { result ≡ extents_argument rows columns }
{
    if rows <= 4096 && columns <= 4096 {
        rows + code::EXTENT * columns
    } else {
        0
    }
}

// The instruction of a name.
fn read_of(table: &Table, w: &[u8], line: u32, fetch: Fetch) -> Words
    requires { (length w.now ≤ name_words) × (line ≤ 2049) }
    ensures { Worded table.now line w.now fetch result }
{
    let n = find(table, w);
    match fetch {
        Fetch::Indexed => Words {
            operation: LOAD_AT + LINE * line,
            argument: n.map_or(0, |n| span(n.first, n.size)),
        },
        Fetch::Place => Words {
            operation: FLATTEN + LINE * line,
            argument: n.map_or(0, |n| extents(n.rows, n.columns)),
        },
        Fetch::Cell if is_named(table, VARIABLE, w) => Words {
            operation: PUSH_V,
            argument: 0,
        },
        Fetch::Cell => Words {
            operation: LOAD,
            argument: n.map_or(0, |n| n.first),
        },
    }
}

// Writes the instruction of the name at a place after what was read.
pub fn then_read(
    s: &[u8],
    at: usize,
    line: u32,
    table: &Table,
    code: &mut [u32],
    g: Got,
    fetch: Fetch,
) -> Got
    requires { (at ≤ length s.now) × (kind_at s.now at ≡ 1) × (line ≤ 2049) × (2 * (g.place + 1) ≤ length code.old) }
    ensures { Fetches table.now s.now at line fetch g code.old code.new result }
{
    let t = token(s, at);
    let i = read_of(table, &s[t.start..t.stop], line, fetch);
    then_emit(g, code, i.operation, i.argument)
}

// ---- factors of one token

// A literal.
pub fn constant(s: &[u8], from: Got, code: &mut [u32]) -> Got
    requires { (from.at ≤ length s.now) × (kind_at s.now from.at ≡ 3) × (2 * (from.place + 1) ≤ length code.old) }
    ensures { Pushes s.now from.at from.place (level from.rank) code.old code.new result }
{
    let t = token(s, from.at);
    let n = literal(s, t);
    let g = Got {
        at: t.stop,
        rank: from.rank.worse(literal_rank(n)),
        ..from
    };
    then_emit(g, code, PUSH, n)
}

// A name without a subscript.
pub fn variable(s: &[u8], from: Got, line: u32, table: &Table, code: &mut [u32]) -> Got
    requires { (from.at ≤ length s.now) × (kind_at s.now from.at ≡ 1) × (line ≤ 2049) × (2 * (from.place + 1) ≤ length code.old) }
    ensures { Loads table.now s.now from.at line from.place (level from.rank) code.old code.new result }
{
    let t = token(s, from.at);
    let g = Got {
        at: t.stop,
        rank: named(s, from.at, from.rank, table, 0),
        ..from
    };
    then_read(s, from.at, line, table, code, g, Fetch::Cell)
}
