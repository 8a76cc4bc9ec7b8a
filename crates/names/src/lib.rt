// The table of names (RULES 1.13: at most 16, and the loop's variable), as words that the reader holds. specs/Table.antt has its layout.
#![tactic(auto)]

ghost use Rattle.std.specs.Prelude.{◌≡◌, List, ◌≤◌, ◌<◌, ◌+◌, ◌*◌, ◌/◌, ◌↔◌, IsTrue, length, IfSome, MatchOption};
ghost use Rattle.rules.specs.Numbers.{class_by};
ghost use Rattle.syntax.specs.Bytes.{same};
ghost use Rattle.syntax.specs.Known.{Entry};
ghost use Rattle.names.specs.Table.{extents_of, name_words, entry_words, most_names, variable_entry, word_at, length_at, first_at, size_at, class_at, name_at, Tabled, Absent, Found, Unknown, Knows, Stands, Put, Added, Gave, Classed, CopiedIn, count_in};

use rules::Class;

// The layout, in words. Of an entry: the bytes of its name from 0 on, how many bytes, the first cell, how many cells, its two extents, facts.
const LENGTH: usize = 32;

const FIRST: usize = 33;

const SIZE: usize = 34;

const ROWS: usize = 35;

const COLUMNS: usize = 36;

const FACTS: usize = 37;

const ENTRY: usize = 38;

// Of the table: at most MOST names, one entry more for the loop's variable, and the number of names.
pub const MOST: usize = 16;

pub const VARIABLE: usize = 16;

const NUMBER: usize = 646;

pub const WORDS: usize = 647;

pub type Table = [u32; WORDS];

// What a declaration says of a name: how many cells it has, and its extents. A single cell has none, an array one, a grid two; 0 stands where there is none.
#[derive(Clone, Copy, Debug, PartialEq, Eq)]
pub struct Shape {
    pub size: u32,
    pub rows: u32,
    pub columns: u32,
}

// What is known of a declared name: where it stands in the table; its extents; whether it was given data and stands in a clause; its
// class; its first cell and how many it has.
#[derive(Clone, Copy, Debug, PartialEq, Eq)]
pub struct Named {
    pub index: usize,
    pub rows: u32,
    pub columns: u32,
    pub given: bool,
    pub claimed: bool,
    pub class: Class,
    pub first: u32,
    pub size: u32,
}

// ---- the words of an entry

fn word_at(table: &Table, i: usize, k: usize) -> usize
    requires { (i ≤ variable_entry) × (k < entry_words) }
    ensures { result ≡ word_at table.now i k }
{
    table[ENTRY * i + k] as usize
}

// How many bytes the name of entry i has.
pub fn length_of(table: &Table, i: usize) -> usize
    requires { i ≤ variable_entry }
    ensures { result ≡ length_at table.now i }
{
    word_at(table, i, LENGTH)
}

// Byte k of the name of entry i.
pub fn byte_of(table: &Table, i: usize, k: usize) -> u8
    requires { (i ≤ variable_entry) × (k < name_words) × (word_at table.now i k < 256) }
    ensures { result ≡ word_at table.now i k }
{
    word_at(table, i, k) as u8
}

// The first cell of entry i.
pub fn first_of(table: &Table, i: usize) -> usize
    requires { i ≤ variable_entry }
    ensures { result ≡ first_at table.now i }
{
    word_at(table, i, FIRST)
}

// The cell after the last of entry i.
pub fn end_of(table: &Table, i: usize) -> usize
    requires { i ≤ variable_entry }
    ensures { result ≡ first_at table.now i + size_at table.now i }
{
    table[ENTRY * i + FIRST] as usize + table[ENTRY * i + SIZE] as usize
}

// The number of the class of entry i.
pub fn class_number_of(table: &Table, i: usize) -> u32
    requires { i ≤ variable_entry }
    ensures { result ≡ class_at table.now i }
{
    table[ENTRY * i + FACTS] / 4
}

// The class of entry i.
pub fn class_of(table: &Table, i: usize) -> Class
    requires { i ≤ variable_entry }
    ensures { result ≡ class_by (class_at table.now i) }
{
    Class::of_number(class_number_of(table, i))
}

// How many subscripts a name of these extents takes.
pub fn subscripts_of(rows: u32, columns: u32) -> u32
    ensures { result ≡ length (extents_of rows columns) }
{
    if columns != 0 {
        2
    } else if rows != 0 {
        1
    } else {
        0
    }
}

// ---- names

// Whether words are these bytes, as many.
fn spells(words: &[u32], w: &[u8]) -> bool
    requires { length words.now ≡ length w.now }
    ensures { IsTrue result ↔ (words.now ≡ w.now) }
{
    words
        .iter()
        .zip(w)
        .all(|(word, byte)| *word == u32::from(*byte))
}

// Whether entry i has the name w.
pub fn is_named(table: &Table, i: usize, w: &[u8]) -> bool
    requires { (i ≤ variable_entry) × (length w.now ≤ name_words) }
    ensures { result ≡ same w.now (name_at table.now i) }
{
    let base = ENTRY * i;
    length_of(table, i) == w.len() && spells(&table[base..base + w.len()], w)
}

// How many names there are.
pub fn count(table: &Table) -> usize
    ensures { result ≡ count_in table.now }
{
    MOST.min(table[NUMBER] as usize)
}

// The first entry that has the name w.
fn position(table: &Table, w: &[u8]) -> Option<usize>
    requires { length w.now ≤ name_words }
    ensures { MatchOption result (Absent table.now (count_in table.now) w.now) (λ i. Found table.now (count_in table.now) w.now i) }
{
    for i in 0..count(table) {
        if is_named(table, i, w) {
            return Some(i);
        }
    }
    None
}

// What is known of the name w, where it is declared.
#[tactic(auto, using(crate::proofs::Laws::found_none))]
pub fn find(table: &Table, w: &[u8]) -> Option<Named>
    requires { length w.now ≤ name_words }
    ensures within { IfSome result (λ n. n.index < most_names) }
    ensures known { (t : List Entry) → Tabled table.now t
        → MatchOption result (Unknown t w.now) (λ n. Knows t w.now n × Stands table.now t w.now n) }
{
    let index = position(table, w)?;
    let base = ENTRY * index;
    let facts = table[base + FACTS];
    Some(Named {
        index,
        rows: table[base + ROWS],
        columns: table[base + COLUMNS],
        given: facts % 2 == 1,
        claimed: facts / 2 % 2 == 1,
        class: Class::of_number(facts / 4),
        first: table[base + FIRST],
        size: table[base + SIZE],
    })
}

// Writes the name of entry i.
pub fn put_name(table: &mut Table, i: usize, w: &[u8])
    requires { (i ≤ variable_entry) × (length w.now ≤ name_words) }
    ensures { Put table.old i w.now table.new }
{
    let base = ENTRY * i;
    for (k, byte) in w.iter().enumerate() {
        table[base + k] = u32::from(*byte);
    }
    table[base + LENGTH] = w.len() as u32;
}

// A name more, with its first cell and its shape. A full table is left as it is.
#[tactic(auto, using(crate::proofs::Rows::added, crate::proofs::Rows::full))]
pub fn add(table: &mut Table, w: &[u8], first: u32, shape: Shape)
    requires { length w.now ≤ name_words }
    ensures { Added table.old w.now first shape table.new }
{
    let n = count(table);
    if MOST <= n {
        return;
    }
    put_name(table, n, w);
    let base = ENTRY * n;
    table[base + FIRST] = first;
    table[base + SIZE] = shape.size;
    table[base + ROWS] = shape.rows;
    table[base + COLUMNS] = shape.columns;
    table[base + FACTS] = 0;
    table[NUMBER] = n as u32 + 1;
}

// Entry i was given data.
#[tactic(auto, using(crate::proofs::Rows::gave))]
pub fn give(table: &mut Table, i: usize)
    requires { i < most_names }
    ensures { Gave table.old i table.new }
{
    let base = ENTRY * i;
    table[base + FACTS] = table[base + FACTS] / 2 * 2 + 1;
}

// Entry i stands in a clause, and has this class.
#[tactic(auto, using(crate::proofs::Rows::classed))]
pub fn classify(table: &mut Table, i: usize, class: Class)
    requires { i < most_names }
    ensures { Classed table.old i class table.new }
{
    let base = ENTRY * i;
    table[base + FACTS] = class.number() * 4 + 2 + table[base + FACTS] % 2;
}

// Entry i is copied in (RULES 1.7 d).
#[tactic(auto, using(crate::proofs::Rows::copied_in))]
pub fn copy_in(table: &mut Table, i: usize)
    requires { i < most_names }
    ensures { CopiedIn table.old i table.new }
{
    let base = ENTRY * i;
    table[base + FACTS] = Class::Copied.number() * 4 + table[base + FACTS] % 4;
}
