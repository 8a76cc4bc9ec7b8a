// The code of a loop body: two words for each instruction. What instructions are, do, and come to is in specs/; the numbers here are those of
// specs/Instr.antt, `operation`.
#![tactic(auto)]

ghost use Rattle.std.specs.Prelude.{◌≡◌};
ghost use Rattle.code.specs.Instr.{relation_number as number_of, relation_of as of_number};

use int32::Relation;

// The operations: the first word is an operation and LINE times the line.
pub const PUSH: u32 = 0;

pub const PUSH_V: u32 = 1;

pub const LOAD: u32 = 2;

pub const LOAD_AT: u32 = 3;

pub const ADD: u32 = 4;

pub const SUBTRACT: u32 = 5;

pub const MULTIPLY: u32 = 6;

pub const NEGATE: u32 = 7;

pub const DIVIDE: u32 = 8;

pub const ROUND: u32 = 9;

pub const STORE: u32 = 10;

pub const STORE_AT: u32 = 11;

pub const CHECK: u32 = 12;

pub const UPDATE: u32 = 13;

pub const UPDATE_AT: u32 = 14;

pub const JUMP_UNLESS: u32 = 15;

pub const JUMP: u32 = 16;

pub const MAXIMUM: u32 = 17;

pub const FLATTEN: u32 = 18;

pub const LINE: u32 = 32;

// The second word of an element: its array's first cell, and ELEMENT times how many cells that has.
pub const ELEMENT: u32 = 4096;

// The second word of a grid: its first extent, and EXTENT times its second.
pub const EXTENT: u32 = 8192;

// The second word of a jump: a relation, and DISTANCE times how many instructions it goes over.
pub const DISTANCE: u32 = 8;

// The words that hold the code of any text.
pub const WORDS: usize = 8194;

// The number of a relation in the second word of a jump.
pub fn relation_number(relation: Relation) -> u32
    ensures { result ≡ number_of relation }
{
    relation as u32
}

// The relation of a number.
pub fn relation_of(number: u32) -> Relation
    ensures { result ≡ of_number number }
{
    match number {
        0 => Relation::Equal,
        1 => Relation::Unequal,
        2 => Relation::Less,
        3 => Relation::AtMost,
        4 => Relation::Greater,
        _ => Relation::AtLeast,
    }
}
