// What the lines before the statements share: ranks, lists of parts, and literals with a sign.
#![tactic(auto)]

ghost use Rattle.std.specs.Prelude.{◌≡◌, ◌&&◌, leb, max};
ghost use Rattle.int32.specs.Integers.{value};
ghost use Rattle.syntax.specs.Meaning.{led};
ghost use Rattle.syntax.specs.Ranks.{level};
ghost use Rattle.lexer.specs.Places.{lead_of};
ghost use Rattle.heading.specs.Lists.{order};

use int32::{negate, of_word};
use lexer::Leading;
use syntax::Rank;

// The highest rank, where the names and the numbers of a part are in order or not.
pub fn ranked(rank: Rank, named: bool, small: bool) -> Rank
    ensures { level result ≡ max (level rank) (order named small) }
{
    rank.worse(if !named {
        Rank::WrongName
    } else if !small {
        Rank::OverLimit
    } else {
        Rank::InOrder
    })
}

// The value of an item; one over the limit stands for none.
pub fn item_value(sign: Leading, size: u32) -> i32
    ensures { result ≡ led (lead_of sign) (value size) }
{
    let n = of_word(size);
    match sign {
        Leading::Bare | Leading::Plus => n,
        Leading::Minus => negate(n),
    }
}

// Both numbers of an item are within the limit of literals.
pub fn limited(copies: u32, size: u32) -> bool
    ensures { result ≡ leb copies 2147483647 && leb size 2147483647 }
{
    copies <= 2147483647 && size <= 2147483647
}

// What a line comes to.
#[derive(Clone, Copy, Debug, PartialEq, Eq)]
pub struct Headed {
    pub next: usize,
    pub rank: Rank,
}
