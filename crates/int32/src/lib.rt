// The arithmetic of cells: 32-bit signed numbers (RULES 2.1 to 2.4).
#![tactic(auto)]

ghost use Rattle.std.specs.Prelude.{◌≡◌, ◌<◌, ◌≤◌, pos, FitsSigned, ◌≢◌};
ghost use Rattle.std.specs.Int.{w32};
ghost use Rattle.int32.specs.Integers.{word, value, sum, difference, product, negation, larger, truncated, quotient, rdiv, divided, nearest, related};
ghost use Rattle.int32.specs.SignWord.{sign_word};

use std::cmp::Ordering;

// The operations are the library's; each function stays, since its contract says that it is the operation of RULES (what may not change).

// The two's complement word of a number.
#[tactic(auto, using(crate::proofs::Laws::word_of_z))]
pub fn to_word(x: i32) -> u32
    ensures { result ≡ word x }
{
    x.cast_unsigned()
}

// The number that a word stands for.
#[tactic(auto, using(crate::proofs::Laws::value_to_z))]
pub fn of_word(u: u32) -> i32
    ensures { result ≡ value u }
{
    u.cast_signed()
}

// Sum, difference, product and negation wrap.
#[tactic(auto, using(crate::proofs::Laws::sum_wraps))]
pub fn add(x: i32, y: i32) -> i32
    ensures { result ≡ sum x y }
{
    x.wrapping_add(y)
}

#[tactic(auto, using(crate::proofs::Laws::difference_wraps))]
pub fn subtract(x: i32, y: i32) -> i32
    ensures { result ≡ difference x y }
{
    x.wrapping_sub(y)
}

#[tactic(auto, using(crate::proofs::Laws::negation_wraps))]
pub fn negate(x: i32) -> i32
    ensures { result ≡ negation x }
{
    x.wrapping_neg()
}

#[tactic(auto, using(crate::proofs::Laws::product_wraps))]
pub fn multiply(x: i32, y: i32) -> i32
    ensures { result ≡ product x y }
{
    x.wrapping_mul(y)
}

// The larger of two cells (RULES 2.4).
#[tactic(auto, using(crate::proofs::Signs::max_larger))]
pub fn maximum(x: i32, y: i32) -> i32
    ensures { result ≡ larger x y }
{
    x.max(y)
}

// x / y toward zero, by the cases of the signs that RULES 2.2 tells (what may not change). The numbers are those of cells; on 64 bits each of them has a
// negative.
fn truncate(x: i64, y: i64) -> i64
    requires { (FitsSigned w32 x) × (FitsSigned w32 y) × (y ≢ pos 0) }
    ensures { result ≡ truncated x y }
{
    if 0 <= x {
        if 0 <= y {
            // Neither is negative: the largest whole number not above the exact quotient.
            x / y
        } else {
            // The divisor alone is negative: the smallest whole number not below the exact quotient.
            -(x / -y)
        }
    } else {
        if 0 <= y {
            // The dividend alone is negative: the smallest whole number not below the exact quotient.
            -(-x / y)
        } else {
            // Both are negative: the largest whole number not above the exact quotient.
            -x / -y
        }
    }
}

// The quotient of two cells, if the divisor is not 0. The end of the range is a case of its own: the exact quotient of the smallest number over -1 is one more than the
// largest number, and the answer is the smallest number.
#[tactic(auto, using(crate::proofs::Division::divided_end, crate::proofs::Division::divided_zero, crate::proofs::Truncation::quotient_end))]
pub fn divide(x: i32, y: i32) -> Option<i32>
    ensures { result ≡ divided quotient x y }
{
    if y == 0 {
        return None;
    }
    if x == i32::MIN && y == -1 {
        return Some(i32::MIN);
    }
    Some(truncate(i64::from(x), i64::from(y)) as i32)
}

// A word, negated where x is negative.
#[tactic(auto, unfolding(crate::specs::SignWord::sign_word))]
fn with_sign(x: i32, m: u32) -> u32
    ensures { result ≡ sign_word x m }
{
    if 0 <= x { m } else { m.wrapping_neg() }
}

// a / b to the nearest whole number, of two nearest ones the even one.
#[tactic(auto, using(crate::proofs::Division::nearest_below, crate::proofs::Division::nearest_above, crate::proofs::Division::nearest_tie))]
fn round_half_even(a: u32, b: u32) -> u32
    requires { (a ≤ 2147483648) × (0 < b) }
    ensures { result ≡ nearest a b }
{
    let q = a / b;
    let below = a % b;
    let above = b - below;
    match below.cmp(&above) {
        Ordering::Less => q,
        Ordering::Equal => q + q % 2,
        Ordering::Greater => q + 1,
    }
}

// x / y to the nearest whole number, halves to even (RULES 2.3), if the divisor is not 0. The smallest number over -1 is the smallest number.
#[tactic(auto, using(crate::proofs::Division::divided_end, crate::proofs::Division::divided_zero, crate::proofs::Rounding::rdiv_end))]
pub fn round_divide(x: i32, y: i32) -> Option<i32>
    ensures { result ≡ divided rdiv x y }
{
    if y == 0 {
        return None;
    }
    if y == -1 && x == i32::MIN {
        return Some(i32::MIN);
    }
    let m = round_half_even(x.unsigned_abs(), y.unsigned_abs());
    Some(of_word(with_sign(x, with_sign(y, m))))
}

// How two numbers of an `if` are compared.
#[derive(Clone, Copy, Debug, PartialEq, Eq)]
pub enum Relation {
    Equal,
    Unequal,
    Less,
    AtMost,
    Greater,
    AtLeast,
}

// Whether a relation holds between two numbers.
#[tactic(auto, using(crate::proofs::Signs::test_same), unfolding(crate::specs::Integers::related))]
pub fn holds(relation: Relation, x: i32, y: i32) -> bool
    ensures { result ≡ related relation x y }
{
    match relation {
        Relation::Equal => x == y,
        Relation::Unequal => x != y,
        Relation::Less => x < y,
        Relation::AtMost => x <= y,
        Relation::Greater => y < x,
        Relation::AtLeast => y <= x,
    }
}
