// A set of heads, counted from the first of their kind, in two words: those below 64 in the one, the others in the other.
ghost use Rattle.std.specs.Prelude.{cond, ◌&&◌, ◌≡◌, ℕ, ◌+◌, ◌<◌, ◌≤◌, min, max, eqb, ltb, leb, length};
ghost use Rattle.sets.specs.Set.{heads_width, all_set, bit, members, Lowest};
ghost use Rattle.sets.specs.Heads.{number_of, two_words};

use crate::set::{ALL, SET_LIMIT};

// The highest bit of a word.
const TOP: u64 = 9223372036854775808;

#[derive(Clone, Copy, PartialEq, Eq)]
pub struct Heads {
    pub low: u64,
    pub high: u64,
}

// The set of all numbers below 128.
pub fn all() -> Heads
    ensures { result ≡ two_words all_set }
{
    Heads {
        low: ALL,
        high: ALL,
    }
}

pub fn has(s: Heads, i: u32) -> bool
    requires { i < heads_width }
    ensures { result ≡ eqb (bit (number_of s) i) 1 }
{
    if i < SET_LIMIT {
        return crate::set::has(s.low, i);
    }
    crate::set::has(s.high, i - SET_LIMIT)
}

// The set of one number.
pub fn only(i: u32) -> Heads
    requires { i < heads_width }
    ensures { (j : ℕ) → bit (number_of result) j ≡ cond (eqb j i) 1 0 }
{
    if i < SET_LIMIT {
        let low = crate::set::only(i);
        return Heads { low, high: 0 };
    }
    let high = crate::set::only(i - SET_LIMIT);
    Heads { low: 0, high }
}

pub fn without(s: Heads, i: u32) -> Heads
    requires { i < heads_width }
    ensures { (j : ℕ) → bit (number_of result) j ≡ cond (eqb j i) 0 (bit (number_of s) j) }
{
    if i < SET_LIMIT {
        let low = crate::set::without(s.low, i);
        return Heads { low, high: s.high };
    }
    let high = crate::set::without(s.high, i - SET_LIMIT);
    Heads { low: s.low, high }
}

pub fn meet(a: Heads, b: Heads) -> Heads
    ensures { (j : ℕ) → bit (number_of result) j ≡ min (bit (number_of a) j) (bit (number_of b) j) }
{
    let low = a.low & b.low;
    let high = a.high & b.high;
    Heads { low, high }
}

// The members of either.
pub fn join(a: Heads, b: Heads) -> Heads
    ensures { (j : ℕ) → bit (number_of result) j ≡ max (bit (number_of a) j) (bit (number_of b) j) }
{
    let low = a.low | b.low;
    let high = a.high | b.high;
    Heads { low, high }
}

// The members of a that are not in b.
pub fn minus(a: Heads, b: Heads) -> Heads
    ensures { (j : ℕ) → bit (number_of result) j ≡ cond (eqb (bit (number_of b) j) 1) 0 (bit (number_of a) j) }
{
    let low = a.low & !b.low;
    let high = a.high & !b.high;
    Heads { low, high }
}

pub fn size(s: Heads) -> u32
    ensures { (result ≡ length (members (number_of s))) × (result ≡ 0 → (j : ℕ) → bit (number_of s) j ≡ 0) }
{
    u64::count_ones(s.low) + u64::count_ones(s.high)
}

// Neither word has a one. To tell the sum of their counts from 0, both would have to be counted.
pub fn is_empty(s: Heads) -> bool
    ensures { result ≡ eqb (number_of s) 0 }
{
    if u64::count_ones(s.low) > 0 {
        return false;
    }
    u64::count_ones(s.high) == 0
}

pub fn lowest(s: Heads) -> u32
    requires { 0 < number_of s }
    ensures { Lowest heads_width (number_of s) result }
{
    if s.low > 0 {
        return u64::trailing_zeros(s.low);
    }
    SET_LIMIT + u64::trailing_zeros(s.high)
}

// The numbers below n.
pub fn full(n: u32) -> Heads
    requires { n ≤ heads_width }
    ensures { (j : ℕ) → bit (number_of result) j ≡ cond (ltb j n) 1 0 }
{
    if n <= SET_LIMIT {
        let low = crate::set::full(n);
        return Heads { low, high: 0 };
    }
    let high = crate::set::full(n - SET_LIMIT);
    Heads { low: ALL, high }
}

// The numbers from low to high, both included.
pub fn between(low: u32, high: u32) -> Heads
    requires { (low ≤ high) × (high < heads_width) }
    ensures { (j : ℕ) → bit (number_of result) j ≡ cond (leb low j && leb j high) 1 0 }
{
    let upto = full(high + 1);
    let below = full(low);
    minus(upto, below)
}

// The numbers that are one less than a member.
fn lowered(s: Heads) -> Heads
    ensures { (j : ℕ) → bit (number_of result) j ≡ bit (number_of s) (j + 1) }
{
    let low = s.low / 2 + s.high % 2 * TOP;
    let high = s.high / 2;
    Heads { low, high }
}

// Each v where just one of v and v + 1 is a member.
pub fn edges(s: Heads) -> Heads
    ensures { (j : ℕ) → bit (number_of result) j ≡ cond (eqb (bit (number_of s) j) (bit (number_of s) (j + 1))) 0 1 }
{
    let b = lowered(s);
    let last = minus(s, b);
    let first = minus(b, s);
    join(last, first)
}
