// A set of numbers below 64, in a u64: i is a member where bit i is set.
ghost use Rattle.std.specs.Prelude.{cond, ◌≡◌, ℕ, ◌<◌, ◌≤◌, min, max, eqb, ltb, length};
ghost use Rattle.sets.specs.Set.{set_limit, bit, members, Lowest};

pub const SET_LIMIT: u32 = 64;

// The set of all numbers.
pub const ALL: u64 = 18446744073709551615;

pub fn has(s: u64, i: u32) -> bool
    requires { i < set_limit }
    ensures { result ≡ eqb (bit s i) 1 }
{
    (s >> i) & 1 == 1
}

// The set of one number.
pub fn only(i: u32) -> u64
    requires { i < set_limit }
    ensures { (j : ℕ) → bit result j ≡ cond (eqb j i) 1 0 }
{
    1 << i
}

pub fn with(s: u64, i: u32) -> u64
    requires { i < set_limit }
    ensures { (j : ℕ) → bit result j ≡ cond (eqb j i) 1 (bit s j) }
{
    s | (1 << i)
}

pub fn without(s: u64, i: u32) -> u64
    requires { i < set_limit }
    ensures { (j : ℕ) → bit result j ≡ cond (eqb j i) 0 (bit s j) }
{
    s & !(1 << i)
}

pub fn meet(a: u64, b: u64) -> u64
    ensures { (j : ℕ) → bit result j ≡ min (bit a j) (bit b j) }
{
    a & b
}

pub fn join(a: u64, b: u64) -> u64
    ensures { (j : ℕ) → bit result j ≡ max (bit a j) (bit b j) }
{
    a | b
}

// The members of a that are not in b.
pub fn minus(a: u64, b: u64) -> u64
    ensures { (j : ℕ) → bit result j ≡ cond (eqb (bit b j) 1) 0 (bit a j) }
{
    a & !b
}

pub fn size(s: u64) -> u32
    ensures { (result ≡ length (members s)) × (result ≡ 0 → (j : ℕ) → bit s j ≡ 0) }
{
    u64::count_ones(s)
}

pub fn lowest(s: u64) -> u32
    requires { 0 < s }
    ensures { Lowest set_limit s result }
{
    u64::trailing_zeros(s)
}

// The set without its lowest member, whose number need not be known first: a loop over a set is not kept waiting for it.
pub fn rest(s: u64) -> u64
    requires { 0 < s }
    ensures { (b : ℕ) → Lowest set_limit s b → (j : ℕ) → bit result j ≡ cond (eqb j b) 0 (bit s j) }
{
    s & (s - 1)
}

// The numbers below n. A shift by 64 is none, so all 64 are written out.
pub fn full(n: u32) -> u64
    requires { n ≤ set_limit }
    ensures { (j : ℕ) → bit result j ≡ cond (ltb j n) 1 0 }
{
    if n == SET_LIMIT {
        return ALL;
    }
    (1 << n) - 1
}
