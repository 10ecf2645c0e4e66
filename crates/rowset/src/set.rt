// A set of rows, 64 to a word.
ghost use Rattle.std.specs.Prelude.{◌≡◌, true, cond, not, ◌&&◌, ℕ, ◌*◌, ◌≤◌, ◌<◌, eqb, ltb, length};
ghost use Rattle.rowset.specs.Limits.{row_limit};
ghost use Rattle.sets.specs.Set.{set_limit};
ghost use Rattle.rowset.specs.Member.{member, set_words, FirstIn, NextIn, OnlyIn, in_word};

use sets::set::{full, has as has_bit, lowest, meet, with, without};

// The rows of all rules: no more than the rules may weigh in all.
pub const ROWS: usize = 256;

pub const WORD: usize = 64;

pub const SET_WORDS: usize = ROWS / WORD;

pub fn has(s: &[u64; SET_WORDS], r: usize) -> bool
    requires { r < row_limit }
    ensures { result ≡ member s.now r }
{
    has_bit(s[r / WORD], (r % WORD) as u32)
}

// Row r is in the set from now on exactly where b says so.
pub fn put(s: &mut [u64], r: usize, b: bool)
    requires { (r < row_limit) × (length s.old ≡ set_words) }
    ensures { (q : ℕ) → q < row_limit → member s.new q ≡ cond (eqb q r) b (member s.old q) }
{
    let w = s[r / WORD];
    let i = (r % WORD) as u32;
    if b {
        s[r / WORD] = with(w, i);
        return;
    }
    s[r / WORD] = without(w, i);
}

// The first row of n from word i on that is in the set, or n.
fn first_from(s: &[u64; SET_WORDS], i: usize, n: usize) -> usize
    requires { (i ≤ set_words) × (n ≤ row_limit) }
    ensures { NextIn s.now (set_limit * i) n result }
{
    for j in i..SET_WORDS {
        let w = s[j];
        if w > 0 {
            return (WORD * j + lowest(w) as usize).min(n);
        }
    }
    n
}

// The first row of n that is in the set, or n.
pub fn first_in(s: &[u64; SET_WORDS], n: usize) -> usize
    requires { n ≤ row_limit }
    ensures { FirstIn s.now n result }
{
    first_from(s, 0, n)
}

// The first row of n from `from` on that is in the set, or n.
pub fn next_in(s: &[u64; SET_WORDS], from: usize, n: usize) -> usize
    requires { (from ≤ n) × (n ≤ row_limit) }
    ensures { NextIn s.now from n result }
{
    if from == n {
        return n;
    }
    if has(s, from) {
        return from; // the common case, which needs no search
    }
    let i = from / WORD;
    let before = full((from % WORD) as u32);
    let w = sets::set::minus(s[i], before);
    if w > 0 {
        return (WORD * i + lowest(w) as usize).min(n);
    }
    first_from(s, i + 1, n)
}

// Of the rows of a word of a set, counted from `base` on, those below n.
pub fn below(word: u64, base: usize, n: usize) -> u64
    requires { base ≤ n }
    ensures { (q : ℕ) → in_word base result q ≡ (in_word base word q && ltb q n) }
{
    if n - base < WORD {
        let low = full((n - base) as u32);
        return meet(word, low);
    }
    word
}

// The rows of x are those of s from now on.
pub fn copy(s: &[u64; SET_WORDS], x: &mut [u64])
    requires { length x.old ≡ set_words }
    ensures { (q : ℕ) → q < row_limit → member x.new q ≡ member s.now q }
{
    x.copy_from_slice(s);
}

// The rows of s that are not in x.
pub fn minus(s: &[u64; SET_WORDS], x: &[u64; SET_WORDS]) -> [u64; SET_WORDS]
    ensures { (q : ℕ) → q < row_limit → member result q ≡ (member s.now q && not (member x.now q)) }
{
    let mut r = [0u64; SET_WORDS];
    for w in 0..SET_WORDS {
        r[w] = sets::set::minus(s[w], x[w]);
    }
    r
}

// Whether no row but i is in the set.
pub fn is_only(s: &[u64; SET_WORDS], i: usize) -> bool
    requires { i < row_limit }
    ensures { OnlyIn s.now i result }
{
    let mut one = [0u64; SET_WORDS];
    put(&mut one, i, true);
    let others = minus(s, &one);
    first_in(&others, ROWS) == ROWS
}

// The set of the first n rows.
pub fn first_rows(n: usize) -> [u64; SET_WORDS]
    requires { n ≤ row_limit }
    ensures { (r : ℕ) → r < row_limit → member result r ≡ ltb r n }
{
    let mut s = [0; SET_WORDS];
    for r in 0..n {
        put(&mut s, r, true);
    }
    s
}
