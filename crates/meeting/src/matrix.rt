// The matrix of bits: a set of rows for each row.
ghost use Rattle.std.specs.Prelude.{◌≡◌, ◌&&◌, not, cond, ℕ, ◌+◌, ◌*◌, ◌≤◌, ◌<◌, eqb, length};
ghost use Rattle.sets.specs.Set.{set_limit};
ghost use Rattle.rowset.specs.Limits.{row_limit};
ghost use Rattle.rowset.specs.Member.{member, set_words, in_word};
ghost use Rattle.meeting.specs.Matrix.{meets};
ghost use Rattle.meeting.specs.Descent.{Roomy, Noted};

use rowset::set::{ROWS, SET_WORDS, WORD, first_in};
use sets::set::{lowest, minus, rest};

// The bits of row i with the rows of a set off.
fn clear_row(m: &mut [u64], i: usize, off: &[u64; SET_WORDS])
    requires { (i < row_limit) × (set_words * i + set_words ≤ length m.old) }
    ensures { Noted (λ q. eqb q i) (member off.now) m.old m.new }
{
    for w in 0..SET_WORDS {
        m[SET_WORDS * i + w] = minus(m[SET_WORDS * i + w], off[w]);
    }
}

// The same for the rows of a word, counted from `base` on.
fn note_word(m: &mut [u64], base: usize, word: u64, off: &[u64; SET_WORDS])
    requires { (base + set_limit ≤ row_limit) × Roomy (in_word base word) (length m.old) }
    ensures { Noted (in_word base word) (member off.now) m.old m.new }
{
    let mut left = word;
    while left > 0 {
        let b = lowest(left);
        clear_row(m, base + b as usize, off);
        left = rest(left);
    }
}

// The same for all rows of a set.
fn note(m: &mut [u64], s: &[u64; SET_WORDS], off: &[u64; SET_WORDS])
    requires { Roomy (member s.now) (length m.old) }
    ensures { Noted (member s.now) (member off.now) m.old m.new }
{
    for w in 0..SET_WORDS {
        note_word(m, WORD * w, s[w], off);
    }
}

// No row of the one set meets a row of the other, noted both ways.
pub fn part(m: &mut [u64], x: &[u64; SET_WORDS], y: &[u64; SET_WORDS])
    requires { Roomy (member x.now) (length m.old) × Roomy (member y.now) (length m.old) }
    ensures { (i j : ℕ) → i < row_limit → j < row_limit → meets m.new i j ≡ (meets m.old i j && not (member x.now i && member y.now j) && not (member y.now i && member x.now j)) }
{
    if first_in(y, ROWS) == ROWS {
        return;
    }
    note(m, x, y);
    note(m, y, x);
}

// Row i meets the rows of a set, and no other.
fn set_row(m: &mut [u64], i: usize, s: &[u64; SET_WORDS])
    requires { (i < row_limit) × (set_words * i + set_words ≤ length m.old) }
    ensures { (q j : ℕ) → q < row_limit → j < row_limit → meets m.new q j ≡ cond (eqb q i) (member s.now j) (meets m.old q j) }
{
    for w in 0..SET_WORDS {
        m[SET_WORDS * i + w] = s[w];
    }
}

// So do the first n rows.
pub fn set_rows(m: &mut [u64], n: usize, s: &[u64; SET_WORDS])
    requires { (n ≤ row_limit) × (set_words * n ≤ length m.old) }
    ensures { (i j : ℕ) → i < n → j < row_limit → meets m.new i j ≡ member s.now j }
{
    for i in 0..n {
        set_row(m, i, s);
    }
}

// The rows that row i meets.
pub fn row_of(m: &[u64], i: usize) -> [u64; SET_WORDS]
    requires { (i < row_limit) × (set_words * i + set_words ≤ length m.now) }
    ensures { (j : ℕ) → j < row_limit → member result j ≡ meets m.now i j }
{
    let mut r = [0u64; SET_WORDS];
    r.copy_from_slice(&m[SET_WORDS * i..SET_WORDS * i + SET_WORDS]);
    r
}
