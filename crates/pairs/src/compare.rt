// The matrix of rows against every two of them.
ghost use Rattle.std.specs.Prelude.{◌+◌, ◌*◌, ◌≤◌, ◌<◌, length};
ghost use Rattle.rowset.specs.Limits.{row_limit};
ghost use Rattle.rowset.specs.Member.{set_words};
ghost use Rattle.meeting.specs.Rows.{GivenMeet};
ghost use Rattle.pairs.specs.Check.{check_limit};
ghost use Rattle.pairs.specs.Held.{Listed};

use meeting::rows::{gather, meet};
use overlap::pair::rows_meet;
use rowset::set::{ROWS, SET_WORDS, WORD};
use sets::set::has;
use shown::print;
use std::io;

const MATRIX: usize = SET_WORDS * ROWS;

// A check number is below this prime; with each pair that meets it is multiplied, and the pair added.
const PRIME: usize = 4294967291;

const FACTOR: usize = 65599;

fn one(b: bool) -> usize
    ensures { result ≤ 1 }
{
    if b {
        return 1;
    }
    0
}

fn by_matrix(m: &[u64], i: usize, j: usize) -> bool
    requires { (j < row_limit) × (i < row_limit) × (set_words * i + set_words ≤ length m.now) }
{
    has(m[SET_WORDS * i + j / WORD], (j % WORD) as u32)
}

// No row behind the last meets one.
fn by_pair(t: &[u16], a: &[u64], n: usize, begins: &[u64; ROWS], i: usize, j: usize) -> bool
    requires { GivenMeet t.now a.now n begins.now (set_words * row_limit) × (i < n) }
{
    if n <= j {
        return false;
    }
    let x = begins[i] as usize;
    let y = begins[j] as usize;
    rows_meet(t, &a[x..], &a[y..])
}

// The check number with a pair more, where it meets.
fn checked(h: usize, k: usize, meets: bool) -> usize
    requires { (h < check_limit) × (k < row_limit * row_limit) }
    ensures { result < check_limit }
{
    if meets {
        return (FACTOR * h + k + 1) % PRIME;
    }
    h
}

fn line(
    rt: &impl Print,
    t: &[u16],
    a: &[u64],
    n: usize,
    begins: &[u64; ROWS],
    m: &[u64; MATRIX],
) -> io::Result<()>
    requires { GivenMeet t.now a.now n begins.now (set_words * row_limit) }
{
    let mut matrix = 0;
    let mut pairs = 0;
    let mut differ = 0;
    let mut check = 0;
    let mut k = 0;
    while k < n * ROWS {
        let x = by_matrix(m, k / ROWS, k % ROWS);
        let y = by_pair(t, a, n, begins, k / ROWS, k % ROWS);
        check = checked(check, k, x);
        matrix += one(x);
        pairs += one(y);
        differ += one(x != y);
        k += 1;
    }
    print::number(rt, n)?;
    print::spaced(rt, matrix)?;
    print::spaced(rt, pairs)?;
    print::spaced(rt, differ)?;
    print::spaced(rt, check)?;
    print::end(rt)
}

// A line for the rows of a list.
pub fn compare(rt: &impl Print, t: &[u16], a: &[u64]) -> io::Result<()>
    requires { Listed t.now a.now }
{
    let mut begins = [0u64; ROWS];
    let n = gather(a, 0, 0, &mut begins);
    let mut cur = [0u64; ROWS];
    gather(a, 0, 0, &mut cur);
    let mut m = [0u64; MATRIX];
    meet(t, a, n, &mut cur, &mut m);
    line(rt, t, a, n, &begins, &m)
}
