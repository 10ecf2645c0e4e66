// Which rows of a list meet.
ghost use Rattle.std.specs.Prelude.{◌≡◌, ◌+◌, ◌*◌, ◌≤◌, ◌<◌, length};
ghost use Rattle.signature.specs.Decoded.{decoded_length};
ghost use Rattle.rowset.specs.Limits.{row_limit};
ghost use Rattle.rowset.specs.Member.{set_words};
ghost use Rattle.meeting.specs.Rows.{GivenGather, Gathers, GivenMeet, Matrix, FirstMet, SomeMet};

use crate::matrix::{row_of, set_rows};
use crate::visit::visit;
use pattern::limits::PATTERN_WORDS;
use rowset::set::{ROWS, SET_WORDS, first_in, first_rows};

// The words of a matrix of all rows that there may be.
pub const MATRIX: usize = SET_WORDS * ROWS;

// The rows of the list that begins at a word, behind n rows that are gathered: how many there are then.
pub fn gather(a: &[u64], at: usize, n: usize, cur: &mut [u64]) -> usize
    requires { GivenGather a.now at n cur.old × (length cur.old ≡ row_limit) }
    ensures { (g : GivenGather a.now at n cur.old) → Gathers g result cur.new }
{
    let mut from = at;
    let mut q = n;
    while a[from] > 0 {
        let len = a[from] as usize;
        cur[q] = (from + 1) as u64;
        q += 1;
        from = from + 1 + len;
    }
    q
}

// The matrix of n rows that are gathered.
pub fn meet(t: &[u16], a: &[u64], n: usize, cur: &mut [u64; ROWS], m: &mut [u64])
    requires { GivenMeet t.now a.now n cur.old (length m.old) × (length t.now ≡ decoded_length) }
    ensures { (g : GivenMeet t.now a.now n cur.old (length m.old)) → Matrix g.rs m.new }
{
    let all = first_rows(n);
    set_rows(m, n, &all);
    visit(t, a, &all, PATTERN_WORDS, cur, m);
}

// The first row that row i meets, or ROWS.
pub fn first_met(m: &[u64], i: usize) -> usize
    requires { (i < row_limit) × (set_words * i + set_words ≤ length m.now) }
    ensures { FirstMet m.now i result }
{
    let row = row_of(m, i);
    first_in(&row, ROWS)
}

// Whether some row from `low` on, below `high`, meets a row below `low`.
pub fn some_met(m: &[u64], low: usize, high: usize) -> bool
    requires { (low ≤ high) × (high ≤ row_limit) × (set_words * high ≤ length m.now) }
    ensures { SomeMet m.now low high result }
{
    for i in low..high {
        if first_met(m, i) < low {
            return true;
        }
    }
    false
}
