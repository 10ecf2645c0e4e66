// The cursors of the rows on a path: which rows have a cell in a column, and what raises and lowers them. Only the rows of a set are visited, since deep in a tree few are left.
#![tactic(auto)]

ghost use Rattle.std.specs.Prelude.{◌≡◌, true, ℕ, ◌+◌, ◌*◌, ◌≤◌, ◌<◌, length, get_or};
ghost use Rattle.pattern.specs.Limits.{pattern_limit};
ghost use Rattle.rowset.specs.Limits.{row_limit};
ghost use Rattle.rowset.specs.Member.{member};
ghost use Rattle.path.specs.State.{real_of, Raised, Lowered, row_stride, own_of, Lifted, Dropped};
ghost use Rattle.visits.specs.Asked.{RowThere, RowsThere, RowsWithin, RowRises, RowsRise};
ghost use Rattle.visits.specs.Blank.{Blank};

use path::rows::{OWN, ROW};
use pattern::limits::PATTERN_WORDS;
use rowset::set::{SET_WORDS, copy, first_in, next_in, put};

fn own_of(rows: &[u16], r: usize, q: usize) -> u16
    requires { (row_stride * r + row_stride ≤ length rows.now) × (q ≤ pattern_limit) }
    ensures { result ≡ own_of rows.now r q }
{
    rows[ROW * r + OWN + q]
}

// How many columns are row r's own.
fn own(rows: &[u16], cur: &[u8], r: usize) -> usize
    requires { RowThere rows.now cur.now r }
    ensures { result ≡ own_of rows.now r (get_or cur.now r 0) }
{
    let q = cur[r] as usize;
    own_of(rows, r, q) as usize
}

// In re from now on: the rows alive whose own cell stands in the first of ncols columns.
pub fn real(rows: &[u16], n: usize, s: &[u64; SET_WORDS], cur: &[u8], ncols: usize, re: &mut [u64])
    requires { RowsThere rows.now n s.now cur.now re.old }
    ensures { (r : ℕ) → r < n → member re.new r ≡ real_of rows.now (member s.now) cur.now ncols r }
{
    copy(s, re);
    let mut r = first_in(s, n);
    while r < n {
        let m = own(rows, cur, r);
        put(re, r, m == ncols);
        r = next_in(s, r + 1, n);
    }
}

// How many columns come before the first in which some row alive has a cell; none where no row is alive.
pub fn blank(rows: &[u16], n: usize, s: &[u64; SET_WORDS], cur: &[u8], ncols: usize) -> usize
    requires { RowsWithin rows.now n s.now cur.now ncols }
    ensures { Blank rows.now n s.now cur.now ncols result }
{
    let mut r = first_in(s, n);
    if r == n {
        return 0;
    }
    let mut m = 0;
    while r < n {
        let o = own(rows, cur, r);
        m = m.max(o);
        r = next_in(s, r + 1, n);
    }
    ncols - m
}

// Row r past its cell, at visit v.
fn lift(cur: &mut [u8], vis: &mut [u16], v: usize, r: usize)
    requires { RowRises cur.old vis.old v r }
    ensures { Lifted v r cur.old vis.old cur.new vis.new }
{
    let q = cur[r];
    vis[PATTERN_WORDS * r + q as usize] = v as u16;
    cur[r] = q + 1;
}

// The rows of the set past their cells, at visit v.
pub fn raise(cur: &mut [u8], vis: &mut [u16], n: usize, re: &[u64; SET_WORDS], v: usize)
    requires { RowsRise cur.old vis.old n re.now v }
    ensures { Raised n (member re.now) v cur.old vis.old cur.new vis.new }
{
    let mut r = first_in(re, n);
    while r < n {
        lift(cur, vis, v, r);
        r = next_in(re, r + 1, n);
    }
}

fn drop(cur: &mut [u8], r: usize)
    requires { (r < length cur.old) × (0 < get_or cur.old r 0) }
    ensures { Dropped r cur.old cur.new }
{
    cur[r] = cur[r] - 1;
}

// The rows of the set back at their cells. Sought from row 0 on, since the first row of the set, which `raise` has sought too, would be kept in every nested frame.
pub fn lower(cur: &mut [u8], n: usize, re: &[u64; SET_WORDS])
    requires { (n ≤ row_limit) × (n ≤ length cur.old) × ((r : ℕ) → r < n → member re.now r ≡ true → 0 < get_or cur.old r 0) }
    ensures { Lowered n (member re.now) cur.old cur.new }
{
    let mut from = 0;
    while from < n {
        let r = next_in(re, from, n);
        if r == n {
            return;
        }
        drop(cur, r);
        from = r + 1;
    }
}
