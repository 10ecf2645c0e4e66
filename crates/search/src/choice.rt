// The rows that meet a branch, and one of them to leave.
ghost use Rattle.std.specs.Prelude.{◌≡◌, ◌&&◌, ◌<◌, length};
ghost use Rattle.signature.specs.Lists.{is_some};
ghost use Rattle.row.specs.Row.{combine};
ghost use Rattle.rowset.specs.Member.{member, set_words};
ghost use Rattle.search.specs.Branch.{row_at};
ghost use Rattle.search.specs.Choice.{GivenMeeting, Meeting};

use overlap::pair::rows_meet;
use path::rows::start_of;
use rowset::set::{SET_WORDS, has, put};

// Whether row r is in the set and meets the row at the front of q.
pub fn meets(
    t: &[u16],
    a: &[u64],
    rows: &[u16],
    n: usize,
    s: &[u64; SET_WORDS],
    r: usize,
    q: &[u64],
) -> bool
    requires { GivenMeeting t.now a.now rows.now n q.now × (r < n) }
    ensures { (g : GivenMeeting t.now a.now rows.now n q.now) → result ≡ (member s.now r && is_some (combine g.row (row_at g.table.rs r))) }
{
    if !has(s, r) {
        return false;
    }
    let start = start_of(rows, r) as usize;
    rows_meet(t, q, &a[start..])
}

// The rows of the set that meet the row at the front of q.
pub fn meeting(
    t: &[u16],
    a: &[u64],
    rows: &[u16],
    n: usize,
    s: &[u64; SET_WORDS],
    q: &[u64],
    live: &mut [u64],
)
    requires { GivenMeeting t.now a.now rows.now n q.now × (length live.old ≡ set_words) }
    ensures { (g : GivenMeeting t.now a.now rows.now n q.now) → Meeting g s.now n live.new }
{
    for r in 0..n {
        let there = meets(t, a, rows, n, s, r, q);
        put(live, r, there);
    }
}
