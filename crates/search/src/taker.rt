// A row that takes a value.
ghost use Rattle.std.specs.Prelude.{◌≡◌, ◌&&◌, ◌<◌};
ghost use Rattle.row.specs.RowFits.{row_fits};
ghost use Rattle.rowset.specs.Member.{member};
ghost use Rattle.search.specs.Branch.{row_at};
ghost use Rattle.search.specs.Choice.{GivenTaker, Taker};

use path::rows::start_of;
use rowset::set::{SET_WORDS, has};
use values::takes::takes;

// Whether row r is in the set and takes the value b.
fn takes_it(
    t: &[u16],
    a: &[u64],
    rows: &[u16],
    n: usize,
    s: &[u64; SET_WORDS],
    r: usize,
    b: &[u16],
) -> bool
    requires { GivenTaker t.now a.now rows.now n b.now × (r < n) }
    ensures { (g : GivenTaker t.now a.now rows.now n b.now) → result ≡ (member s.now r && row_fits (row_at g.table.rs r) g.value) }
{
    if !has(s, r) {
        return false;
    }
    let start = start_of(rows, r) as usize;
    takes(t, &a[start..], b)
}

// The first row of the set that takes the value b.
pub fn taker(
    t: &[u16],
    a: &[u64],
    rows: &[u16],
    n: usize,
    s: &[u64; SET_WORDS],
    b: &[u16],
) -> Option<usize>
    requires { GivenTaker t.now a.now rows.now n b.now }
    ensures { (g : GivenTaker t.now a.now rows.now n b.now) → Taker g s.now result }
{
    for r in 0..n {
        if takes_it(t, a, rows, n, s, r, b) {
            return Some(r);
        }
    }
    None
}
