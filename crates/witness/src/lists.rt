// A booking that two patterns share, by their lists of rows.
ghost use Rattle.std.specs.Prelude.{not, ◌≤◌, length};
ghost use Rattle.signature.specs.Limits.{booking_limit};
ghost use Rattle.signature.specs.Lists.{is_empty};
ghost use Rattle.row.specs.Overlap.{Shared};
ghost use Rattle.row.specs.RowFits.{row_fits, fits_some};
ghost use Rattle.rowlist.specs.Product.{with_each};
ghost use Rattle.overlap.specs.Laws.{TwoPatterns};
ghost use Rattle.witness.specs.Lists.{GivenRowList, Shown};
ghost use Rattle.witness.specs.Pair.{Both, Found};

use crate::pair::pair_witness;
use overlap::pair::rows_meet;

// A value that the row at the front of x and some row of the list y take, first in out, and how many words; None where there is none.
fn row_witness(t: &[u16], x: &[u64], y: &[u64], out: &mut [u16]) -> Option<usize>
    requires { GivenRowList t.now x.now y.now out.old }
    ensures { (g : GivenRowList t.now x.now y.now out.old) → Found (Both g.known.sig g.kind (row_fits g.r) (fits_some g.ss)) (not (is_empty (with_each g.r g.ss))) result out.old out.new }
{
    let mut at = 0;
    while y[at] > 0 {
        let len = y[at] as usize;
        let from = at + 1;
        if rows_meet(t, x, &y[from..]) {
            return pair_witness(t, x, &y[from..], out);
        }
        at = from + len;
    }
    None
}

// A lawful booking that fits the two patterns whose lists of rows are x and y, first in out, and how many words; None where there is none.
pub fn witness(t: &[u16], x: &[u64], y: &[u64], out: &mut [u16]) -> Option<usize>
    requires { TwoPatterns t.now x.now y.now × (booking_limit ≤ length out.old) }
    ensures { (g : TwoPatterns t.now x.now y.now) → Shown (Shared g.known.sig g.p g.q) (λ s. s.words) result out.old out.new }
{
    let mut at = 0;
    while x[at] > 0 {
        let len = x[at] as usize;
        let from = at + 1;
        if let Some(n) = row_witness(t, &x[from..], y, out) {
            return Some(n);
        }
        at = from + len;
    }
    None
}
