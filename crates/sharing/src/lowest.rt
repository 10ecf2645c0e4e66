// The lowest row of lists of rows that some row of one more list meets.
ghost use Rattle.std.specs.Prelude.{◌≡◌, ◌*◌, ◌≤◌, length};
ghost use Rattle.signature.specs.Decoded.{decoded_length};
ghost use Rattle.rowset.specs.Limits.{row_limit};
ghost use Rattle.rowset.specs.Member.{set_words};
ghost use Rattle.meeting.specs.Lists.{rows_in};
ghost use Rattle.sharing.specs.Lowest.{LeastMet, GivenLowest, Lowest, met_by};

use meeting::lists::gather_lists;
use meeting::rows::{first_met, gather, meet};
use rowset::set::ROWS;

// The least row that a row from `low` on, below `high`, meets, or ROWS.
fn least_met(m: &[u64], low: usize, high: usize) -> usize
    requires { (low ≤ high) × (high ≤ row_limit) × (set_words * high ≤ length m.now) }
    ensures { LeastMet m.now low high result }
{
    let mut least = ROWS;
    for i in low..high {
        let j = first_met(m, i);
        least = j.min(least);
    }
    least
}

// n lists stand first, one more begins at a word: where they meet nowhere, no row of the n lists.
pub fn lowest_met(t: &[u16], a: &[u64], n: u16, at: usize, m: &mut [u64]) -> usize
    requires { GivenLowest t.now a.now n at × (length t.now ≡ decoded_length) × (set_words * row_limit ≤ length m.old) }
    ensures { (g : GivenLowest t.now a.now n at) → Lowest (met_by g.ss) (rows_in g.lists.rss) result }
{
    let mut cur = [0u64; ROWS];
    let held = gather_lists(t, a, n, &mut cur);
    let all = gather(a, at, held, &mut cur);
    meet(t, a, all, &mut cur, m);
    least_met(m, held, all)
}
