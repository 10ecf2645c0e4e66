// Lists of rows behind each other, each behind the number of its words.
ghost use Rattle.std.specs.Prelude.{◌≡◌, ◌*◌, ◌≤◌, length};
ghost use Rattle.signature.specs.Decoded.{decoded_length};
ghost use Rattle.rowset.specs.Limits.{row_limit};
ghost use Rattle.rowset.specs.Member.{set_words};
ghost use Rattle.meeting.specs.Lists.{GivenLists, ListsGathered, rows_in, lists_meet, none_by};
ghost use Rattle.meeting.specs.Rows.{Matrix};

use crate::rows::{MATRIX, gather, meet, some_met};
use rowlist::grow::count;
use rowset::set::ROWS;

// The rows of n lists, one list after the other: how many there are.
pub fn gather_lists(t: &[u16], a: &[u64], n: u16, cur: &mut [u64]) -> usize
    requires { GivenLists t.now a.now n × (length cur.old ≡ row_limit) }
    ensures { (g : GivenLists t.now a.now n) → ListsGathered g result cur.new }
{
    let mut at = 0;
    let mut q = 0;
    for _j in 0..n {
        q = gather(a, at + 1, q, cur);
        at = at + 1 + a[at] as usize;
    }
    q
}

// Whether no two of n lists meet, by the matrix of their rows.
fn apart_by(t: &[u16], a: &[u64], n: u16, m: &[u64]) -> bool
    requires { (g : GivenLists t.now a.now n) × Matrix (rows_in g.rss) m.now × (set_words * length (rows_in g.rss) ≤ length m.now) }
    ensures { (g : GivenLists t.now a.now n) → Matrix (rows_in g.rss) m.now → result ≡ none_by lists_meet g.rss }
{
    let mut at = 0;
    let mut low = 0;
    for _j in 0..n {
        let from = at + 1;
        let high = low + count(&a[from..]);
        if some_met(m, low, high) {
            return false;
        }
        at = from + a[at] as usize;
        low = high;
    }
    true
}

// The same, with the workspace for the matrix. That is never too short, so it never calls itself; but a function that does is not compiled into its callers, and so the cursors stand in a frame that the builder of rows does not have.
pub fn apart(t: &[u16], a: &[u64], n: u16, m: &mut [u64]) -> bool
    requires { GivenLists t.now a.now n × (length t.now ≡ decoded_length) × (set_words * row_limit ≤ length m.old) }
    ensures { (g : GivenLists t.now a.now n) → result ≡ none_by lists_meet g.rss }
{
    if m.len() < MATRIX {
        return apart(t, a, n, m);
    }
    let mut cur = [0u64; ROWS];
    let count = gather_lists(t, a, n, &mut cur);
    meet(t, a, count, &mut cur, m);
    apart_by(t, a, n, m)
}
