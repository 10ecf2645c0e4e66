// A pattern against the rules of a table, in the order of their numbers.
ghost use Rattle.std.specs.Prelude.{◌*◌, ◌≤◌, length};
ghost use Rattle.rowset.specs.Limits.{row_limit};
ghost use Rattle.rowset.specs.Member.{set_words};
ghost use Rattle.sharing.specs.Sharer.{GivenSharer, SharerOf};

use crate::lowest::lowest_met;
use rowlist::grow::count;
use store::layout::{LENGTH, RULE_HEAD, RULES_AT};
use witness::lists::witness;

// A rule's number, and the length of a booking that it shares.
#[derive(Clone, Copy)]
pub struct Sharer {
    pub rule: u16,
    pub length: usize,
}

// The rules' lists of rows stand first in rows, the pattern's begins at an index. The booking goes first into out.
// Which rule it is, is read off the matrix in m; only that rule is asked for a booking.
pub fn first_sharer(
    t: &[u16],
    table: &[u16],
    rows: &[u64],
    at: usize,
    m: &mut [u64],
    out: &mut [u16],
) -> Option<Sharer>
    requires { GivenSharer t.now table.now rows.now at (length out.old) × (set_words * row_limit ≤ length m.old) }
    ensures { (g : GivenSharer t.now table.now rows.now at (length out.old)) → SharerOf g.force.known.sig g.force.rs g.ws out.old result out.new }
{
    let n = table[0];
    let low = lowest_met(t, rows, n, at, m);
    let mut place = RULES_AT;
    let mut from = 0;
    let mut past = 0;
    for i in 0..n {
        let begin = from + 1;
        past += count(&rows[begin..]);
        if low < past {
            let length = witness(t, &rows[at..], &rows[begin..], out).unwrap();
            return Some(Sharer {
                rule: table[place],
                length,
            });
        }
        from = begin + rows[from] as usize;
        place = place + RULE_HEAD + table[place + LENGTH] as usize;
    }
    None
}
