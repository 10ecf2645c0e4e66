// The search. A value that no row takes leaves every row at one of its cells. So where a row takes the shortest value of a branch, there is one branch for each cell at which that row may be left.
ghost use Rattle.std.specs.Prelude.{length};
ghost use Rattle.search.specs.Look.{GivenNode, GivenLeave, NodeFound};

use crate::hint::best;
use crate::look::{Seen, look};
use crate::steps::put_step;
use path::rows::start_of;
use pattern::limits::PATTERN_WORDS;
use rowset::set::{SET_WORDS, put};
use sets::set::without;
use views::frontier::frontier;

// A value of the path's branch that no row takes, first in v, and how many words; None where there is none. The set has the rows that may take a value of the branch.
#[cycle(leave_node)]
pub fn node(
    t: &[u16],
    a: &[u64],
    rows: &[u16],
    n: usize,
    s: &[u64; SET_WORDS],
    path: &mut [u64],
    depth: usize,
    q: &mut [u64],
    both: &mut [u64],
    v: &mut [u16],
) -> Option<usize>
    requires { GivenNode t.now a.now rows.now n s.now path.old depth (length q.old) (length both.old) (length v.old) }
    ensures { (g : GivenNode t.now a.now rows.now n s.now path.old depth (length q.old) (length both.old) (length v.old)) → NodeFound g.branch.table.known.sig g.branch.table.rs path.old depth result path.new v.new }
{
    let mut live = [0u64; SET_WORDS];
    let seen = look(t, a, rows, n, s, path, depth, q, both, v, &mut live);
    match seen {
        Seen::Nothing => None,
        Seen::Free(m) => Some(m),
        Seen::Taken(r, opened) => {
            put(&mut live, r, false);
            leave(t, a, rows, n, &live, path, depth, r, opened, q, both, v)
        }
    }
}

// The branches in which row r is left, one for each open cell.
#[cycle(leave_node)]
fn leave(
    t: &[u16],
    a: &[u64],
    rows: &[u16],
    n: usize,
    s: &[u64; SET_WORDS],
    path: &mut [u64],
    depth: usize,
    r: usize,
    cells: u64,
    q: &mut [u64],
    both: &mut [u64],
    v: &mut [u16],
) -> Option<usize>
    requires { GivenLeave t.now a.now rows.now n s.now path.old depth r cells (length q.old) (length both.old) (length v.old) }
    ensures { (g : GivenLeave t.now a.now rows.now n s.now path.old depth r cells (length q.old) (length both.old) (length v.old)) → NodeFound g.branch.table.known.sig g.branch.table.rs path.old depth result path.new v.new }
{
    let start = start_of(rows, r) as usize;
    let mut scores = [0u16; PATTERN_WORDS];
    let mut opened = cells;
    let mut edge = frontier(t, &a[start..], opened);
    while edge > 0 {
        let c = best(t, a, rows, n, s, r, opened, edge, &mut scores);
        put_step(path, depth, r, opened, c as usize);
        if let Some(m) = node(t, a, rows, n, s, path, depth + 1, q, both, v) {
            return Some(m);
        }
        opened = without(opened, c);
        edge = frontier(t, &a[start..], opened);
    }
    None
}
