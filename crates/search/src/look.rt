// What is seen at a node of the search.
ghost use Rattle.std.specs.Prelude.{length};
ghost use Rattle.search.specs.Look.{GivenNode, SeenOf};

use crate::cells::open_cells;
use crate::choice::meeting;
use crate::cube::cube;
use crate::taker::taker;
use path::rows::start_of;
use rowset::set::SET_WORDS;
use values::shortest::shortest;

// No value that is as short as a booking; or the words of one that no row takes; or a row that takes one, and its open cells.
#[derive(Clone, Copy)]
pub enum Seen {
    Nothing,
    Free(usize),
    Taken(usize, u64),
}

// At the node of a path, whose row is in q then, its shortest value in v, and the rows that meet it in `live`.
pub fn look(
    t: &[u16],
    a: &[u64],
    rows: &[u16],
    n: usize,
    s: &[u64; SET_WORDS],
    path: &[u64],
    depth: usize,
    q: &mut [u64],
    both: &mut [u64],
    v: &mut [u16],
    live: &mut [u64; SET_WORDS],
) -> Seen
    requires { GivenNode t.now a.now rows.now n s.now path.now depth (length q.old) (length both.old) (length v.old) }
    ensures { (g : GivenNode t.now a.now rows.now n s.now path.now depth (length q.old) (length both.old) (length v.old)) → SeenOf g.branch.table.known.sig g.branch.table.rs n s.now path.now depth result live.new v.new }
{
    let Some(_words) = cube(t, a, rows, n, path, depth, q, both) else {
        return Seen::Nothing;
    };
    let Some(m) = shortest(t, q, v) else {
        return Seen::Nothing;
    };
    meeting(t, a, rows, n, s, q, live);
    let Some(r) = taker(t, a, rows, n, live, &v[..m]) else {
        return Seen::Free(m);
    };
    let start = start_of(rows, r) as usize;
    Seen::Taken(r, open_cells(t, &a[start..], q))
}
