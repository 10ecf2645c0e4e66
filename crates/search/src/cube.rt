// The row that takes exactly the values of a branch.
ghost use Rattle.std.specs.Prelude.{suc, ◌≤◌, length};
ghost use Rattle.cell.specs.Cell.{cell_width};
ghost use Rattle.signature.specs.Decoded.{Known};
ghost use Rattle.search.specs.Branch.{GivenBranch, GivenStep, CubeOf, Opened};

use crate::steps::STEP;
use booking::walk::BOOKING_LIMIT;
use cell::cell::{CELL, Cell, KIND_TAG, combine, put};
use path::rows::start_of;
use pattern::limits::PATTERN_WORDS;
use rowlist::grow::copy;
use sets::heads::full;
use signature::decoded::count_of;
use views::view::view;

// The words of a view.
pub const VIEW_ROOM: usize = CELL * PATTERN_WORDS;

// Of a row of as many cells as a booking has words, and of one with a view more.
pub const CUBE_ROOM: usize = CELL * BOOKING_LIMIT;

pub const BOTH_ROOM: usize = CUBE_ROOM + VIEW_ROOM;

// The row of all values of kind 0, first in q; how many words.
fn open_row(t: &[u16], q: &mut [u64]) -> usize
    requires { Known t.now × (cell_width ≤ length q.old) }
    ensures { (g : Known t.now) → Opened g.sig result q.new }
{
    let allowed = full(count_of(t, 0) as u32);
    let c = Cell {
        tag: KIND_TAG,
        vars: 0,
        allowed,
    };
    put(q, 0, c);
    CELL
}

// One step of the path more: the row at the front of q together with the step's view, first in q, and how many words; None where no value is left that is as short as a booking.
fn narrow(
    t: &[u16],
    a: &[u64],
    rows: &[u16],
    n: usize,
    path: &[u64],
    depth: usize,
    i: usize,
    words: usize,
    q: &mut [u64],
    both: &mut [u64],
) -> Option<usize>
    requires { GivenStep t.now a.now rows.now n path.now depth i words q.old both.old }
    ensures { (g : GivenStep t.now a.now rows.now n path.now depth i words q.old both.old) → CubeOf g.branch.table.known.sig g.branch.table.rs path.now (suc i) result q.new }
{
    let at = STEP * i;
    let mut d = [0u64; VIEW_ROOM];
    let start = start_of(rows, path[at] as usize) as usize;
    view(t, &a[start..], path[at + 1], path[at + 2] as usize, &mut d)?;
    let w = combine(t, q, &d, both)?;
    if w > CUBE_ROOM {
        return None;
    }
    copy(both, w, q, 0);
    Some(w)
}

// The row of a path's branch, first in q, and how many words; None where the branch has no value that is as short as a booking.
pub fn cube(
    t: &[u16],
    a: &[u64],
    rows: &[u16],
    n: usize,
    path: &[u64],
    depth: usize,
    q: &mut [u64],
    both: &mut [u64],
) -> Option<usize>
    requires { GivenBranch t.now a.now rows.now n path.now depth (length q.old) (length both.old) }
    ensures { (g : GivenBranch t.now a.now rows.now n path.now depth (length q.old) (length both.old)) → CubeOf g.table.known.sig g.table.rs path.now depth result q.new }
{
    let mut words = open_row(t, q);
    for i in 0..depth {
        words = narrow(t, a, rows, n, path, depth, i, words, q, both)?;
    }
    Some(words)
}
