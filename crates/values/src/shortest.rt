// The shortest value that a row takes.
ghost use Rattle.std.specs.Prelude.{◌≡◌, ◌∷◌, ◌<◌, ◌≤◌, ◌-◌, length, drop};
ghost use Rattle.cell.specs.Cell.{kind_tag};
ghost use Rattle.overlap.specs.Least.{GivenPlace};
ghost use Rattle.sets.specs.Heads.{number_of};
ghost use Rattle.values.specs.Shortest.{GivenRow, LeastWritten, ShortestOf};

use crate::choice::shortest_head;
use booking::walk::BOOKING_LIMIT;
use cell::cell::{CELL, KIND_TAG, cell_at, opens};
use overlap::least::with_least;
use sets::heads::Heads;

// The words of one place of a row, at most: a constructor, and 6 for each of 4 arguments.
const PLACE: usize = 25;

// The words of a booking and of one place more.
pub const VALUE_ROOM: usize = BOOKING_LIMIT + PLACE;

// What a cell stands for, first in out: the constructor that it names, or the shortest value under an allowed head; how many words.
fn place(t: &[u16], tag: u64, allowed: Heads, out: &mut [u16]) -> usize
    requires { (1 ≤ length out.old) × (kind_tag ≤ tag → GivenPlace t.now (tag - kind_tag) (number_of allowed) out.old) }
    ensures named { tag < kind_tag → (result ≡ 1) × (out.new ≡ tag ∷ drop 1 out.old) }
    ensures unnamed { kind_tag ≤ tag → (g : GivenPlace t.now (tag - kind_tag) (number_of allowed) out.old) → LeastWritten g result out.new }
{
    if tag < KIND_TAG {
        out[0] = tag as u16;
        return 1;
    }
    let c = shortest_head(t, (tag - KIND_TAG) as usize, allowed);
    with_least(t, c, out)
}

// A shortest value that the row at the front of row takes, first in out, and how many words; None where it is longer than a booking.
pub fn shortest(t: &[u16], row: &[u64], out: &mut [u16]) -> Option<usize>
    requires { GivenRow t.now row.now out.old }
    ensures { (g : GivenRow t.now row.now out.old) → ShortestOf g result out.new }
{
    let mut i = 0;
    let mut n = 0;
    let mut left = 1;
    while left > 0 {
        if BOOKING_LIMIT < n {
            return None;
        }
        let c = cell_at(row, i);
        let w = opens(t, c.tag);
        n += place(t, c.tag, c.allowed, &mut out[n..]);
        left = left - 1 + w;
        i += CELL;
    }
    if n > BOOKING_LIMIT {
        return None;
    }
    Some(n)
}
