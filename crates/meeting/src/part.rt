// The end of a row, or of a part of one.
ghost use Rattle.std.specs.Prelude.{◌≡◌, ◌+◌, length};
ghost use Rattle.cell.specs.Coded.{row_code};
ghost use Rattle.meeting.specs.Part.{GivenPart};

use cell::cell::{CELL, cell_at, opens};

// The word behind the part that begins at a word.
pub fn part_end(t: &[u16], a: &[u64], at: usize) -> usize
    requires { GivenPart t.now a.now at }
    ensures { (g : GivenPart t.now a.now at) → result ≡ at + length (row_code g.K g.r g.kind) }
{
    let mut end = at;
    let mut left = 1;
    while left > 0 {
        let c = cell_at(a, end);
        left = left - 1 + opens(t, c.tag);
        end += CELL;
    }
    end
}
