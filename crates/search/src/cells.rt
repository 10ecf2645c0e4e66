// The cells at which a value of a branch may leave a row.
ghost use Rattle.std.specs.Prelude.{◌≡◌, false, ◌<◌};
ghost use Rattle.pattern.specs.Limits.{pattern_limit};
ghost use Rattle.sets.specs.Set.{bit};
ghost use Rattle.search.specs.Cells.{GivenBeside, NotLeft, AgreeBeside};

use crate::cube::VIEW_ROOM;
use overlap::pair::rows_meet;
use pattern::limits::PATTERN_WORDS;
use sets::set::{full, has, without};
use views::frontier::frontier;
use views::view::view;

// Whether some value that the row at the front of q takes leaves the row at the front of row at cell c.
fn is_left(t: &[u16], row: &[u64], opened: u64, c: usize, q: &[u64]) -> bool
    requires { GivenBeside t.now row.now q.now }
    ensures { (g : GivenBeside t.now row.now q.now) → result ≡ false → NotLeft g opened c }
{
    let mut d = [0u64; VIEW_ROOM];
    let Some(_words) = view(t, row, opened, c, &mut d) else {
        return false;
    };
    rows_meet(t, q, &d)
}

// Whether cell c stays open: it stands below an open one, or is one at which the row is left.
fn stays(t: &[u16], row: &[u64], opened: u64, edge: u64, c: usize, q: &[u64]) -> bool
    requires { GivenBeside t.now row.now q.now × (c < pattern_limit) }
    ensures { (g : GivenBeside t.now row.now q.now) → result ≡ false → (bit edge c ≡ 1) × NotLeft g opened c }
{
    if !has(edge, c as u32) {
        return true;
    }
    is_left(t, row, opened, c, q)
}

// The cells of the row at the front of row that stay open: at each other one every value that the row at the front of q takes agrees with it.
pub fn open_cells(t: &[u16], row: &[u64], q: &[u64]) -> u64
    requires { GivenBeside t.now row.now q.now }
    ensures { (g : GivenBeside t.now row.now q.now) → AgreeBeside g result }
{
    let mut opened = full(PATTERN_WORDS as u32);
    let mut edge = frontier(t, row, opened);
    for c in 0..PATTERN_WORDS {
        if stays(t, row, opened, edge, c, q) {
            continue;
        }
        opened = without(opened, c as u32);
        edge = frontier(t, row, opened);
    }
    opened
}
