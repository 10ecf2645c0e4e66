// The rows of patterns, all in one list.
ghost use Rattle.std.specs.Prelude.{◌≤◌, length};
ghost use Rattle.signature.specs.Decoded.{Known};
ghost use Rattle.builder.specs.Build.{row_room};
ghost use Rattle.pairs.specs.Held.{Listed, Holding, rows_room};

use builder::build::{ROW_ROOM, build};
use cell::cell::CELL;
use pattern::limits::PATTERN_WORDS;
use reading::ranges::ranged;
use reading::read::well_formed;
use rowset::set::ROWS;
use shown::file::size;
use weighing::weight::weigh;

// Room for as many rows as a set can have, and for those of one pattern.
pub const ROOM: usize = ROWS * (1 + CELL * PATTERN_WORDS) + ROW_ROOM;

// The words of the list without its end, and what its patterns weigh.
#[derive(Clone, Copy)]
struct Held {
    used: usize,
    weight: usize,
}

// The rows of a pattern behind those that are held; none of a pattern that is refused or too heavy with the others.
fn hold(t: &[u16], p: &[u16], s: Held, rows: &mut [u64], work: &mut [u64]) -> Held
    requires { Holding t.now s.used s.weight rows.old (length work.old) }
    ensures { Holding t.now result.used result.weight rows.new (length work.new) }
{
    if !well_formed(t, p) {
        return s;
    }
    if !ranged(p) {
        return s;
    }
    let Some(w) = weigh(t, p) else {
        return s;
    };
    let weight = s.weight + w as usize;
    if ROWS < weight {
        return s;
    }
    let at = s.used;
    let used = at + build(t, p, &mut rows[at..], work);
    Held { used, weight }
}

// Patterns one behind the other, each its count of words and then those.
pub fn hold_all(t: &[u16], ps: &[u16], rows: &mut [u64], work: &mut [u64])
    requires { Known t.now × (rows_room ≤ length rows.old) × (row_room ≤ length work.old) }
    ensures { Listed t.now rows.new }
{
    rows[0] = 0;
    let mut s = Held { used: 0, weight: 0 };
    let mut w = ps;
    while w.len() > 0 {
        let e = 1 + size(w[0]);
        if w.len() < e {
            return;
        }
        s = hold(t, &w[1..e], s, rows, work);
        w = &w[e..];
    }
}
