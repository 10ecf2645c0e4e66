// A value that no row takes.
ghost use Rattle.std.specs.Prelude.{◌+◌, ◌≤◌, length};
ghost use Rattle.signature.specs.Limits.{booking_limit};
ghost use Rattle.row.specs.Limits.{place_words};
ghost use Rattle.search.specs.Search.{GivenTable, Searched};

use crate::cube::{BOTH_ROOM, CUBE_ROOM};
use crate::node::node;
use crate::steps::PATH;
use rowset::set::first_rows;

// A value that none of the n rows takes, first in v, and how many words; None where there is none.
pub fn search(t: &[u16], a: &[u64], rows: &[u16], n: usize, v: &mut [u16]) -> Option<usize>
    requires { GivenTable t.now a.now rows.now n × (booking_limit + place_words ≤ length v.old) }
    ensures { (g : GivenTable t.now a.now rows.now n) → Searched g.known.sig g.rs result v.new }
{
    let s = first_rows(n);
    let mut path = [0u64; PATH];
    let mut q = [0u64; CUBE_ROOM];
    let mut both = [0u64; BOTH_ROOM];
    node(t, a, rows, n, &s, &mut path, 0, &mut q, &mut both, v)
}
