// Two parts of a pattern side by side, by their rows.
ghost use Rattle.std.specs.Prelude.{◌≡◌, not, length};
ghost use Rattle.signature.specs.Lists.{is_empty, somes};
ghost use Rattle.row.specs.Row.{combine, each};
ghost use Rattle.ambiguity.specs.Parts.{GivenTwo, GivenLists, meets};

use builder::build::rows;
use cell::cell::KIND_TAG;
use meeting::rows::{gather, meet, some_met};
use rowset::set::ROWS;
use sets::heads::full;
use signature::decoded::count_of;

// Whether some row of the list in front meets some row of that which begins at a word, by a matrix in `work`.
fn meet_at(t: &[u16], lists: &[u64], at: usize, work: &mut [u64]) -> bool
    requires { GivenLists t.now lists.now at (length work.old) }
    ensures { (g : GivenLists t.now lists.now at (length work.old)) → result ≡ not (is_empty (somes (each combine g.rs g.ss))) }
{
    let mut cur = [0u64; ROWS];
    let a = gather(lists, 0, 0, &mut cur);
    let n = gather(lists, at, a, &mut cur);
    meet(t, lists, n, &mut cur, work);
    some_met(work, a, n)
}

// Whether some value of kind k fits both patterns in front of p, or on the minus side fails both.
pub fn both(t: &[u16], k: usize, p: &[u16], plus: bool, out: &mut [u64], work: &mut [u64]) -> bool
    requires { GivenTwo t.now k p.now plus (length out.old) (length work.old) }
    ensures { (g : GivenTwo t.now k p.now plus (length out.old) (length work.old)) → result ≡ meets plus g.known.sig k g.first g.second }
{
    let set = full(count_of(t, k) as u32);
    let tag = KIND_TAG + k as u64;
    let a = rows(t, tag, set, p, plus, out, work);
    let from = a.read;
    let at = a.used + 1;
    rows(t, tag, set, &p[from..], plus, &mut out[at..], work);
    meet_at(t, out, at, work)
}
