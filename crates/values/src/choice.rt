// The head, of those that are allowed, under which the shortest value stands.
ghost use Rattle.std.specs.Prelude.{◌≡◌, cond, ltb};
ghost use Rattle.sets.specs.Heads.{number_of};
ghost use Rattle.values.specs.Shortest.{GivenSize, GivenHeads, ShortestHead, head_size};

use crate::sizes::head_size;
use sets::heads::{Heads, has, is_empty, lowest, without};
use signature::decoded::{first_of, least_head_of};

// A head, and the fewest words of a value under it.
#[derive(Clone, Copy)]
pub struct Choice {
    pub head: u16,
    pub size: usize,
}

fn sized(t: &[u16], c: u16) -> Choice
    requires { GivenSize t.now c }
    ensures { (result.head ≡ c) × ((g : GivenSize t.now c) → result.size ≡ head_size g.known.sig g.known.decoded.n c) }
{
    let size = head_size(t, c);
    Choice { head: c, size }
}

fn shorter(a: Choice, b: Choice) -> Choice
    ensures { result ≡ cond (ltb b.size a.size) b a }
{
    if b.size < a.size {
        return b;
    }
    a
}

// One after the other; none has fewer words than one.
fn least_allowed(t: &[u16], k: usize, allowed: Heads) -> u16
    requires { GivenHeads t.now k (number_of allowed) }
    ensures { (g : GivenHeads t.now k (number_of allowed)) → ShortestHead g result }
{
    let f = first_of(t, k);
    let i = lowest(allowed);
    let mut best = sized(t, f + i as u16);
    let mut left = without(allowed, i);
    while best.size > 1 {
        if is_empty(left) {
            return best.head;
        }
        let j = lowest(left);
        let next = without(left, j);
        left = next;
        let c = sized(t, f + j as u16);
        best = shorter(best, c);
    }
    best.head
}

// The least head of a kind is in the table; where it is not allowed the others are compared.
pub fn shortest_head(t: &[u16], k: usize, allowed: Heads) -> u16
    requires { GivenHeads t.now k (number_of allowed) }
    ensures { (g : GivenHeads t.now k (number_of allowed)) → ShortestHead g result }
{
    let h = least_head_of(t, k);
    let f = first_of(t, k);
    if has(allowed, (h - f) as u32) {
        return h;
    }
    least_allowed(t, k, allowed)
}
