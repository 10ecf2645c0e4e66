// Least values.
ghost use Rattle.std.specs.Prelude.{◌≡◌, ◌∷◌, ◌<◌, ◌≤◌, ◌-◌, length, drop};
ghost use Rattle.cell.specs.Cell.{kind_tag};
ghost use Rattle.sets.specs.Heads.{number_of};
ghost use Rattle.overlap.specs.Least.{GivenHead, Written, GivenPlace, ValueWritten};

use cell::cell::KIND_TAG;
use sets::heads::{Heads, lowest};
use signature::decoded::{argument_of, first_of, head_arity, least_head_of};

// A head and the least values of its arguments, first in out; how many words.
pub fn with_least(t: &[u16], c: u16, out: &mut [u16]) -> usize
    requires { GivenHead t.now c out.old }
    ensures { (g : GivenHead t.now c out.old) → Written g result out.new }
{
    let n = head_arity(t, c) as usize;
    let mut at = 1;
    for j in 0..n {
        let k = argument_of(t, c as usize, j) as usize;
        let h = least_head_of(t, k);
        at += with_least(t, h, &mut out[at..]);
    }
    out[0] = c;
    at
}

// A value of kind k under the lowest head that is allowed, first in out; how many words.
fn lowest_value(t: &[u16], k: usize, allowed: Heads, out: &mut [u16]) -> usize
    requires { GivenPlace t.now k (number_of allowed) out.old }
    ensures { (g : GivenPlace t.now k (number_of allowed) out.old) → ValueWritten g result out.new }
{
    let c = first_of(t, k) + lowest(allowed) as u16;
    with_least(t, c, out)
}

// What a cell stands for, first in out: the constructor that it names, or a value under an allowed head; how many words.
pub fn place(t: &[u16], tag: u64, allowed: Heads, out: &mut [u16]) -> usize
    requires { (1 ≤ length out.old) × (kind_tag ≤ tag → GivenPlace t.now (tag - kind_tag) (number_of allowed) out.old) }
    ensures named { tag < kind_tag → (result ≡ 1) × (out.new ≡ tag ∷ drop 1 out.old) }
    ensures unnamed { kind_tag ≤ tag → (g : GivenPlace t.now (tag - kind_tag) (number_of allowed) out.old) → ValueWritten g result out.new }
{
    if tag < KIND_TAG {
        out[0] = tag as u16;
        return 1;
    }
    lowest_value(t, (tag - KIND_TAG) as usize, allowed, out)
}
