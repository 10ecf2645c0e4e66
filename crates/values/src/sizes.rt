// How many words the least values have.
ghost use Rattle.std.specs.Prelude.{◌≡◌, ◌<◌, length};
ghost use Rattle.signature.specs.Decoded.{decoded_length, least_size_of};
ghost use Rattle.signature.specs.Limits.{kind_limit};
ghost use Rattle.values.specs.Shortest.{GivenSize, head_size};

use signature::decoded::{KIND_STRIDE, KINDS_AT, argument_of, head_arity};

// The word of a kind's row that has its least size.
const SIZE: usize = 3;

fn least_size_of(t: &[u16], k: usize) -> u16
    requires { (length t.now ≡ decoded_length) × (k < kind_limit) }
    ensures { result ≡ least_size_of t.now k }
{
    t[KINDS_AT + KIND_STRIDE * k + SIZE]
}

// The fewest words of a value under a head.
pub fn head_size(t: &[u16], c: u16) -> usize
    requires { GivenSize t.now c }
    ensures { (g : GivenSize t.now c) → result ≡ head_size g.known.sig g.known.decoded.n c }
{
    let n = head_arity(t, c) as usize;
    let mut s = 1;
    for j in 0..n {
        let k = argument_of(t, c as usize, j) as usize;
        s += least_size_of(t, k) as usize;
    }
    s
}
