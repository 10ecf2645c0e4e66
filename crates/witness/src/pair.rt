// A value that two rows take.
ghost use Rattle.signature.specs.Lists.{is_some};
ghost use Rattle.row.specs.Row.{combine as combined};
ghost use Rattle.row.specs.RowFits.{row_fits};
ghost use Rattle.witness.specs.Pair.{GivenPair, Both, Found};

use crate::fill::fill;
use cell::cell::combine;

// The words of two rows of at most 64 places each as one.
const ROOM: usize = 384;

// A value that the rows at the front of a and b both take, first in out, and how many words; None where there is none.
pub fn pair_witness(t: &[u16], a: &[u64], b: &[u64], out: &mut [u16]) -> Option<usize>
    requires { GivenPair t.now a.now b.now out.old }
    ensures { (g : GivenPair t.now a.now b.now out.old) → Found (Both g.known.sig g.kind (row_fits g.r) (row_fits g.s)) (is_some (combined g.r g.s)) result out.old out.new }
{
    let mut both = [0u64; ROOM];
    let n = combine(t, a, b, &mut both)?;
    Some(fill(t, &both[..n], out))
}
