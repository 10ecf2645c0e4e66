// The first of refusals 7, 18 and 8 to 10 that applies to a pattern, or its weight.
ghost use Rattle.std.specs.Prelude.{◌≡◌, length};
ghost use Rattle.signature.specs.Refusal.{numbered};
ghost use Rattle.admission.specs.Admission.{GivenWords, admission_of};

use ambiguity::ambiguous::ambiguous;
use linearity::linear::linear;
use reading::ranges::ranged;
use reading::read::well_formed;
use signature::refusals::Refusal;
use weighing::weight::weigh;

pub fn admit(t: &[u16], p: &[u16], out: &mut [u64], work: &mut [u64]) -> Result<u16, Refusal>
    requires { GivenWords t.now p.now (length out.old) (length work.old) }
    ensures { (g : GivenWords t.now p.now (length out.old) (length work.old)) → numbered result ≡ admission_of g.known.sig p.now }
{
    if !well_formed(t, p) {
        return Err(Refusal::Malformed);
    }
    if !ranged(p) {
        return Err(Refusal::RangeWrong);
    }
    if !linear(t, p) {
        return Err(Refusal::NotLinear);
    }
    let Some(weight) = weigh(t, p) else {
        return Err(Refusal::TooHeavy);
    };
    if ambiguous(t, p, out, work) {
        return Err(Refusal::Ambiguous);
    }
    Ok(weight)
}
