// 02, job 6: the bookings of open charges answered again by a new tree, each in its record.
#![tactic(auto)]

mod list;
mod records;

ghost use Rattle.std.specs.Prelude.{◌≡◌};
ghost use Rattle.signature.specs.Decoded.{Known};
ghost use Rattle.charges.specs.Charge.{read_charges};
ghost use Rattle.signature.specs.Refusal.{number_in};
ghost use Rattle.charges.specs.Replan.{replan_list, ReplanCall};
ghost use Rattle.replanning.specs.Outcome.{changed_in, outcome};

use crate::list::well_formed;
use crate::records::{ANSWERS, answer_all, write_all};
use decoding::decode::decode;
use signature::decoded::DECODED;
use signature::refusals::Refusal;

// Under a signature that is decoded already: refusals 20, 13 and 15. All answers are known before the first word is written.
fn replan_decoded(t: &[u16], tree: &[u16], charges: &mut [u16]) -> Result<u16, Refusal>
    requires { Known t.now }
    ensures { (g : Known t.now) → outcome result charges.new ≡ replan_list g.sig tree.now charges.old (read_charges charges.old) }
{
    if !well_formed(charges) {
        return Err(Refusal::ChargesMalformed);
    }
    let mut answers = [0u16; ANSWERS];
    answer_all(t, tree, charges, &mut answers)?;
    Ok(write_all(&answers, charges))
}

// How many plans changed.
pub fn replan(ss: &[u16], tree: &[u16], charges: &mut [u16]) -> Result<u16, Refusal>
    ensures { ReplanCall ss.now tree.now charges.old (number_in result) (changed_in result) charges.new }
{
    let mut t = [0u16; DECODED];
    if !decode(ss, &mut t) {
        return Err(Refusal::SignatureUnlawful);
    }
    replan_decoded(&t, tree, charges)
}
