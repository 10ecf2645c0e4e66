// The records of a list of open charges: their bookings answered, and the answers written.
ghost use Rattle.std.specs.Prelude.{◌≡◌, map, length};
ghost use Rattle.signature.specs.Decoded.{Known};
ghost use Rattle.signature.specs.Refusal.{number_in};
ghost use Rattle.charges.specs.Charge.{list_words};
ghost use Rattle.charges.specs.Replan.{first_refused, answered, differing};
ghost use Rattle.replanning.specs.Parts.{Charged, answers_room, Answers, Writable};

use crate::list::{BOOKING, CHARGES, LENGTH, PLAN, RECORD, ROOM};
use run::run_decoded;
use signature::refusals::Refusal;

// A rule and a plan for each record.
pub const ANSWERS: usize = 2 * CHARGES;

// The refusal of the first record that is refused; or rule and plan of each in order.
pub fn answer_all(
    t: &[u16],
    tree: &[u16],
    charges: &[u16],
    answers: &mut [u16],
) -> Result<(), Refusal>
    requires { Known t.now × Charged charges.now × (length answers.old ≡ answers_room) }
    ensures { (g : Known t.now) (k : Charged charges.now) → (number_in result ≡ first_refused g.sig tree.now k.charges) × (number_in result ≡ 0 → Answers (map (answered g.sig tree.now) k.charges) answers.new) }
{
    let mut visits = [0u16; ROOM];
    for (k, record) in charges.chunks(RECORD).enumerate() {
        let end = BOOKING + record[LENGTH] as usize;
        let a = run_decoded(t, tree, &record[BOOKING..end], &mut visits)?;
        answers[2 * k] = a.rule;
        answers[2 * k + 1] = a.plan;
    }
    Ok(())
}

// Rule and plan of each record become those found; how many plans that changes.
pub fn write_all(answers: &[u16], charges: &mut [u16]) -> u16
    requires { Writable answers.now charges.old }
    ensures { (w : Writable answers.now charges.old) → (result ≡ differing w.old w.new) × (charges.new ≡ list_words w.new) }
{
    let mut changed = 0;
    for k in 0..charges.len() / RECORD {
        let at = RECORD * k;
        let rule = answers[2 * k];
        let plan = answers[2 * k + 1];
        changed += u16::from(charges[at + PLAN] != plan);
        charges[at] = rule;
        charges[at + PLAN] = plan;
    }
    changed
}
