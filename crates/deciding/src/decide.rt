// The call decide (1 to 3, 13).
ghost use Rattle.signature.specs.Refusal.{number_in};
ghost use Rattle.table.specs.Limits.{limits};
ghost use Rattle.table.specs.Calls.{DecideCall};
ghost use Rattle.run.specs.Outcome.{ran_answer};

use crate::rules::by_rules;
use booking::walk::lawful;
use opening::open::open;
use run::Answer;
use signature::decoded::DECODED;
use signature::refusals::Refusal;

pub fn decide(ss: &[u16], table: &[u16], b: &[u16]) -> Result<Answer, Refusal>
    ensures { DecideCall limits ss.now table.now b.now (number_in result) (ran_answer result) }
{
    let mut t = [0u16; DECODED];
    open(ss, table, &mut t)?;
    if !lawful(&t, b) {
        return Err(Refusal::BookingUnlawful);
    }
    Ok(by_rules(&t, table, b))
}
