// The call set_default (1 to 3).
#![tactic(auto)]

ghost use Rattle.signature.specs.Refusal.{number_in};
ghost use Rattle.table.specs.Limits.{limits};
ghost use Rattle.table.specs.Calls.{SetDefault};

use opening::open::open;
use signature::decoded::DECODED;
use signature::refusals::Refusal;
use store::layout::DEFAULT_AT;

pub fn set_default(ss: &[u16], plan: u16, table: &mut [u16]) -> Result<(), Refusal>
    ensures { SetDefault limits ss.now plan table.old (number_in result) table.new }
{
    let mut t = [0u16; DECODED];
    open(ss, table, &mut t)?;
    table[DEFAULT_AT] = plan;
    Ok(())
}
