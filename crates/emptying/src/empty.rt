// The call that empties a table.
ghost use Rattle.signature.specs.Refusal.{number_in};
ghost use Rattle.table.specs.Limits.{limits};
ghost use Rattle.table.specs.Calls.{Empty};

use signature::refusals::Refusal;
use store::change::clear;
use store::layout::TABLE;

pub fn empty(table: &mut [u16]) -> Result<(), Refusal>
    ensures { Empty limits table.old (number_in result) table.new }
{
    if table.len() < TABLE {
        return Err(Refusal::TooShort);
    }
    clear(table);
    Ok(())
}
