// The call withdraw (1 to 4, 6).
#![tactic(auto)]

ghost use Rattle.std.specs.Prelude.{◌≡◌, List};
ghost use Rattle.signature.specs.Refusal.{number_in};
ghost use Rattle.table.specs.Limits.{limits};
ghost use Rattle.table.specs.Calls.{Withdraw};
ghost use Rattle.table.specs.Refusals.{withdrawal_refusal};
ghost use Rattle.table.specs.Rule.{Rule};
ghost use Rattle.store.specs.Laid.{Holds};
ghost use Rattle.withdrawing.specs.Withdraw.{withdrawn};

use opening::open::open;
use signature::decoded::DECODED;
use signature::refusals::Refusal;
use store::change::take_out;
use store::find::find;
use tree::words::LAST_NUMBER;

// A rule taken out of a sound table.
fn withdraw_from(table: &mut [u16], number: u16) -> Result<(), Refusal>
    requires { (rs : List Rule) × Holds limits table.old rs }
    ensures { (g : (rs : List Rule) × Holds limits table.old rs) → (number_in result ≡ withdrawal_refusal number g.0) × (table.new ≡ withdrawn number g.0 table.old) }
{
    if number == 0 {
        return Err(Refusal::NumberOutside);
    }
    if LAST_NUMBER < number {
        return Err(Refusal::NumberOutside);
    }
    let Ok(at) = find(table, number) else {
        return Err(Refusal::NotHeld);
    };
    take_out(table, at);
    Ok(())
}

pub fn withdraw(ss: &[u16], number: u16, table: &mut [u16]) -> Result<(), Refusal>
    ensures { Withdraw limits ss.now number table.old (number_in result) table.new }
{
    let mut t = [0u16; DECODED];
    open(ss, table, &mut t)?;
    withdraw_from(table, number)
}
