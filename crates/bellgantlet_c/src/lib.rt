// The exports for a host in C or Rust: each is the function of that name of `bellgantlet`, with its promise.
#![tactic(auto)]

ghost use Rattle.std.specs.Prelude.{◌≡◌};
ghost use Rattle.stepping.specs.State.{begin_state, step_state, refusal_in, end_number};
ghost use Rattle.tree.specs.RunCall.{RunCall};
ghost use Rattle.table.specs.Limits.{limits};
ghost use Rattle.table.specs.Calls.{Empty, Enter, Withdraw, SetDefault, Compile, DecideCall};
ghost use Rattle.table.specs.Gap.{GapCall};
ghost use Rattle.day_log.specs.Log.{TallyCall};
ghost use Rattle.charges.specs.Replan.{ReplanCall};
ghost use Rattle.bellgantlet.specs.Answers.{entered_of, host_answer, PartCall};

use bellgantlet::{Answer, Entered, Part, Replanned, Shown, Tallied, Tree};
use stepping::state::STATE;

#[unsafe(no_mangle)]
pub extern "C" fn bellgantlet_empty(table: &mut [u16]) -> u16
    ensures { Empty limits table.old result table.new }
{
    bellgantlet::bellgantlet_empty(table)
}

#[unsafe(no_mangle)]
pub extern "C" fn bellgantlet_enter(
    signature: &[u16],
    number: u16,
    plan: u16,
    pattern: &[u16],
    table: &mut [u16],
    witness: &mut [u16],
) -> Entered
    ensures { Enter limits signature.now number plan pattern.now table.old witness.old (entered_of result) table.new witness.new }
{
    bellgantlet::bellgantlet_enter(signature, number, plan, pattern, table, witness)
}

#[unsafe(no_mangle)]
pub extern "C" fn bellgantlet_withdraw(signature: &[u16], number: u16, table: &mut [u16]) -> u16
    ensures { Withdraw limits signature.now number table.old result table.new }
{
    bellgantlet::bellgantlet_withdraw(signature, number, table)
}

#[unsafe(no_mangle)]
pub extern "C" fn bellgantlet_set_default(signature: &[u16], plan: u16, table: &mut [u16]) -> u16
    ensures { SetDefault limits signature.now plan table.old result table.new }
{
    bellgantlet::bellgantlet_set_default(signature, plan, table)
}

#[unsafe(no_mangle)]
pub extern "C" fn bellgantlet_compile(signature: &[u16], table: &[u16], space: &mut [u16]) -> Tree
    ensures { Compile limits signature.now table.now space.old result.number result.length space.new }
{
    bellgantlet::bellgantlet_compile(signature, table, space)
}

#[unsafe(no_mangle)]
pub extern "C" fn bellgantlet_decide(signature: &[u16], table: &[u16], booking: &[u16]) -> Answer
    ensures { DecideCall limits signature.now table.now booking.now result.number (host_answer result) }
{
    bellgantlet::bellgantlet_decide(signature, table, booking)
}

#[unsafe(no_mangle)]
pub extern "C" fn bellgantlet_gap(signature: &[u16], table: &[u16], witness: &mut [u16]) -> Shown
    ensures { GapCall limits signature.now table.now witness.old result.number result.length witness.new }
{
    bellgantlet::bellgantlet_gap(signature, table, witness)
}

#[unsafe(no_mangle)]
pub extern "C" fn bellgantlet_run(signature: &[u16], tree: &[u16], booking: &[u16]) -> Answer
    ensures { RunCall signature.now tree.now booking.now result.number (host_answer result) }
{
    bellgantlet::bellgantlet_run(signature, tree, booking)
}

#[unsafe(no_mangle)]
pub extern "C" fn bellgantlet_part(signature: &[u16], booking: &[u16], place: usize) -> Part
    ensures { PartCall signature.now booking.now place result.number result.start result.length }
{
    bellgantlet::bellgantlet_part(signature, booking, place)
}

#[unsafe(no_mangle)]
pub extern "C" fn bellgantlet_check_begin(signature: &[u16], check: &mut [u16; STATE]) -> u16
    ensures { (check.new ≡ begin_state signature.now) × (result ≡ refusal_in (begin_state signature.now)) }
{
    bellgantlet::bellgantlet_check_begin(signature, check)
}

#[unsafe(no_mangle)]
pub extern "C" fn bellgantlet_check_step(
    signature: &[u16],
    check: &mut [u16; STATE],
    word: u16,
) -> u16
    ensures { (check.new ≡ step_state signature.now check.old word) × (result ≡ refusal_in (step_state signature.now check.old word)) }
{
    bellgantlet::bellgantlet_check_step(signature, check, word)
}

#[unsafe(no_mangle)]
pub extern "C" fn bellgantlet_check_end(check: &[u16; STATE]) -> u16
    ensures { result ≡ end_number check.now }
{
    bellgantlet::bellgantlet_check_end(check)
}

#[unsafe(no_mangle)]
pub extern "C" fn bellgantlet_tally(log: &[u16]) -> Tallied
    ensures { TallyCall log.now result.number result.total result.counts }
{
    bellgantlet::bellgantlet_tally(log)
}

#[unsafe(no_mangle)]
pub extern "C" fn bellgantlet_replan(
    signature: &[u16],
    tree: &[u16],
    charges: &mut [u16],
) -> Replanned
    ensures { ReplanCall signature.now tree.now charges.old result.number result.changed charges.new }
{
    bellgantlet::bellgantlet_replan(signature, tree, charges)
}
