// 02, job 5: how often each rule stands in a log, in one pass over it.
#![tactic(auto)]

ghost use Rattle.std.specs.Prelude.{◌≡◌, true, ◌≤◌, length, replicate};
ghost use Rattle.day_log.specs.Limits.{log_limit, rule_numbers};
ghost use Rattle.day_log.specs.Log.{counts as counts_of, rules_only, TallyCall};
ghost use Rattle.signature.specs.Refusal.{number_in};
ghost use Rattle.counting.specs.Outcome.{total_in, counts_in};

use signature::refusals::Refusal;
use tree::words::LAST_NUMBER;

pub const LOG_LIMIT: usize = 4096;

// Rules 1 to 999, and the default as rule 0.
pub const RULE_NUMBERS: usize = LAST_NUMBER as usize + 1;

// The counts by rule number, and how many entries there are.
#[derive(Clone, Copy)]
pub struct Counted {
    pub total: u16,
    pub counts: [u16; RULE_NUMBERS],
}

// Whether all entries are rule numbers; then they are counted.
fn count(log: &[u16], counts: &mut [u16]) -> bool
    requires { (length log.now ≤ log_limit) × (counts.old ≡ replicate rule_numbers 0) }
    ensures { (result ≡ rules_only log.now) × (result ≡ true → counts.new ≡ counts_of log.now) }
{
    for entry in log {
        let n = *entry;
        if LAST_NUMBER < n {
            return false;
        }
        let at = n as usize;
        counts[at] += 1;
    }
    true
}

pub fn tally(log: &[u16]) -> Result<Counted, Refusal>
    ensures { TallyCall log.now (number_in result) (total_in result) (counts_in result) }
{
    if LOG_LIMIT < log.len() {
        return Err(Refusal::LogBeyond);
    }
    let mut counts = [0u16; RULE_NUMBERS];
    if !count(log, &mut counts) {
        return Err(Refusal::LogBeyond);
    }
    Ok(Counted {
        total: log.len() as u16,
        counts,
    })
}
