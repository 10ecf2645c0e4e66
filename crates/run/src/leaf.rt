// The answers of a run: the default, and what a hit leaf binds.
ghost use Rattle.std.specs.Prelude.{◌≡◌};
ghost use Rattle.tree.specs.Answer.{no_rule};
ghost use Rattle.tree.specs.RunCall.{run_at};
ghost use Rattle.run.specs.Outcome.{answer_of, outcome};
ghost use Rattle.run.specs.Hit.{hit_at, hit_binds};

use crate::Answer;
use pattern::limits::{LAST_INDEX, UNBOUND, VARIABLES};
use signature::refusals::Refusal;
use tree::words::{HIT_WORDS, LAST_NUMBER};

// The default, with its plan.
pub fn no_rule(plan: u16) -> Answer
    ensures { answer_of result ≡ no_rule plan }
{
    Answer {
        rule: 0,
        plan,
        places: [UNBOUND; VARIABLES],
    }
}

// The pairs of a hit leaf: variables rising, and visits made.
fn bind(
    rule: u16,
    plan: u16,
    count: usize,
    pairs: &[u16],
    visits: &[u16],
) -> Result<Answer, Refusal>
    ensures { outcome result ≡ run_at (hit_binds rule plan count pairs.now visits.now) }
{
    let mut places = [UNBOUND; VARIABLES];
    let mut least = 0;
    let mut w = pairs;
    for i in 0..count {
        if w.len() < 2 {
            return Err(Refusal::TreeBroken);
        }
        let x = w[0] as usize;
        let v = w[1] as usize;
        if x < least {
            return Err(Refusal::TreeBroken);
        }
        if LAST_INDEX < x {
            return Err(Refusal::TreeBroken);
        }
        if visits.len() <= v {
            return Err(Refusal::TreeBroken);
        }
        places[x] = visits[v];
        least = x + 1;
        w = &w[2..];
    }
    Ok(Answer { rule, plan, places })
}

// A hit leaf, with no booking left.
pub(crate) fn hit(t: &[u16], visits: &[u16]) -> Result<Answer, Refusal>
    ensures { outcome result ≡ run_at (hit_at t.now visits.now) }
{
    if t.len() < HIT_WORDS {
        return Err(Refusal::TreeBroken);
    }
    let rule = t[1];
    if rule == 0 {
        return Err(Refusal::TreeBroken);
    }
    if LAST_NUMBER < rule {
        return Err(Refusal::TreeBroken);
    }
    let count = t[3] as usize;
    bind(rule, t[2], count, &t[HIT_WORDS..], visits)
}
