// The rules of a table against a booking, one after the other.
ghost use Rattle.std.specs.Prelude.{◌≡◌};
ghost use Rattle.table.specs.Decide.{direct};
ghost use Rattle.table.specs.Rule.{default_of};
ghost use Rattle.run.specs.Outcome.{answer_of};
ghost use Rattle.deciding.specs.Decide.{Judging, ByRule, answered_by};

use matching::places::places;
use matching::takes::takes;
use run::Answer;
use run::leaf::no_rule;
use store::layout::{DEFAULT_AT, LENGTH, PLAN, RULE_HEAD, RULES_AT};

// The answer by the rule at an index, which takes the booking.
fn by_rule(t: &[u16], table: &[u16], at: usize, p: &[u16], b: &[u16]) -> Answer
    requires { ByRule t.now table.now at p.now b.now }
    ensures { (g : ByRule t.now table.now at p.now b.now) → answer_of result ≡ answered_by g }
{
    Answer {
        rule: table[at],
        plan: table[at + PLAN],
        places: places(t, p, b),
    }
}

pub fn by_rules(t: &[u16], table: &[u16], b: &[u16]) -> Answer
    requires { Judging t.now table.now b.now }
    ensures { (g : Judging t.now table.now b.now) → answer_of result ≡ direct (default_of table.now) g.force.known.sig g.force.rs g.value }
{
    let n = table[0];
    let mut at = RULES_AT;
    for i in 0..n {
        let from = at + RULE_HEAD;
        let end = from + table[at + LENGTH] as usize;
        if takes(t, &table[from..end], b) {
            return by_rule(t, table, at, &table[from..end], b);
        }
        at = end;
    }
    no_rule(table[DEFAULT_AT])
}
