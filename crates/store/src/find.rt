// Where rules stand in a table.
ghost use Rattle.std.specs.Prelude.{◌≡◌, List};
ghost use Rattle.table.specs.Limits.{limits};
ghost use Rattle.table.specs.Rule.{Rule, rules_end};
ghost use Rattle.store.specs.Laid.{Holds};
ghost use Rattle.store.specs.Place.{FoundAt};

use crate::layout::{LENGTH, RULE_HEAD, RULES_AT};

// The index behind the last rule.
pub(crate) fn end(table: &[u16]) -> usize
    requires { (rs : List Rule) × Holds limits table.now rs }
    ensures { (rs : List Rule) → Holds limits table.now rs → result ≡ rules_end rs }
{
    let n = table[0];
    let mut at = RULES_AT;
    for i in 0..n {
        let len = table[at + LENGTH] as usize;
        at = at + RULE_HEAD + len;
    }
    at
}

// Where the rule with this number stands, or in an Err where it would.
pub fn find(table: &[u16], number: u16) -> Result<usize, usize>
    requires { (rs : List Rule) × Holds limits table.now rs }
    ensures { (rs : List Rule) → Holds limits table.now rs → FoundAt number rs result }
{
    let n = table[0];
    let mut at = RULES_AT;
    for i in 0..n {
        let m = table[at];
        if m == number {
            return Ok(at);
        }
        if number < m {
            return Err(at);
        }
        at = at + RULE_HEAD + table[at + LENGTH] as usize;
    }
    Err(at)
}
