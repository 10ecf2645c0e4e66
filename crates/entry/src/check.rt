// Refusals 4, 5 and 7 to 11 of an entry.
ghost use Rattle.std.specs.Prelude.{List, length};
ghost use Rattle.signature.specs.Refusal.{numbered};
ghost use Rattle.table.specs.Limits.{limits};
ghost use Rattle.table.specs.Rule.{Rule};
ghost use Rattle.store.specs.Laid.{Holds};
ghost use Rattle.entry.specs.Check.{FreeFor, GivenCheck, CheckedAs};

use admission::admit::admit;
use loading::add::WEIGHT;
use signature::refusals::Refusal;
use store::find::find;
use store::layout::RULES;
use tree::words::LAST_NUMBER;

// 4 and 5: where a rule with this number would go in.
fn free_at(table: &[u16], number: u16) -> Result<usize, Refusal>
    requires { (rs : List Rule) × Holds limits table.now rs }
    ensures { (rs : List Rule) → Holds limits table.now rs → FreeFor number rs (numbered result) }
{
    if number < 1 {
        return Err(Refusal::NumberOutside);
    }
    if LAST_NUMBER < number {
        return Err(Refusal::NumberOutside);
    }
    match find(table, number) {
        Ok(_) => Err(Refusal::Held),
        Err(at) => Ok(at),
    }
}

// 4 to 11, or the index at which the rule goes in: the rules' lists of rows stand first in rows, and weigh total; behind them is room.
pub fn check(
    t: &[u16],
    table: &[u16],
    number: u16,
    pattern: &[u16],
    used: usize,
    total: u16,
    rows: &mut [u64],
    work: &mut [u64],
) -> Result<usize, Refusal>
    requires { GivenCheck t.now table.now pattern.now used total rows.old (length work.old) }
    ensures { (g : GivenCheck t.now table.now pattern.now used total rows.old (length work.old)) → CheckedAs g.force.known.sig g.force.rs number pattern.now used total (numbered result) rows.new }
{
    let at = free_at(table, number)?;
    let weight = admit(t, pattern, &mut rows[used..], work)?;
    if RULES <= table[0] {
        return Err(Refusal::Full);
    }
    if WEIGHT < total + weight {
        return Err(Refusal::Full);
    }
    Ok(at)
}
