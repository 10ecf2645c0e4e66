// The rows of all rules.
ghost use Rattle.std.specs.Prelude.{length};
ghost use Rattle.indexing.specs.Indexing.{GivenRules, RulesIndexed, TableIndexed};

use crate::list::index_list;
use path::rows::DEFAULT_PLAN;
use store::layout::{DEFAULT_AT, LENGTH, PLAN, RULE_HEAD, RULES_AT};

// The table of the rows of all rules, in the order of their table. How many rows.
fn index_rows(t: &[u16], table: &[u16], lists: &[u64], rows: &mut [u16]) -> usize
    requires { GivenRules t.now table.now lists.now (length rows.old) }
    ensures { (g : GivenRules t.now table.now lists.now (length rows.old)) → RulesIndexed g.force.known.sig t.now lists.now g.force.rs result rows.new }
{
    let n = table[0];
    let mut at = RULES_AT;
    let mut from = 0;
    let mut r = 0;
    for _i in 0..n {
        r = index_list(t, lists, from + 1, table[at], table[at + PLAN], r, rows);
        from = from + 1 + lists[from] as usize;
        at = at + RULE_HEAD + table[at + LENGTH] as usize;
    }
    r
}

// The same, and behind the rows the plan of the table's default.
pub fn index_rules(t: &[u16], table: &[u16], lists: &[u64], rows: &mut [u16]) -> usize
    requires { GivenRules t.now table.now lists.now (length rows.old) }
    ensures { (g : GivenRules t.now table.now lists.now (length rows.old)) → TableIndexed g.force.known.sig t.now table.now lists.now g.force.rs result rows.new }
{
    let n = index_rows(t, table, lists, rows);
    rows[DEFAULT_PLAN] = table[DEFAULT_AT];
    n
}
