// A table emptied; a rule put in, and taken out.
ghost use Rattle.std.specs.Prelude.{◌≡◌, [], ◌+◌, ◌≤◌, length};
ghost use Rattle.pattern.specs.Limits.{pattern_limit};
ghost use Rattle.table.specs.Limits.{limits, table_length, rule_head, emptied_default};
ghost use Rattle.table.specs.Rule.{rule_words, default_of, stored, add_rule, take_out};
ghost use Rattle.store.specs.Change.{GivenPut, GivenTake};

use crate::find::end;
use crate::layout::{DEFAULT_AT, EMPTIED_DEFAULT, LENGTH, PLAN, RULE_HEAD, TABLE};
use shift::{copy, remove, right};

// The empty table.
pub fn clear(table: &mut [u16])
    requires { table_length limits ≤ length table.old }
    ensures { table.new ≡ stored limits emptied_default [] table.old }
{
    table[0..TABLE].fill(0);
    table[DEFAULT_AT] = EMPTIED_DEFAULT;
}

// The words of a rule.
fn write(words: &mut [u16], number: u16, plan: u16, pattern: &[u16])
    requires { (length words.old ≡ rule_head + length pattern.now) × (length pattern.now ≤ pattern_limit) }
    ensures { words.new ≡ rule_words (record { number = number; plan = plan; pattern = pattern.now }) }
{
    words[0] = number;
    words[PLAN] = plan;
    words[LENGTH] = pattern.len() as u16;
    copy(&mut words[RULE_HEAD..], pattern);
}

// The rule goes in at an index that `find` gave; what follows moves on, and the default stays.
pub fn put(table: &mut [u16], at: usize, number: u16, plan: u16, pattern: &[u16])
    requires { GivenPut table.old at number pattern.now }
    ensures { (g : GivenPut table.old at number pattern.now) → table.new ≡ stored limits (default_of table.old) (add_rule (record { number = number; plan = plan; pattern = pattern.now }) g.rs) table.old }
{
    let behind = end(table);
    let d = RULE_HEAD + pattern.len();
    right(table, at, behind, d);
    write(&mut table[at..at + d], number, plan, pattern);
    table[0] += 1;
}

// The rule at an index that `find` gave goes; what follows moves back, and zeros follow it.
pub fn take_out(table: &mut [u16], at: usize)
    requires { GivenTake table.old at }
    ensures { (g : GivenTake table.old at) → table.new ≡ stored limits (default_of table.old) (take_out g.number g.rs) table.old }
{
    let behind = end(table);
    let d = RULE_HEAD + table[at + LENGTH] as usize;
    remove(table, at, behind, d);
    table[0] -= 1;
}
