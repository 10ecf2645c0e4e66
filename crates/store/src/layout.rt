// The layout of a table (part of refusal 3).
ghost use Rattle.std.specs.Prelude.{◌≡◌, ◌≤◌, length, eqb};
ghost use Rattle.signature.specs.Lists.{all, is_some};
ghost use Rattle.table.specs.Limits.{limits, table_length};
ghost use Rattle.store.specs.Head.{HeadAt};
ghost use Rattle.store.specs.Laid.{laid};

use pattern::limits::PATTERN_WORDS;
use tree::words::LAST_NUMBER;

// The rules that a table may hold; where its default plan and its first rule stand; the words before a rule's pattern: number, plan, pattern length.
pub const RULES: u16 = 64;

pub const DEFAULT_AT: usize = 1;

pub const RULES_AT: usize = 2;

pub const RULE_HEAD: usize = 3;

pub const PLAN: usize = 1;

pub const LENGTH: usize = 2;

// The default plan of an emptied table.
pub const EMPTIED_DEFAULT: u16 = 1;

// The words of a table.
pub const TABLE: usize = RULES_AT + RULES as usize * (RULE_HEAD + PATTERN_WORDS);

// Of the rule that begins at an index its number, which must rise above the last one, and the index behind it.
fn rule_from(table: &[u16], at: usize, last: u16) -> Option<(u16, usize)>
    requires { (table_length limits ≤ length table.now) × (at ≤ table_length limits) }
    ensures { HeadAt table.now at last result }
{
    if TABLE - at < RULE_HEAD {
        return None;
    }
    let number = table[at];
    if number <= last {
        return None;
    }
    if LAST_NUMBER < number {
        return None;
    }
    let from = at + RULE_HEAD;
    let len = table[at + LENGTH] as usize;
    if TABLE - from < len {
        return None;
    }
    Some((number, from + len))
}

// Whether every word is 0. With no way out before the end the words are taken eight at a time.
pub fn zeros(w: &[u16]) -> bool
    ensures { result ≡ all (λ x. eqb x 0) w.now }
{
    let mut bits: u16 = 0;
    for x in w {
        bits |= *x;
    }
    bits == 0
}

// Whether the table has that layout.
pub fn layout(table: &[u16]) -> bool
    requires { table_length limits ≤ length table.now }
    ensures { result ≡ is_some (laid limits table.now) }
{
    let n = table[0];
    if RULES < n {
        return false;
    }
    let mut at = RULES_AT;
    let mut last = 0;
    for i in 0..n {
        let Some((number, end)) = rule_from(table, at, last) else {
            return false;
        };
        last = number;
        at = end;
    }
    zeros(&table[at..TABLE])
}
