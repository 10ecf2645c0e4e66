// Whether a table is sound (refusal 3), and the rows of all its rules.
ghost use Rattle.std.specs.Prelude.{length};
ghost use Rattle.loading.specs.Add.{TooSmall};
ghost use Rattle.loading.specs.Load.{GivenLoad, LoadedAs};

use crate::add::{LoadError, add};
use meeting::lists::apart;
use meeting::rows::MATRIX;
use store::layout::{LENGTH, RULE_HEAD, RULES_AT, layout};

// The words used and the weight of all rules.
pub fn load(
    t: &[u16],
    table: &[u16],
    rows: &mut [u64],
    work: &mut [u64],
) -> Result<(usize, u16), LoadError>
    requires { GivenLoad t.now table.now }
    ensures { (g : GivenLoad t.now table.now) → LoadedAs (TooSmall (length rows.old) (length work.old)) g.known.sig table.now result rows.new }
{
    if !layout(table) {
        return Err(LoadError::Unsound);
    }
    let n = table[0];
    let mut at = RULES_AT;
    let mut used = 0;
    let mut total = 0;
    for i in 0..n {
        let from = at + RULE_HEAD;
        let end = from + table[at + LENGTH] as usize;
        (used, total) = add(t, &table[from..end], used, total, rows, work)?;
        at = end;
    }
    if work.len() < MATRIX {
        return Err(LoadError::NoRoom);
    }
    if !apart(t, rows, n, work) {
        return Err(LoadError::Unsound);
    }
    Ok((used, total))
}
