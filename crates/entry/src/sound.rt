// The entry under rules in force.
ghost use Rattle.std.specs.Prelude.{◌*◌, ◌≤◌, length};
ghost use Rattle.rowset.specs.Limits.{row_limit};
ghost use Rattle.rowset.specs.Member.{set_words};
ghost use Rattle.table.specs.Limits.{witness_length};
ghost use Rattle.loading.specs.Add.{TooSmall};
ghost use Rattle.loading.specs.Load.{InForce};
ghost use Rattle.entry.specs.Settle.{TriedAs};

use crate::check::check;
use crate::settle::settle;
use loading::add::has_room;
use signature::refusals::Refusal;

// What an entry answers: the rule is in; a refusal; or a held rule's number, and the length of the booking that it shares.
#[derive(Clone, Copy)]
pub enum Entry {
    Entered,
    Refused(Refusal),
    Shares(u16, usize),
}

// Refusals 1 to 3 do not apply; the rules' lists of rows stand first in rows. None where the workspaces are too small: then nothing is written.
pub fn enter_sound(
    t: &[u16],
    number: u16,
    plan: u16,
    pattern: &[u16],
    used: usize,
    total: u16,
    table: &mut [u16],
    rows: &mut [u64],
    work: &mut [u64],
    witness: &mut [u16],
) -> Option<Entry>
    requires { InForce t.now table.old used total rows.old × (witness_length ≤ length witness.old) × (set_words * row_limit ≤ length work.old) }
    ensures { (g : InForce t.now table.old used total rows.old) → TriedAs (TooSmall (length rows.old) (length work.old)) g.known.sig g.rs number plan pattern.now table.old witness.old result table.new witness.new }
{
    if !has_room(pattern.len(), used, rows.len(), work.len()) {
        return None;
    }
    match check(t, table, number, pattern, used, total, rows, work) {
        Err(r) => Some(Entry::Refused(r)),
        Ok(at) => Some(settle(
            t, number, plan, pattern, at, used, table, rows, work, witness,
        )),
    }
}
