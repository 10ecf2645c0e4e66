// Refusal 12 of an entry that is past the others, and the rule stored.
ghost use Rattle.std.specs.Prelude.{length};
ghost use Rattle.entry.specs.Entry.{entry_answer, Numbered};
ghost use Rattle.entry.specs.Settle.{GivenSettle, EntryOf};

use crate::sound::Entry;
use loading::add::place;
use sharing::first::first_sharer;
use store::change::put;

// The rule goes in at an index of the table where no held rule shares a booking with it.
pub fn settle(
    t: &[u16],
    number: u16,
    plan: u16,
    pattern: &[u16],
    at: usize,
    used: usize,
    table: &mut [u16],
    rows: &mut [u64],
    work: &mut [u64],
    witness: &mut [u16],
) -> Entry
    requires { GivenSettle t.now table.old number pattern.now at used rows.old (length work.old) (length witness.old) }
    ensures entry_of { (g : GivenSettle t.now table.old number pattern.now at used rows.old (length work.old) (length witness.old)) → EntryOf g.force.known.sig g.force.rs number plan pattern.now table.old witness.old (entry_answer result) table.new witness.new }
    ensures numbered { Numbered result }
{
    place(t, pattern, used, rows, work);
    if let Some(s) = first_sharer(t, table, rows, used + 1, work, witness) {
        return Entry::Shares(s.rule, s.length);
    }
    put(table, at, number, plan, pattern);
    Entry::Entered
}
