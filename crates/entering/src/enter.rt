// The call that enters a rule.
ghost use Rattle.std.specs.Prelude.{◌≡◌, ◌&&◌, ◌*◌, ◌≤◌, length};
ghost use Rattle.rowset.specs.Limits.{row_limit};
ghost use Rattle.rowset.specs.Member.{set_words};
ghost use Rattle.table.specs.Limits.{limits};
ghost use Rattle.table.specs.Calls.{Enter, long_table, long_witness};
ghost use Rattle.builder.specs.Build.{row_room};
ghost use Rattle.loading.specs.Add.{TooSmall, rows_room};
ghost use Rattle.entry.specs.Entry.{entry_answer, Numbered};
ghost use Rattle.entering.specs.Enter.{GivenEnter, TriesAs};

use booking::walk::BOOKING_LIMIT;
use builder::build::ROW_ROOM;
use entry::sound::{Entry, enter_sound};
use loading::add::{LoadError, ROWS_ROOM, SMALL_ROWS, SMALL_WORK};
use loading::load::load;
use opening::begin::begin;
use signature::decoded::DECODED;
use signature::refusals::Refusal;
use store::layout::TABLE;

// The words of a witness buffer.
pub const WITNESS: usize = BOOKING_LIMIT;

// Whether refusal 2 does not apply.
pub fn long_enough(table: &[u16], witness: &[u16]) -> bool
    ensures { result ≡ (long_table limits table.now && long_witness witness.now) }
{
    TABLE <= table.len() && WITNESS <= witness.len()
}

// The entry past refusals 1 and 2; None where arrays of so many words are too small. Not compiled into its callers, for the reason of `opening::load`.
#[inline(never)]
fn enter_in<const ROWS: usize, const WORK: usize>(
    t: &[u16],
    number: u16,
    plan: u16,
    pattern: &[u16],
    table: &mut [u16],
    witness: &mut [u16],
) -> Option<Entry>
    requires { GivenEnter t.now table.old witness.old × (ROWS ≤ rows_room) × (WORK ≤ row_room) × (set_words * row_limit ≤ WORK) }
    ensures { (g : GivenEnter t.now table.old witness.old) → TriesAs (TooSmall ROWS WORK) g.load.known.sig number plan pattern.now table.old witness.old result table.new witness.new }
{
    let mut rows = [0u64; ROWS];
    let mut work = [0u64; WORK];
    match load(t, table, &mut rows, &mut work) {
        Err(LoadError::NoRoom) => None,
        Err(LoadError::Unsound) => Some(Entry::Refused(Refusal::Unsound)),
        Ok((used, total)) => enter_sound(
            t, number, plan, pattern, used, total, table, &mut rows, &mut work, witness,
        ),
    }
}

// The workspaces of one size are gone before those of the other come.
pub fn enter(
    ss: &[u16],
    number: u16,
    plan: u16,
    pattern: &[u16],
    table: &mut [u16],
    witness: &mut [u16],
) -> Entry
    ensures enter { Enter limits ss.now number plan pattern.now table.old witness.old (entry_answer result) table.new witness.new }
    ensures numbered { Numbered result }
{
    let long = long_enough(table, witness);
    let mut t = [0u16; DECODED];
    if let Err(r) = begin(ss, long, &mut t) {
        return Entry::Refused(r);
    }
    if let Some(e) = enter_in::<SMALL_ROWS, SMALL_WORK>(&t, number, plan, pattern, table, witness) {
        return e;
    }
    enter_in::<ROWS_ROOM, ROW_ROOM>(&t, number, plan, pattern, table, witness).unwrap()
}
