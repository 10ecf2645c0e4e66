// The gap call (1 to 3): a booking that no rule in force takes.
#![tactic(auto)]

ghost use Rattle.std.specs.Prelude.{◌+◌, ◌*◌, ◌≤◌, ◌<◌, length, IfSome};
ghost use Rattle.signature.specs.Refusal.{number_in};
ghost use Rattle.signature.specs.Limits.{booking_limit};
ghost use Rattle.row.specs.Limits.{place_words};
ghost use Rattle.rowset.specs.Limits.{row_limit};
ghost use Rattle.path.specs.State.{row_stride};
ghost use Rattle.search.specs.Search.{Searched};
ghost use Rattle.builder.specs.Build.{row_room};
ghost use Rattle.loading.specs.Add.{TooSmall, rows_room};
ghost use Rattle.table.specs.Limits.{limits, witness_length};
ghost use Rattle.table.specs.Gap.{GapCall, ShowsGap};
ghost use Rattle.entering.specs.Enter.{GivenEnter};
ghost use Rattle.compiling.specs.Compile.{InTable};
ghost use Rattle.gap.specs.Answer.{TriedAs, Worded, length_in, shown};
ghost use Rattle.gap.specs.Rows.{rows_in};

use builder::build::ROW_ROOM;
use entering::enter::long_enough;
use indexing::rules::index_rules;
use loading::add::{LoadError, ROWS_ROOM, SMALL_ROWS, SMALL_WORK};
use opening::begin::begin;
use opening::load::load_in;
use path::rows::INDEX_ROOM;
use search::search::search;
use signature::decoded::DECODED;
use signature::refusals::Refusal;
use values::shortest::VALUE_ROOM;

// A value that no row of the table's rules takes, first in v; how many words. `rows` takes the table of their rows.
fn find(
    t: &[u16; DECODED],
    table: &[u16],
    lists: &[u64],
    rows: &mut [u16; INDEX_ROOM],
    v: &mut [u16],
) -> Option<usize>
    requires { InTable t.now table.now lists.now × (row_stride * row_limit < length rows.old) × (booking_limit + place_words ≤ length v.old) }
    ensures { (g : InTable t.now table.now lists.now) → Searched g.force.known.sig (rows_in g.force.known.sig g.force.rs) result v.new }
{
    let n = index_rules(t, table, lists, rows);
    search(t, lists, rows, n, v)
}

// It goes into the witness buffer as a booking.
fn show(t: &[u16; DECODED], table: &[u16], lists: &[u64], witness: &mut [u16]) -> Option<usize>
    requires { InTable t.now table.now lists.now × (witness_length ≤ length witness.old) }
    ensures shows { (g : InTable t.now table.now lists.now) → ShowsGap g.force.known.sig g.force.rs (shown result) witness.old witness.new }
    ensures worded { IfSome result (λ n. 1 ≤ n) }
{
    let mut rows = [0u16; INDEX_ROOM];
    let mut v = [0u16; VALUE_ROOM];
    let m = find(t, table, lists, &mut rows, &mut v)?;
    witness[..m].copy_from_slice(&v[..m]);
    Some(m)
}

// None where arrays of so many words are too small for the table. Not compiled into its callers, for the reason of `opening::load`.
#[inline(never)]
fn gap_in<const ROWS: usize, const WORK: usize>(
    t: &[u16; DECODED],
    table: &[u16],
    witness: &mut [u16],
) -> Option<Result<Option<usize>, Refusal>>
    requires { GivenEnter t.now table.now witness.old × (ROWS ≤ rows_room) × (WORK ≤ row_room) }
    ensures { (g : GivenEnter t.now table.now witness.old) → TriedAs (TooSmall ROWS WORK) g.load.known.sig table.now witness.old result witness.new }
{
    let mut lists = [0u64; ROWS];
    match load_in::<WORK>(t, table, &mut lists) {
        Err(LoadError::NoRoom) => None,
        Err(LoadError::Unsound) => Some(Err(Refusal::Unsound)),
        Ok(_) => Some(Ok(show(t, table, &lists, witness))),
    }
}

// The length of the booking that is shown, if there is one. The lists of rows of one size are gone before those of the other come.
pub fn gap(ss: &[u16], table: &[u16], witness: &mut [u16]) -> Result<Option<usize>, Refusal>
    ensures call { GapCall limits ss.now table.now witness.old (number_in result) (length_in result) witness.new }
    ensures worded { Worded result }
{
    let long = long_enough(table, witness);
    let mut t = [0u16; DECODED];
    begin(ss, long, &mut t)?;
    if let Some(answer) = gap_in::<SMALL_ROWS, SMALL_WORK>(&t, table, witness) {
        return answer;
    }
    gap_in::<ROWS_ROOM, ROW_ROOM>(&t, table, witness).unwrap()
}
