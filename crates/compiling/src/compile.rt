// The call compile (1 to 3, 14).
ghost use Rattle.std.specs.Prelude.{◌≤◌};
ghost use Rattle.signature.specs.Refusal.{number_in};
ghost use Rattle.builder.specs.Build.{row_room};
ghost use Rattle.table.specs.Limits.{limits};
ghost use Rattle.table.specs.Calls.{Compile, TreeIn};
ghost use Rattle.table.specs.Matrix.{tree_words};
ghost use Rattle.table.specs.Rule.{default_of};
ghost use Rattle.loading.specs.Add.{TooSmall, rows_room};
ghost use Rattle.loading.specs.Load.{GivenLoad};
ghost use Rattle.compiling.specs.Compile.{InTable, TriedAs, length_in};

use crate::rules::write_rules;
use builder::build::ROW_ROOM;
use loading::add::{LoadError, ROWS_ROOM, SMALL_ROWS, SMALL_WORK};
use opening::begin::begin;
use opening::load::load_in;
use path::rows::{CURSORS, INDEX_ROOM, VISITS};
use signature::decoded::DECODED;
use signature::refusals::Refusal;
use store::layout::TABLE;

// The tree of the table's rules, with the writer's workspaces; how long it is.
fn write_tree(
    t: &[u16; DECODED],
    table: &[u16],
    lists: &[u64],
    space: &mut [u16],
) -> Result<usize, Refusal>
    requires { InTable t.now table.now lists.now }
    ensures { (g : InTable t.now table.now lists.now) → TreeIn (tree_words (default_of table.now) g.force.known.sig g.force.rs) space.old (number_in result) (length_in result) space.new }
{
    let mut rows = [0u16; INDEX_ROOM];
    let mut cur = [0u8; CURSORS];
    let mut vis = [0u16; VISITS];
    write_rules(t, table, lists, &mut rows, &mut cur, &mut vis, space)
}

// None where arrays of so many words are too small for the table. Not compiled into its callers: so the largest arrays stand in a frame that a small table does not have.
#[inline(never)]
fn compile_in<const ROWS: usize, const WORK: usize>(
    t: &[u16; DECODED],
    table: &[u16],
    space: &mut [u16],
) -> Option<Result<usize, Refusal>>
    requires { GivenLoad t.now table.now × (ROWS ≤ rows_room) × (WORK ≤ row_room) }
    ensures { (g : GivenLoad t.now table.now) → TriedAs (TooSmall ROWS WORK) g.known.sig table.now space.old result space.new }
{
    let mut lists = [0u64; ROWS];
    match load_in::<WORK>(t, table, &mut lists) {
        Err(LoadError::NoRoom) => None,
        Err(LoadError::Unsound) => Some(Err(Refusal::Unsound)),
        Ok(_) => Some(write_tree(t, table, &lists, space)),
    }
}

// The lists of rows of one size are gone before those of the other come.
pub fn compile(ss: &[u16], table: &[u16], space: &mut [u16]) -> Result<usize, Refusal>
    ensures { Compile limits ss.now table.now space.old (number_in result) (length_in result) space.new }
{
    let mut t = [0u16; DECODED];
    begin(ss, table.len() >= TABLE, &mut t)?;
    if let Some(compiled) = compile_in::<SMALL_ROWS, SMALL_WORK>(&t, table, space) {
        return compiled;
    }
    compile_in::<ROWS_ROOM, ROW_ROOM>(&t, table, space).unwrap()
}
