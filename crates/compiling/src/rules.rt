// The tree of the rules of a sound table, whose rows are loaded.
ghost use Rattle.std.specs.Prelude.{◌≡◌, ◌*◌, ◌≤◌, ◌<◌, length};
ghost use Rattle.signature.specs.Refusal.{number_in};
ghost use Rattle.pattern.specs.Limits.{pattern_limit};
ghost use Rattle.tree.specs.Limits.{tree_limit};
ghost use Rattle.rowset.specs.Limits.{row_limit};
ghost use Rattle.path.specs.State.{row_stride};
ghost use Rattle.table.specs.Matrix.{tree_words};
ghost use Rattle.table.specs.Rule.{default_of};
ghost use Rattle.table.specs.Calls.{TreeIn};
ghost use Rattle.writer.specs.Write.{GivenRows, TreeWritten};
ghost use Rattle.compiling.specs.Compile.{InTable, length_in};

use indexing::rules::index_rules;
use path::rows::{CURSORS, INDEX_ROOM, VISITS};
use signature::decoded::DECODED;
use signature::refusals::Refusal;
use tree::words::TREE_LIMIT;
use writer::write::write;

// The smaller working space for a tree, which is tried first: enough for most.
const SMALL_TREE: usize = 2048;

// The tree of n rows, if it is not too large for a working space of so many words.
#[inline(never)]
fn write_in<const TREE: usize>(
    t: &[u16; DECODED],
    lists: &[u64],
    rows: &[u16; INDEX_ROOM],
    n: usize,
    cur: &mut [u8; CURSORS],
    vis: &mut [u16; VISITS],
    space: &mut [u16],
) -> Option<usize>
    requires { GivenRows t.now lists.now rows.now n × (row_stride * row_limit < length rows.now) × (n ≤ length cur.old) × (pattern_limit * n ≤ length vis.old) × (TREE ≤ tree_limit) }
    ensures tree_written { TreeWritten t.now lists.now rows.now n TREE space.old result space.new }
    ensures cur_len_unchanged { (length cur.new ≡ length cur.old) × (length vis.new ≡ length vis.old) }
{
    let mut tree = [0u16; TREE];
    write(t, lists, rows, n, cur, vis, &mut tree, space)
}

// `rows` takes the table of the rules' rows; the slices behind it are the writer's working space.
pub fn write_rules(
    t: &[u16; DECODED],
    table: &[u16],
    lists: &[u64],
    rows: &mut [u16; INDEX_ROOM],
    cur: &mut [u8; CURSORS],
    vis: &mut [u16; VISITS],
    space: &mut [u16],
) -> Result<usize, Refusal>
    requires { InTable t.now table.now lists.now × (row_stride * row_limit < length rows.old) × (row_limit ≤ length cur.old) × (pattern_limit * row_limit ≤ length vis.old) }
    ensures { (g : InTable t.now table.now lists.now) → TreeIn (tree_words (default_of table.now) g.force.known.sig g.force.rs) space.old (number_in result) (length_in result) space.new }
{
    let n = index_rules(t, table, lists, rows);
    if let Some(len) = write_in::<SMALL_TREE>(t, lists, rows, n, cur, vis, space) {
        return Ok(len);
    }
    match write_in::<TREE_LIMIT>(t, lists, rows, n, cur, vis, space) {
        Some(len) => Ok(len),
        None => Err(Refusal::TreeTooLarge),
    }
}
