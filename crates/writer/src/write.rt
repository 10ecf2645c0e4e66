// The tree of the rows of a set of rules.
ghost use Rattle.std.specs.Prelude.{◌≡◌, ◌*◌, ◌≤◌, ◌<◌, length};
ghost use Rattle.pattern.specs.Limits.{pattern_limit};
ghost use Rattle.rowset.specs.Limits.{row_limit};
ghost use Rattle.path.specs.State.{row_stride};
ghost use Rattle.writer.specs.Write.{GivenRows, TreeWritten};

use path::rows::{CURSORS, INDEX_ROOM, VISITS};
use preorder::node;
use rowset::set::first_rows;
use signature::decoded::DECODED;
use tree::words::TREE_LIMIT;

// Writes the tree of n rows first in out: how many words, or nothing and None where it is too large, for out or for the working space `tree`. The words of the rows stand in a, and the table of rows says where. The slices before out are working space.
pub fn write(
    t: &[u16; DECODED],
    a: &[u64],
    rows: &[u16; INDEX_ROOM],
    n: usize,
    cur: &mut [u8; CURSORS],
    vis: &mut [u16; VISITS],
    tree: &mut [u16],
    out: &mut [u16],
) -> Option<usize>
    requires { GivenRows t.now a.now rows.now n × (row_stride * row_limit < length rows.now) × (n ≤ length cur.old) × (pattern_limit * n ≤ length vis.old) }
    ensures tree_written { TreeWritten t.now a.now rows.now n (length tree.old) out.old result out.new }
    ensures cur_len_unchanged { (length cur.new ≡ length cur.old) × (length vis.new ≡ length vis.old) }
{
    cur[..n].fill(0);
    let s = first_rows(n);
    let room = out.len().min(tree.len());
    let most = room.min(TREE_LIMIT);
    let u = node(t, a, rows, n, &s, cur, vis, 1, 0, 0, &mut tree[..most]);
    if u > most {
        return None;
    }
    out[..u].copy_from_slice(&tree[..u]);
    Some(u)
}
