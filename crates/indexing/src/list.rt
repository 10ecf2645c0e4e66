// The rows of one rule.
ghost use Rattle.std.specs.Prelude.{length};
ghost use Rattle.indexing.specs.Indexing.{GivenList, ListIndexed};

use crate::one::index_row;

// The rows of the list that begins at a word, as rows of one rule, from row r of the table of rows on: the row behind the last.
pub fn index_list(
    t: &[u16],
    lists: &[u64],
    from: usize,
    number: u16,
    plan: u16,
    r: usize,
    rows: &mut [u16],
) -> usize
    requires { GivenList t.now lists.now from r (length rows.old) }
    ensures { (g : GivenList t.now lists.now from r (length rows.old)) → ListIndexed g.known.sig t.now lists.now g.ws number plan r result rows.old rows.new }
{
    let mut at = from;
    let mut q = r;
    while lists[at] > 0 {
        let len = lists[at] as usize;
        index_row(t, lists, at + 1, len, number, plan, q, rows);
        at = at + 1 + len;
        q += 1;
    }
    q
}
