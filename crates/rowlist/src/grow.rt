// Rows behind rows: each row of a list with each of another at its end.
ghost use Rattle.std.specs.Prelude.{◌≡◌, [], ◌∷◌, ◌++◌, ◌+◌, ◌≤◌, length, take};
ghost use Rattle.cell.specs.RowList.{WrittenFirst, from};
ghost use Rattle.rowlist.specs.Product.{Product};
ghost use Rattle.rowlist.specs.Grow.{words_list, ListFirst, GivenAppend, GivenAppends, GivenGrow, appends, grown};

// The first n words of x into out, from a word on. Word by word: for the slice's own copy an archive for C would need memmove.
pub fn copy(x: &[u64], n: usize, out: &mut [u64], at: usize)
    requires { (n ≤ length x.now) × (at + n ≤ length out.old) }
    ensures { take (at + n) out.new ≡ take at out.old ++ take n x.now }
{
    for i in 0..n {
        out[at + i] = x[i];
    }
}

// The row of n words at the front of x and that of m words at the front of y as one row of a list.
fn append(x: &[u64], n: usize, y: &[u64], m: usize, out: &mut [u64]) -> usize
    requires { GivenAppend x.now n y.now m (length out.old) }
    ensures { (g : GivenAppend x.now n y.now m (length out.old)) → WrittenFirst (words_list ((g.left.row ++ g.right.row) ∷ [])) result out.new }
{
    copy(x, n, out, 1);
    let from = 1 + n;
    copy(y, m, out, from);
    out[0] = (n + m) as u64;
    from + m
}

// Each row of the list y behind the row of n words at the front of x.
pub(crate) fn append_all(x: &[u64], n: usize, y: &[u64], out: &mut [u64]) -> usize
    requires { GivenAppends x.now n y.now (length out.old) }
    ensures { (g : GivenAppends x.now n y.now (length out.old)) → WrittenFirst (words_list (appends g.left.row g.right.rows)) result out.new }
{
    let mut used = 0;
    let mut at = 0;
    while y[at] > 0 {
        let len = y[at] as usize;
        let from = at + 1;
        used += append(x, n, &y[from..], len, &mut out[used..]);
        at = from + len;
    }
    used
}

// Each row of the list y behind each of the list x: the list of them first in out; how many words without its end.
pub(crate) fn append_each(x: &[u64], y: &[u64], out: &mut [u64]) -> usize
    requires { GivenGrow x.now y.now (length out.old) }
    ensures { (g : GivenGrow x.now y.now (length out.old)) → Product (words_list (grown g.left.rows g.right.rows)) result out.new }
{
    let mut used = 0;
    let mut at = 0;
    while x[at] > 0 {
        let len = x[at] as usize;
        let from = at + 1;
        used += append_all(&x[from..], len, y, &mut out[used..]);
        at = from + len;
    }
    out[used] = 0;
    used
}

// How many rows a list has.
pub fn count(y: &[u64]) -> usize
    requires { ListFirst y.now }
    ensures { (g : ListFirst y.now) → result ≡ length g.rows }
{
    let mut n = 0;
    let mut at = 0;
    while y[at] > 0 {
        let len = y[at] as usize;
        at = at + 1 + len;
        n += 1;
    }
    n
}
