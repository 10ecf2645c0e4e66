// The product of two lists of rows. A list has before each row the number of its words, and behind the last a 0.
ghost use Rattle.std.specs.Prelude.{◌+◌};
ghost use Rattle.cell.specs.RowList.{GivenOne, WrittenFirst, one_entry, entries};
ghost use Rattle.cell.specs.RowList.{from};
ghost use Rattle.rowlist.specs.Product.{GivenEach, each_entry, GivenProduct, Product, products};

use cell::cell::combine;

// The two rows at the front of x and y as one row of a list, first in out; 0 words where it is dropped.
fn entry(t: &[u16], x: &[u64], y: &[u64], out: &mut [u64]) -> usize
    requires { GivenOne t.now x.now y.now out.old }
    ensures { (g : GivenOne t.now x.now y.now out.old) → WrittenFirst (one_entry g) result out.new }
{
    let Some(n) = combine(t, x, y, &mut out[1..]) else {
        return 0;
    };
    out[0] = n as u64;
    1 + n
}

// The row at the front of x with each row of the list y, first in out; how many words.
fn one_by_all(t: &[u16], x: &[u64], y: &[u64], out: &mut [u64]) -> usize
    requires { GivenEach t.now x.now y.now out.old }
    ensures { (g : GivenEach t.now x.now y.now out.old) → WrittenFirst (each_entry g) result out.new }
{
    let mut used = 0;
    let mut at = 0;
    while y[at] > 0 {
        let len = y[at] as usize;
        let from = at + 1;
        used += entry(t, x, &y[from..], &mut out[used..]);
        at = from + len;
    }
    used
}

// Each row of the list x with each of the list y: the list of them first in out; how many words without its end.
pub fn product(t: &[u16], x: &[u64], y: &[u64], out: &mut [u64]) -> usize
    requires { GivenProduct t.now x.now y.now out.old }
    ensures { (g : GivenProduct t.now x.now y.now out.old) → Product (entries g.K g.kind (products g)) result out.new }
{
    let mut used = 0;
    let mut at = 0;
    while x[at] > 0 {
        let len = x[at] as usize;
        let from = at + 1;
        used += one_by_all(t, &x[from..], y, &mut out[used..]);
        at = from + len;
    }
    out[used] = 0;
    used
}
