// The tree of the rows that stand at their cursors. The tail behind a node is lent to the child's writer.
#![tactic(auto)]

pub mod front;

ghost use Rattle.std.specs.Prelude.{◌≡◌, ◌++◌, ◌≤◌, length, replicate, drop};
ghost use Rattle.preorder.specs.Node.{Given, Branching, NodeWrote, BranchWrote};

use column::{column, heads, keep};
use front::{front as put_front, front_words};
use leaf::{default_leaf, leaf};
use path::rows::{CURSORS, INDEX_ROOM, VISITS};
use rowset::set::{SET_WORDS, first_in};
use sets::heads::{lowest, size, without};
use signature::decoded::{DECODED, first_of, head_arity};
use tree::words::SKIP;
use visits::{blank, lower, raise, real};

// So many nodes that skip one column each.
fn skips(out: &mut [u16], b: usize)
    requires { b ≤ length out.old }
    ensures { out.new ≡ replicate b 3 ++ drop b out.old }
{
    out[..b].fill(SKIP);
}

// Writes the tree of the rows alive, whose index is base, first in out: its length, or one more than there is room.
// Columns in which no row has a cell are skipped without a call, so that calls nest only where some row has one.
#[cycle(branch_node_visit)]
pub fn node(
    t: &[u16; DECODED],
    a: &[u64],
    rows: &[u16; INDEX_ROOM],
    n: usize,
    s: &[u64; SET_WORDS],
    cur: &mut [u8; CURSORS],
    vis: &mut [u16; VISITS],
    ncols: usize,
    v: usize,
    base: usize,
    out: &mut [u16],
) -> usize
    requires { Given t.now a.now rows.now n s.now cur.old vis.old ncols v base (length out.old) }
    ensures { NodeWrote t.now a.now rows.now n s.now cur.old vis.old ncols v base out.old result out.new cur.new vis.new }
{
    let b = blank(rows, n, s, cur, ncols);
    if out.len() < b {
        return out.len() + 1;
    }
    skips(out, b);
    let u = visit(
        t,
        a,
        rows,
        n,
        s,
        cur,
        vis,
        ncols - b,
        v + b,
        base + b,
        &mut out[b..],
    );
    b + u
}

// The same with the first column looked at.
#[cycle(branch_node_visit)]
fn visit(
    t: &[u16; DECODED],
    a: &[u64],
    rows: &[u16; INDEX_ROOM],
    n: usize,
    s: &[u64; SET_WORDS],
    cur: &mut [u8; CURSORS],
    vis: &mut [u16; VISITS],
    ncols: usize,
    v: usize,
    base: usize,
    out: &mut [u16],
) -> usize
    requires { Given t.now a.now rows.now n s.now cur.old vis.old ncols v base (length out.old) }
    ensures { NodeWrote t.now a.now rows.now n s.now cur.old vis.old ncols v base out.old result out.new cur.new vis.new }
{
    if out.len() == 0 {
        return 1;
    }
    let r = first_in(s, n);
    if r == n {
        return default_leaf(rows, out);
    }
    if ncols == 0 {
        return leaf(a, rows, r, cur, vis, out);
    }
    let mut re = [0; SET_WORDS];
    real(rows, n, s, cur, ncols, &mut re);
    let kind = column(t, a, rows, n, &re, cur);
    raise(cur, vis, n, &re, v);
    let Some(k) = kind else {
        out[0] = SKIP;
        let u = node(
            t,
            a,
            rows,
            n,
            s,
            cur,
            vis,
            ncols - 1,
            v + 1,
            base + 1,
            &mut out[1..],
        );
        lower(cur, n, &re);
        return u + 1;
    };
    let u = branch(t, a, rows, n, s, &re, cur, vis, ncols, v, base, out, k);
    lower(cur, n, &re);
    u
}

// The node for the first column, which is of kind k and refined, and its children.
#[cycle(branch_node_visit)]
fn branch(
    t: &[u16; DECODED],
    a: &[u64],
    rows: &[u16; INDEX_ROOM],
    n: usize,
    s: &[u64; SET_WORDS],
    re: &[u64; SET_WORDS],
    cur: &mut [u8; CURSORS],
    vis: &mut [u16; VISITS],
    ncols: usize,
    v: usize,
    base: usize,
    out: &mut [u16],
    k: usize,
) -> usize
    requires { Branching t.now a.now rows.now n s.now re.now cur.old vis.old ncols v base (length out.old) k }
    ensures { BranchWrote t.now a.now rows.now n s.now re.now cur.old vis.old ncols v base k out.old result out.new cur.new vis.new }
{
    let f = first_of(t, k);
    let all = heads(t, a, rows, n, re, cur, k);
    let m = size(all) as usize;
    let links = front_words(f, m);
    let mut at = links + m;
    if out.len() < at {
        return out.len() + 1;
    }
    put_front(out, f, all, m);
    let mut hs = all;
    let mut j = 0;
    while j < m {
        let h = lowest(hs);
        let mut x = [0; SET_WORDS];
        keep(a, rows, n, s, re, cur, h as usize, &mut x);
        let w = ncols - 1 + head_arity(t, f + h as u16) as usize;
        let u = node(
            t,
            a,
            rows,
            n,
            &x,
            cur,
            vis,
            w,
            v + 1,
            base + at,
            &mut out[at..],
        );
        if u > out.len() - at {
            return out.len() + 1;
        }
        out[links + j] = (base + at) as u16;
        at += u;
        let next = without(hs, h);
        hs = next;
        j += 1;
    }
    at
}
