// A leaf: the default's plan; or a row's rule and plan, and which visit bound each of its variables.
#![tactic(auto)]

ghost use Rattle.std.specs.Prelude.{◌≡◌, ◌+◌, ◌*◌, ◌≤◌, ◌<◌, length, get_or};
ghost use Rattle.pattern.specs.Limits.{variable_count};
ghost use Rattle.sets.specs.Set.{set_limit};
ghost use Rattle.path.specs.State.{rule_of, plan_of, row_stride, cell_of, default_in};
ghost use Rattle.leaf.specs.Leaf.{Leaving, Pairing, Paired, Used, NextVariable, all_pairs, cell_pair, cell_pairs, leaf_of};
ghost use Rattle.signature.specs.Limits.{word_limit};
ghost use Rattle.rowset.specs.Limits.{row_limit};
ghost use Rattle.tree.specs.Tree.{default};
ghost use Rattle.path.specs.Wrote.{Wrote};

use path::rows::{DEFAULT_PLAN, ROW, cell_of};
use pattern::limits::{PATTERN_WORDS, VARIABLES};
use sets::set::{full, has as has_bit, join, lowest, minus};
use tree::words::{DEFAULT, DEFAULT_WORDS, HIT, HIT_WORDS};

const VARIABLE_COUNT: u16 = VARIABLES as u16;

fn rule_of(rows: &[u16], r: usize) -> u16
    requires { row_stride * r + row_stride ≤ length rows.now }
    ensures { result ≡ rule_of rows.now r }
{
    rows[ROW * r + 2]
}

fn plan_of(rows: &[u16], r: usize) -> u16
    requires { row_stride * r + row_stride ≤ length rows.now }
    ensures { result ≡ plan_of rows.now r }
{
    rows[ROW * r + 3]
}

// The pair of variable x in cell p of row r, where the cell binds it, from a word on: where it ends, None where there is no room.
fn one_pair(
    a: &[u64],
    rows: &[u16],
    vis: &[u16],
    r: usize,
    p: usize,
    x: u16,
    at: usize,
    out: &mut [u16],
) -> Option<usize>
    requires { Pairing a.now rows.now vis.now r (p + 1) × (x < set_limit) × (at ≤ length out.old) }
    ensures { Paired (cell_pair a.now rows.now vis.now r x p) at result out.old out.new }
{
    let c = cell_of(a, rows, r, p);
    if has_bit(c.vars, x as u32) {
        if out.len() - at < 2 {
            return None;
        }
        out[at] = x;
        out[at + 1] = vis[PATTERN_WORDS * r + p];
        return Some(at + 2);
    }
    Some(at)
}

// The pairs of variable x in the cells of row r before q.
fn variable_pairs(
    a: &[u64],
    rows: &[u16],
    vis: &[u16],
    r: usize,
    q: usize,
    x: u16,
    at: usize,
    out: &mut [u16],
) -> Option<usize>
    requires { Pairing a.now rows.now vis.now r q × (x < set_limit) × (at ≤ length out.old) }
    ensures { Paired (cell_pairs a.now rows.now vis.now r x q) at result out.old out.new }
{
    let mut to = at;
    for p in (0..q).rev() {
        to = one_pair(a, rows, vis, r, p, x, to, out)?;
    }
    Some(to)
}

// The variables that some cell of row r before q binds.
fn used(a: &[u64], rows: &[u16], r: usize, q: usize) -> u64
    requires { (row_stride * r + row_stride ≤ length rows.now) × (cell_of rows.now r q ≤ length a.now) }
    ensures { Used a.now rows.now r q result }
{
    let mut u = 0;
    for p in 0..q {
        let c = cell_of(a, rows, r, p);
        u = join(u, c.vars);
    }
    u
}

// The lowest variable of the set from x on, or VARIABLE_COUNT.
fn next_variable(bound: u64, x: u16) -> u16
    requires { x ≤ variable_count }
    ensures { NextVariable bound x result }
{
    let left = minus(bound, full(x as u32));
    if left == 0 {
        return VARIABLE_COUNT;
    }
    let y = lowest(left) as u16;
    if y < VARIABLE_COUNT {
        return y;
    }
    VARIABLE_COUNT
}

// The pairs of all variables, rising.
fn pairs(a: &[u64], rows: &[u16], vis: &[u16], r: usize, q: usize, out: &mut [u16]) -> Option<usize>
    requires { Pairing a.now rows.now vis.now r q }
    ensures { Paired (all_pairs a.now rows.now vis.now r q) 0 result out.old out.new }
{
    let bound = used(a, rows, r, q);
    let mut x = next_variable(bound, 0);
    let mut to = 0;
    while x < VARIABLE_COUNT {
        to = variable_pairs(a, rows, vis, r, q, x, to, out)?;
        x = next_variable(bound, x + 1);
    }
    Some(to)
}

// The leaf where no row is left: how long it is, or one more than there is room.
pub fn default_leaf(rows: &[u16], out: &mut [u16]) -> usize
    requires { row_stride * row_limit < length rows.now }
    ensures { Wrote (default (default_in rows.now)) 0 result out.old out.new }
{
    if out.len() < DEFAULT_WORDS {
        return out.len() + 1;
    }
    out[0] = DEFAULT;
    out[1] = rows[DEFAULT_PLAN];
    DEFAULT_WORDS
}

// The leaf of row r: how long it is, or one more than there is room.
pub fn leaf(a: &[u64], rows: &[u16], r: usize, cur: &[u8], vis: &[u16], out: &mut [u16]) -> usize
    requires { Leaving a.now rows.now r cur.now vis.now × (length out.old ≤ word_limit) }
    ensures { Wrote (leaf_of a.now rows.now vis.now r (get_or cur.now r 0)) 0 result out.old out.new }
{
    if out.len() < HIT_WORDS {
        return out.len() + 1;
    }
    let q = cur[r] as usize;
    let Some(n) = pairs(a, rows, vis, r, q, &mut out[HIT_WORDS..]) else {
        return out.len() + 1;
    };
    out[0] = HIT;
    out[1] = rule_of(rows, r);
    out[2] = plan_of(rows, r);
    out[3] = (n / 2) as u16;
    n + HIT_WORDS
}
