// What one node of a tree asks for.
ghost use Rattle.std.specs.Prelude.{◌≡◌, ◌<◌};
ghost use Rattle.std.proofs.Math.ListN.{get_elem?};
ghost use Rattle.signature.specs.Decoded.{Known};
ghost use Rattle.signature.specs.Limits.{last_level};
ghost use Rattle.tree.specs.Run.{place_of, rise_to};
ghost use Rattle.nodes.specs.Parts.{Parts, HeadByTable};
ghost use Rattle.nodes.specs.Step.{default_step, link_at, link_to, leads, split_to, step_at, step_on};

use booking::walk;
use signature::decoded;
use signature::decoded::{LAST_LEVEL, LEVEL_BASE};
use tree::words::{DEFAULT, DEFAULT_WORDS, HIT, SKIP, SPLIT, SPLIT_WORDS, TEST, TEST_WORDS};

// The default, with its plan; the hit leaf's answer; so many words on in the tree and in the booking; or the tree is broken.
#[derive(Clone, Copy)]
pub enum Step {
    Default { plan: u16 },
    Hit,
    On { tree: usize, book: usize },
    Broken,
}

// How far the link at index j leads on from its node; None where there is none to follow.
fn link(t: &[u16], node: usize, j: usize) -> Option<usize>
    ensures { result ≡ leads (link_at t.now node j) }
{
    if t.len() <= j {
        return None;
    }
    let to = t[j] as usize;
    if to <= node {
        return None;
    }
    let d = to - node;
    if t.len() < d {
        return None;
    }
    Some(d)
}

// How far the link for the constructor c leads on from its node; None where there is none to follow, as at a level.
fn follow(table: &[u16], t: &[u16], node: usize, c: u16) -> Option<usize>
    requires known { Known table.now }
    requires head_by_table { HeadByTable table.now c }
    ensures { (g : Known table.now) → result ≡ leads (link_to g.sig t.now node c) }
{
    if c >= LEVEL_BASE {
        return None;
    }
    if t.len() < TEST_WORDS {
        return None;
    }
    let k = decoded::kind_of(table, c as usize) as usize;
    let first = decoded::first_of(table, k);
    if t[1] != first {
        return None;
    }
    if t[2] != decoded::count_of(table, k) {
        return None;
    }
    link(t, node, TEST_WORDS + (c - first) as usize)
}

// Whether ends rise to the last level.
fn rises(es: &[u16]) -> bool
    ensures { result ≡ rise_to last_level 0 es.now }
{
    if es.len() == 0 {
        return false;
    }
    let last = es.len() - 1;
    let mut least = 0;
    for e in &es[..last] {
        if *e < least {
            return false;
        }
        if *e >= LAST_LEVEL {
            return false;
        }
        least = *e + 1;
    }
    es[last] == LAST_LEVEL
}

// Where the first end stands that is not below a level.
fn place(es: &[u16], v: u16) -> usize
    ensures { result ≡ place_of v es.now }
{
    es.iter().position(|e| v <= *e).unwrap_or(es.len())
}

// How far the link for the level c leads on from its node; None where there is none to follow, as at a constructor.
fn split(t: &[u16], node: usize, c: u16) -> Option<usize>
    ensures { result ≡ leads (split_to t.now node c) }
{
    if c < LEVEL_BASE {
        return None;
    }
    if c > LEVEL_BASE + LAST_LEVEL {
        return None;
    }
    if t.len() < SPLIT_WORDS {
        return None;
    }
    let k = t[1] as usize;
    if t.len() - SPLIT_WORDS < k {
        return None;
    }
    let es = &t[SPLIT_WORDS..SPLIT_WORDS + k];
    if !rises(es) {
        return None;
    }
    link(t, node, SPLIT_WORDS + k + place(es, c - LEVEL_BASE))
}

// A default leaf: its plan, where that lies in the slice.
fn default_at(t: &[u16]) -> Step
    ensures { result ≡ default_step (get_elem? t.now 1) }
{
    if t.len() < DEFAULT_WORDS {
        return Step::Broken;
    }
    Step::Default { plan: t[1] }
}

// One word on in the booking and so many in the tree, where there is a link to follow.
fn step_on(d: Option<usize>) -> Step
    ensures { result ≡ step_on d }
{
    match d {
        Some(tree) => Step::On { tree, book: 1 },
        None => Step::Broken,
    }
}

pub fn at_node(table: &[u16], t: &[u16], node: usize, b: &[u16]) -> Step
    requires { Parts table.now b.now }
    ensures { (p : Parts table.now b.now) → result ≡ step_at p.known.sig t.now node p.values }
{
    if t.len() == 0 {
        return Step::Broken;
    }
    let head = t[0];
    if head == DEFAULT {
        return default_at(t);
    }
    if head == HIT {
        if b.len() > 0 {
            return Step::Broken;
        }
        return Step::Hit;
    }
    if b.len() == 0 {
        return Step::Broken;
    }
    if head == TEST {
        return step_on(follow(table, t, node, b[0]));
    }
    if head == SKIP {
        return Step::On {
            tree: 1,
            book: walk::span(table, b),
        };
    }
    if head == SPLIT {
        return step_on(split(t, node, b[0]));
    }
    Step::Broken
}
