// A place at which rows stand: each class of rows with the same cell is held against the others, and goes on by itself.
ghost use Rattle.std.specs.Prelude.{◌≡◌, true, ◌<◌, length, set};
ghost use Rattle.signature.specs.Decoded.{decoded_length};
ghost use Rattle.rowset.specs.Limits.{row_limit};
ghost use Rattle.rowset.specs.Member.{member};
ghost use Rattle.meeting.specs.Descent.{Roomy, Standing, Visited, Taken, StandingArgs, ArgsVisited};

use crate::classes::{pass_all, sort};
use crate::matrix::part;
use crate::part::part_end;
use cell::cell::{cell_at, opens};
use rowset::set::{ROWS, SET_WORDS, first_in, is_only, minus};

// Row i stands at a word.
fn stand(cur: &mut [u64], i: usize, at: usize)
    requires { i < length cur.old }
    ensures { cur.new ≡ set cur.old i at }
{
    cur[i] = at as u64;
}

// The arguments of a constructor, one after the other.
#[cycle(arguments_take_class_visit)]
fn arguments(
    t: &[u16],
    a: &[u64],
    n: usize,
    s: &[u64; SET_WORDS],
    deep: usize,
    cur: &mut [u64; ROWS],
    m: &mut [u64],
)
    requires { StandingArgs t.now a.now (member s.now) n deep cur.old × Roomy (member s.now) (length m.old) × (length t.now ≡ decoded_length) }
    ensures { (g : StandingArgs t.now a.now (member s.now) n deep cur.old) → ArgsVisited g cur.new m.old m.new }
{
    for _j in 0..n {
        visit(t, a, s, deep, cur, m);
    }
}

// The rows of a class, the first of which is row i, out of the set: what is left of it.
#[cycle(arguments_take_class_visit)]
fn take_class(
    t: &[u16],
    a: &[u64],
    i: usize,
    s: &[u64; SET_WORDS],
    deep: usize,
    cur: &mut [u64; ROWS],
    m: &mut [u64],
) -> [u64; SET_WORDS]
    requires { Standing t.now a.now (member s.now) deep cur.old × Roomy (member s.now) (length m.old) × (length t.now ≡ decoded_length) × (i < row_limit) × (member s.now i ≡ true) }
    ensures { (g : Standing t.now a.now (member s.now) deep cur.old) → Taken g i result cur.new m.old m.new }
{
    let at = cur[i] as usize;
    let c = cell_at(a, at);
    let x = sort(a, cur, s, c);
    let same = x.same;
    let clash = x.clash;
    part(m, &same, &clash);
    if is_only(&same, i) {
        let end = part_end(t, a, at);
        stand(cur, i, end);
        return minus(s, &same);
    }
    pass_all(cur, &same);
    arguments(t, a, opens(t, c.tag), &same, deep - 1, cur, m);
    minus(s, &same)
}

// The rows of a set, which all stand at one place.
#[cycle(arguments_take_class_visit)]
pub fn visit(
    t: &[u16],
    a: &[u64],
    s: &[u64; SET_WORDS],
    deep: usize,
    cur: &mut [u64; ROWS],
    m: &mut [u64],
)
    requires { Standing t.now a.now (member s.now) deep cur.old × Roomy (member s.now) (length m.old) × (length t.now ≡ decoded_length) }
    ensures { (g : Standing t.now a.now (member s.now) deep cur.old) → Visited g cur.new m.old m.new }
{
    let mut left = minus(s, &[0u64; SET_WORDS]);
    let mut i = first_in(&left, ROWS);
    while i < ROWS {
        let rest = take_class(t, a, i, &left, deep, cur, m);
        left = rest;
        i = first_in(&left, ROWS);
    }
}
