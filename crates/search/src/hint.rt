// At which cell a row is left first: this decides how long the search takes, and nothing else.
ghost use Rattle.std.specs.Prelude.{◌≡◌, ℕ, ◌≤◌, ◌<◌, Some};
ghost use Rattle.pattern.specs.Limits.{pattern_limit};
ghost use Rattle.sets.specs.Set.{bit};
ghost use Rattle.search.specs.Choice.{GivenMeetings};
ghost use Rattle.search.specs.Search.{GivenTable};

use crate::choice::meets;
use crate::cube::VIEW_ROOM;
use path::rows::start_of;
use pattern::limits::PATTERN_WORDS;
use rowset::set::SET_WORDS;
use sets::set::{has, lowest, size, without};
use views::view::view;

// How much a row of the set counts: where it meets the row at the front of d 1, and where it meets that at the front of e too 2.
fn weight(
    t: &[u16],
    a: &[u64],
    rows: &[u16],
    n: usize,
    s: &[u64; SET_WORDS],
    r: usize,
    d: &[u64],
    e: &[u64],
) -> u16
    requires { GivenMeetings t.now a.now rows.now n d.now e.now × (r < n) }
    ensures { result ≤ 2 }
{
    if !meets(t, a, rows, n, s, r, d) {
        return 0;
    }
    if !meets(t, a, rows, n, s, r, e) {
        return 1;
    }
    2
}

// What all rows count, and 1: so 0 stands for a cell that is not rated yet.
fn weigh(
    t: &[u16],
    a: &[u64],
    rows: &[u16],
    n: usize,
    s: &[u64; SET_WORDS],
    d: &[u64],
    e: &[u64],
) -> u16
    requires { GivenMeetings t.now a.now rows.now n d.now e.now }
    ensures { 1 ≤ result }
{
    let mut w = 1;
    for r in 0..n {
        w += weight(t, a, rows, n, s, r, d, e);
    }
    w
}

// What is ahead where row r is left at cell c: the rows that meet what leaves it there count one each, those that meet what agrees there too count two.
fn score(
    t: &[u16],
    a: &[u64],
    rows: &[u16],
    n: usize,
    s: &[u64; SET_WORDS],
    r: usize,
    opened: u64,
    c: usize,
) -> u16
    requires { GivenTable t.now a.now rows.now n × (r < n) × (c < pattern_limit) }
    ensures { 1 ≤ result }
{
    let start = start_of(rows, r) as usize;
    let mut d = [0u64; VIEW_ROOM];
    let Some(_words) = view(t, &a[start..], opened, c, &mut d) else {
        return 1;
    };
    let mut e = [0u64; VIEW_ROOM];
    let Some(_words) = view(t, &a[start..], without(opened, c as u32), c, &mut e) else {
        return 1;
    };
    weigh(t, a, rows, n, s, &d, &e)
}

// The score of cell c, noted where it is asked for first; None where the row cannot be left there now.
fn rated(
    t: &[u16],
    a: &[u64],
    rows: &[u16],
    n: usize,
    s: &[u64; SET_WORDS],
    r: usize,
    opened: u64,
    edge: u64,
    c: usize,
    scores: &mut [u16; PATTERN_WORDS],
) -> Option<u16>
    requires { GivenTable t.now a.now rows.now n × (r < n) × (c < pattern_limit) }
    ensures { (w : ℕ) → result ≡ Some w → bit edge c ≡ 1 }
{
    if !has(edge, c as u32) {
        return None;
    }
    if scores[c] == 0 {
        scores[c] = score(t, a, rows, n, s, r, opened, c);
    }
    Some(scores[c])
}

// Of the cells at which row r may be left now, one that is rated lowest.
pub fn best(
    t: &[u16],
    a: &[u64],
    rows: &[u16],
    n: usize,
    s: &[u64; SET_WORDS],
    r: usize,
    opened: u64,
    edge: u64,
    scores: &mut [u16; PATTERN_WORDS],
) -> u32
    requires { GivenTable t.now a.now rows.now n × (r < n) × (0 < edge) }
    ensures { (bit edge result ≡ 1) × (result < pattern_limit) }
{
    let mut c = lowest(edge);
    if size(edge) == 1 {
        return c;
    }
    let mut least = u16::MAX;
    for i in 0..PATTERN_WORDS {
        let Some(w) = rated(t, a, rows, n, s, r, opened, edge, i, scores) else {
            continue;
        };
        if w < least {
            least = w;
            c = i as u32;
        }
    }
    c
}
