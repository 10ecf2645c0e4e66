// One call after the other. A call's words: which it is, its numbers, and lists as their count and their words.
ghost use Rattle.std.specs.Prelude.{◌≤◌, length, IfOk};

use crate::show;
use compiling::compile::compile;
use deciding::decide::decide;
use defaulting::set_default;
use emptying::empty::empty;
use entering::enter::enter;
use shown::file::size;
use shown::print;
use std::io;
use withdrawing::withdraw;

// An entry that shows what 12 gives.
const IN_FULL: u16 = 8;

// The index behind the list whose count stands at an index; 0 where the words end before.
fn behind(w: &[u16], at: usize) -> usize
    ensures { result ≤ length w.now }
{
    if w.len() <= at {
        return 0;
    }
    let e = at + 1 + size(w[at]);
    if w.len() < e {
        return 0;
    }
    e
}

// How many words are in use: of the file, of the signature and of the table.
#[derive(Clone, Copy)]
pub struct Now {
    pub used: usize,
    pub signature: usize,
    pub table: usize,
}

// A new list of calls: the table's length and the signature; the table is emptied.
fn begin(rt: &impl Print, w: &[u16], signature: &mut [u16], table: &mut [u16]) -> io::Result<Now>
    ensures { IfOk result (λ r. r.used ≤ length w.now) }
{
    let e = behind(w, 2);
    if e < 3 {
        return Ok(Now {
            used: 0,
            signature: 0,
            table: 0,
        });
    }
    let k = size(w[1]);
    let s = e - 3;
    if table.len() < k {
        return Ok(Now {
            used: 0,
            signature: 0,
            table: 0,
        });
    }
    if signature.len() < s {
        return Ok(Now {
            used: 0,
            signature: 0,
            table: 0,
        });
    }
    signature[..s].copy_from_slice(&w[3..e]);
    show::line(rt, empty(&mut table[..k]))?;
    Ok(Now {
        used: e,
        signature: s,
        table: k,
    })
}

// number, plan, words of the witness buffer, pattern
fn entry(
    rt: &impl Print,
    w: &[u16],
    ss: &[u16],
    table: &mut [u16],
    witness: &mut [u16],
) -> io::Result<usize>
    ensures { IfOk result (λ n. n ≤ length w.now) }
{
    let e = behind(w, 4);
    if e < 5 {
        return Ok(0);
    }
    let k = size(w[3]);
    if witness.len() < k {
        return Ok(0);
    }
    let r = enter(ss, w[1], w[2], &w[5..e], table, &mut witness[..k]);
    show::entry(rt, r, w[0] == IN_FULL, witness)?;
    Ok(e)
}

// number
fn withdrawal(rt: &impl Print, w: &[u16], ss: &[u16], table: &mut [u16]) -> io::Result<usize>
    ensures { IfOk result (λ n. n ≤ length w.now) }
{
    if w.len() < 2 {
        return Ok(0);
    }
    show::line(rt, withdraw(ss, w[1], table))?;
    Ok(2)
}

// plan
fn default_set(rt: &impl Print, w: &[u16], ss: &[u16], table: &mut [u16]) -> io::Result<usize>
    ensures { IfOk result (λ n. n ≤ length w.now) }
{
    if w.len() < 2 {
        return Ok(0);
    }
    show::line(rt, set_default(ss, w[1], table))?;
    Ok(2)
}

// words of the lent space
fn compilation(
    rt: &impl Print,
    w: &[u16],
    ss: &[u16],
    table: &[u16],
    space: &mut [u16],
) -> io::Result<usize>
    ensures { IfOk result (λ n. n ≤ length w.now) }
{
    if w.len() < 2 {
        return Ok(0);
    }
    let k = size(w[1]);
    if space.len() < k {
        return Ok(0);
    }
    let c = compile(ss, table, &mut space[..k]);
    show::tree(rt, c, space)?;
    Ok(2)
}

// booking
fn decision(rt: &impl Print, w: &[u16], ss: &[u16], table: &[u16]) -> io::Result<usize>
    ensures { IfOk result (λ n. n ≤ length w.now) }
{
    let e = behind(w, 1);
    if e < 2 {
        return Ok(0);
    }
    show::answer(rt, decide(ss, table, &w[2..e]))?;
    Ok(e)
}

// tree, booking
fn a_run(rt: &impl Print, w: &[u16], ss: &[u16]) -> io::Result<usize>
    ensures { IfOk result (λ n. n ≤ length w.now) }
{
    let d = behind(w, 1);
    if d < 2 {
        return Ok(0);
    }
    let e = behind(w, d);
    let from = d + 1;
    if e < from {
        return Ok(0);
    }
    show::answer(rt, run::run(ss, &w[2..d], &w[from..e]))?;
    Ok(e)
}

// words of the witness buffer, all of it 0 before
fn a_gap(
    rt: &impl Print,
    w: &[u16],
    ss: &[u16],
    table: &[u16],
    witness: &mut [u16],
) -> io::Result<usize>
    ensures { IfOk result (λ n. n ≤ length w.now) }
{
    if w.len() < 2 {
        return Ok(0);
    }
    let k = size(w[1]);
    if witness.len() < k {
        return Ok(0);
    }
    witness.fill(0);
    let g = gap::gap(ss, table, &mut witness[0..k]);
    show::gap(rt, g, witness)?;
    decided(rt, ss, table, witness, show::shown(g))?;
    Ok(2)
}

// The booking of so many words, if there is one, decided.
fn decided(
    rt: &impl Print,
    ss: &[u16],
    table: &[u16],
    witness: &[u16],
    n: usize,
) -> io::Result<()> {
    if n == 0 {
        return Ok(());
    }
    if witness.len() < n {
        return Ok(());
    }
    show::answer(rt, decide(ss, table, &witness[0..n]))
}

// the table's words
fn holding(rt: &impl Print, w: &[u16], table: &[u16]) -> io::Result<usize>
    ensures { IfOk result (λ n. 1 ≤ length w.now → n ≤ length w.now) }
{
    let n = show::used(table);
    print::text(rt, b"table")?;
    print::words(rt, &table[..n])?;
    print::end(rt)?;
    Ok(1)
}

// index and value: a word of the table is changed by hand
fn damage(w: &[u16], table: &mut [u16]) -> usize
    ensures { result ≤ length w.now }
{
    if w.len() < 3 {
        return 0;
    }
    let i = size(w[1]);
    if table.len() <= i {
        return 0;
    }
    table[i] = w[2];
    3
}

// Every call but the first of a list.
fn call(
    rt: &impl Print,
    w: &[u16],
    ss: &[u16],
    table: &mut [u16],
    space: &mut [u16],
    witness: &mut [u16],
) -> io::Result<usize>
    requires { 1 ≤ length w.now }
    ensures { IfOk result (λ n. n ≤ length w.now) }
{
    match w[0] {
        1 => entry(rt, w, ss, table, witness),
        2 => withdrawal(rt, w, ss, table),
        3 => compilation(rt, w, ss, table, space),
        4 => decision(rt, w, ss, table),
        5 => a_run(rt, w, ss),
        6 => holding(rt, w, table),
        7 => Ok(damage(w, table)),
        IN_FULL => entry(rt, w, ss, table, witness),
        9 => default_set(rt, w, ss, table),
        10 => a_gap(rt, w, ss, table, witness),
        _ => Ok(0),
    }
}

fn step(
    rt: &impl Print,
    w: &[u16],
    s: usize,
    k: usize,
    signature: &mut [u16],
    table: &mut [u16],
    space: &mut [u16],
    witness: &mut [u16],
) -> io::Result<Now>
    ensures { IfOk result (λ r. r.used ≤ length w.now) }
{
    let stop = Now {
        used: 0,
        signature: 0,
        table: 0,
    };
    if w.len() == 0 {
        return Ok(stop);
    }
    if w[0] == 0 {
        return begin(rt, w, signature, table);
    }
    if signature.len() < s {
        return Ok(stop);
    }
    if table.len() < k {
        return Ok(stop);
    }
    let used = call(rt, w, &signature[..s], &mut table[..k], space, witness)?;
    Ok(Now {
        used,
        signature: s,
        table: k,
    })
}

pub fn play(
    rt: &impl Print,
    all: &[u16],
    signature: &mut [u16],
    table: &mut [u16],
    space: &mut [u16],
    witness: &mut [u16],
) -> io::Result<()> {
    let mut w = all;
    let mut s = 0;
    let mut k = 0;
    loop {
        let r = step(rt, w, s, k, signature, table, space, witness)?;
        if r.used == 0 {
            return Ok(());
        }
        s = r.signature;
        k = r.table;
        let n = r.used;
        w = &w[n..];
    }
}
