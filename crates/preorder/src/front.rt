// The words of a node that tests its column, before its links.
ghost use Rattle.std.specs.Prelude.{◌≡◌, ◌++◌, ◌≤◌, length, drop};
ghost use Rattle.sets.specs.Heads.{number_of};
ghost use Rattle.sets.specs.Set.{heads_width, members};
ghost use Rattle.preorder.specs.Front.{front_of, front_length};

use sets::heads::{Heads, lowest, without};
use signature::decoded::LEVEL_BASE;
use tree::words::{SPLIT, SPLIT_WORDS, TEST, TEST_WORDS};

// The members of a set, rising, first in out.
fn put_members(out: &mut [u16], s: Heads, m: usize)
    requires { (m ≡ length (members (number_of s))) × (m ≤ length out.old) }
    ensures { out.new ≡ members (number_of s) ++ drop m out.old }
{
    let mut left = s;
    for i in 0..m {
        let h = lowest(left);
        out[i] = h as u16;
        let next = without(left, h);
        left = next;
    }
}

// How many words a node has before its links, where m heads have a child and f is the first of its kind.
pub fn front_words(f: u16, m: usize) -> usize
    requires { m ≤ heads_width }
    ensures { result ≡ front_length f m }
{
    if f == LEVEL_BASE {
        return SPLIT_WORDS + m;
    }
    TEST_WORDS
}

// These words, first in out: a node 4 with its ends where the first head is a level, else a node 2.
pub fn front(out: &mut [u16], f: u16, s: Heads, m: usize)
    requires { (m ≡ length (members (number_of s))) × (m ≤ heads_width) × (front_length f m ≤ length out.old) }
    ensures { out.new ≡ front_of f (number_of s) ++ drop (front_length f m) out.old }
{
    if f == LEVEL_BASE {
        out[0] = SPLIT;
        out[1] = m as u16;
        put_members(&mut out[SPLIT_WORDS..], s, m);
        return;
    }
    out[0] = TEST;
    out[1] = f;
    out[2] = m as u16;
}
