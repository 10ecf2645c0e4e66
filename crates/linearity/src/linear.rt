// Whether a pattern is linear-plus (refusal 8). A set of variables is a u64 with bit x for variable x.
ghost use Rattle.std.specs.Prelude.{◌≡◌, true, false, List, ℕ};
ghost use Rattle.pattern.specs.Given.{Patterned, Opens};
ghost use Rattle.pattern.specs.Linear.{linear_plus};
ghost use Rattle.pattern.specs.Linearity.{side_of};
ghost use Rattle.linearity.specs.Linearity.{Holds, Judged, joint_at, joins, own_vars};
ghost use Rattle.pattern.specs.Word.{form_of, var_small};

use pattern::token::{Word, classify, own_words, parts, side_behind};
use sets::set::{join, meet, only, size};

// How the sets of the parts behind a word must stand to each other: disjoint, equal, or each empty.
#[derive(Clone, Copy)]
pub enum Joint {
    Apart,
    Alike,
    Bare,
}

fn plus_joint(w: Word) -> Joint
    ensures { result ≡ joint_at (side_of true) (form_of w) }
{
    match w {
        Word::Or => Joint::Alike,
        _ => Joint::Apart,
    }
}

fn minus_joint(w: Word) -> Joint
    ensures { result ≡ joint_at (side_of false) (form_of w) }
{
    match w {
        Word::Head(_c) => Joint::Bare,
        Word::And => Joint::Alike,
        _ => Joint::Apart,
    }
}

fn joint_of(w: Word, plus: bool) -> Joint
    ensures { result ≡ joint_at (side_of plus) (form_of w) }
{
    if plus {
        return plus_joint(w);
    }
    minus_joint(w)
}

fn own_set(w: Word, plus: bool) -> u64
    requires { var_small (form_of w) }
    ensures { Holds result (own_vars (side_of plus) (form_of w)) }
{
    if !plus {
        return 0;
    }
    match w {
        Word::Var(x) => only(x as u32),
        _ => 0,
    }
}

// Whether the set `m` of the `j`-th part goes with the set of the parts before it.
fn goes_with(joint: Joint, j: u16, set: u64, m: u64) -> bool
    ensures { (xs ys : List ℕ) → Holds set xs → Holds m ys → result ≡ joins joint j xs ys }
{
    match joint {
        Joint::Apart => size(meet(set, m)) == 0,
        Joint::Alike => {
            if j == 0 {
                return true;
            }
            set == m
        }
        Joint::Bare => size(m) == 0,
    }
}

// The set of the pattern that begins `p`, at a side, E or O, and how many words it takes; if it is linear there.
fn linear_at(t: &[u16], p: &[u16], plus: bool) -> Option<(u64, usize)>
    requires { Opens t.now p.now }
    ensures { (g : Opens t.now p.now) → Judged (side_of plus) g.pattern result }
{
    let w = classify(p[0]);
    let count = parts(t, w);
    let side = side_behind(w, plus);
    let joint = joint_of(w, plus);
    let mut set = own_set(w, plus);
    let mut at = own_words(w);
    for i in 0..count {
        let (m, used) = linear_at(t, &p[at..], side)?;
        if !goes_with(joint, i, set, m) {
            return None;
        }
        set = join(set, m);
        at += used;
    }
    Some((set, at))
}

pub fn linear(t: &[u16], p: &[u16]) -> bool
    requires { Patterned t.now p.now }
    ensures { (g : Patterned t.now p.now) → result ≡ linear_plus g.pattern }
{
    linear_at(t, p, true).is_some()
}
