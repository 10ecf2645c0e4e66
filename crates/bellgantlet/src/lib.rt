// The calls for a host in C or Rust: a slice goes over as a pointer and a length, an answer as a struct of numbers.
#![tactic(auto)]

pub mod promises;

ghost use Rattle.std.specs.Prelude.{◌≡◌};
ghost use Rattle.signature.specs.Refusal.{number_in};
ghost use Rattle.run.specs.Outcome.{ran_answer};
ghost use Rattle.stepping.specs.State.{begin_state, step_state, refusal_in, end_number};
ghost use Rattle.tree.specs.RunCall.{RunCall};
ghost use Rattle.table.specs.Limits.{limits};
ghost use Rattle.table.specs.Calls.{Empty, Enter, Withdraw, SetDefault, Compile, DecideCall};
ghost use Rattle.table.specs.Gap.{GapCall};
ghost use Rattle.day_log.specs.Log.{TallyCall};
ghost use Rattle.charges.specs.Replan.{ReplanCall};
ghost use Rattle.bellgantlet.specs.Answers.{entered_of, host_answer, PartCall};

use compiling::compile::compile;
use counting::{RULE_NUMBERS, tally};
use deciding::decide::decide;
use defaulting::set_default;
use emptying::empty::empty;
use entering::enter::enter;
use entry::sound::Entry;
use gap::gap;
use pattern::limits::VARIABLES;
use replanning::replan;
use run::run;
use signature::refusals;
use signature::refusals::Refusal;
use stepping::begin::begin;
use stepping::end::end;
use stepping::state::STATE;
use stepping::step::step;
use withdrawing::withdraw;

// On 12 the rule that shares a booking and the length of the booking.
#[repr(C)]
#[derive(Clone, Copy)]
pub struct Entered {
    pub number: u16,
    pub rule: u16,
    pub length: usize,
}

#[repr(C)]
#[derive(Clone, Copy)]
pub struct Tree {
    pub number: u16,
    pub length: usize,
}

// The length of the booking that is shown.
#[repr(C)]
#[derive(Clone, Copy)]
pub struct Shown {
    pub number: u16,
    pub length: usize,
}

#[repr(C)]
#[derive(Clone, Copy)]
pub struct Answer {
    pub number: u16,
    pub rule: u16,
    pub plan: u16,
    pub places: [u16; VARIABLES],
}

impl From<Result<run::Answer, Refusal>> for Answer {
    ghost from_gives = { λ r a. (a.number ≡ number_in r) × (host_answer a ≡ ran_answer r) };

    fn from(r: Result<run::Answer, Refusal>) -> Answer {
        match r {
            Ok(a) => {
                let places = a.places;
                Answer {
                    number: 0,
                    rule: a.rule,
                    plan: a.plan,
                    places,
                }
            }
            Err(q) => Answer {
                number: u16::from(q),
                rule: 0,
                plan: 0,
                places: [0; VARIABLES],
            },
        }
    }
}

// The part of a booking: where it begins, and its length.
#[repr(C)]
#[derive(Clone, Copy)]
pub struct Part {
    pub number: u16,
    pub start: usize,
    pub length: usize,
}

// How often each rule stands in a log, by rule number, and how many entries there are.
#[repr(C)]
#[derive(Clone, Copy)]
pub struct Tallied {
    pub number: u16,
    pub total: u16,
    pub counts: [u16; RULE_NUMBERS],
}

// How many plans of open charges changed.
#[repr(C)]
#[derive(Clone, Copy)]
pub struct Replanned {
    pub number: u16,
    pub changed: u16,
}

pub fn bellgantlet_empty(table: &mut [u16]) -> u16
    ensures { Empty limits table.old result table.new }
{
    refusals::number(&empty(table))
}

pub fn bellgantlet_enter(
    signature: &[u16],
    number: u16,
    plan: u16,
    pattern: &[u16],
    table: &mut [u16],
    witness: &mut [u16],
) -> Entered
    ensures { Enter limits signature.now number plan pattern.now table.old witness.old (entered_of result) table.new witness.new }
{
    let e = enter(signature, number, plan, pattern, table, witness);
    match e {
        Entry::Entered => Entered {
            number: 0,
            rule: 0,
            length: 0,
        },
        Entry::Refused(r) => Entered {
            number: u16::from(r),
            rule: 0,
            length: 0,
        },
        Entry::Shares(rule, words) => Entered {
            number: Refusal::Shared as u16,
            rule,
            length: words,
        },
    }
}

pub fn bellgantlet_withdraw(signature: &[u16], number: u16, table: &mut [u16]) -> u16
    ensures { Withdraw limits signature.now number table.old result table.new }
{
    refusals::number(&withdraw(signature, number, table))
}

pub fn bellgantlet_set_default(signature: &[u16], plan: u16, table: &mut [u16]) -> u16
    ensures { SetDefault limits signature.now plan table.old result table.new }
{
    refusals::number(&set_default(signature, plan, table))
}

pub fn bellgantlet_compile(signature: &[u16], table: &[u16], space: &mut [u16]) -> Tree
    ensures { Compile limits signature.now table.now space.old result.number result.length space.new }
{
    match compile(signature, table, space) {
        Ok(length) => Tree { number: 0, length },
        Err(r) => Tree {
            number: u16::from(r),
            length: 0,
        },
    }
}

pub fn bellgantlet_decide(signature: &[u16], table: &[u16], booking: &[u16]) -> Answer
    ensures { DecideCall limits signature.now table.now booking.now result.number (host_answer result) }
{
    Answer::from(decide(signature, table, booking))
}

pub fn bellgantlet_gap(signature: &[u16], table: &[u16], witness: &mut [u16]) -> Shown
    ensures { GapCall limits signature.now table.now witness.old result.number result.length witness.new }
{
    match gap(signature, table, witness) {
        Ok(Some(length)) => Shown { number: 0, length },
        Ok(None) => Shown {
            number: 0,
            length: 0,
        },
        Err(r) => Shown {
            number: u16::from(r),
            length: 0,
        },
    }
}

pub fn bellgantlet_run(signature: &[u16], tree: &[u16], booking: &[u16]) -> Answer
    ensures { RunCall signature.now tree.now booking.now result.number (host_answer result) }
{
    Answer::from(run(signature, tree, booking))
}

pub fn bellgantlet_part(signature: &[u16], booking: &[u16], place: usize) -> Part
    ensures { PartCall signature.now booking.now place result.number result.start result.length }
{
    let p = booking::part::part(signature, booking, place);
    if p.len() == 0 {
        let n = booking::part::part_number(signature, booking, place);
        return Part {
            number: n,
            start: 0,
            length: 0,
        };
    }
    Part {
        number: 0,
        start: place,
        length: p.len(),
    }
}

pub fn bellgantlet_check_begin(signature: &[u16], check: &mut [u16; STATE]) -> u16
    ensures { (check.new ≡ begin_state signature.now) × (result ≡ refusal_in (begin_state signature.now)) }
{
    refusals::number(&begin(signature, check))
}

pub fn bellgantlet_check_step(signature: &[u16], check: &mut [u16; STATE], word: u16) -> u16
    ensures { (check.new ≡ step_state signature.now check.old word) × (result ≡ refusal_in (step_state signature.now check.old word)) }
{
    refusals::number(&step(signature, check, word))
}

pub fn bellgantlet_check_end(check: &[u16; STATE]) -> u16
    ensures { result ≡ end_number check.now }
{
    refusals::number(&end(check))
}

pub fn bellgantlet_tally(log: &[u16]) -> Tallied
    ensures { TallyCall log.now result.number result.total result.counts }
{
    match tally(log) {
        Ok(t) => {
            let counts = t.counts;
            Tallied {
                number: 0,
                total: t.total,
                counts,
            }
        }
        Err(r) => Tallied {
            number: u16::from(r),
            total: 0,
            counts: [0; RULE_NUMBERS],
        },
    }
}

pub fn bellgantlet_replan(signature: &[u16], tree: &[u16], charges: &mut [u16]) -> Replanned
    ensures { ReplanCall signature.now tree.now charges.old result.number result.changed charges.new }
{
    match replan(signature, tree, charges) {
        Ok(changed) => Replanned { number: 0, changed },
        Err(r) => Replanned {
            number: u16::from(r),
            changed: 0,
        },
    }
}
