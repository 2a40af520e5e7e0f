// Steps taken together on lent words: a burst while each only steps, a turn that finishes the one that does more.
#![tactic(auto)]

pub mod pair;
pub mod run;

ghost use Rattle.std.specs.Prelude.{◌≡◌, ◌^◌, ◌<◌, ◌≤◌, length, get_or, Option, None, Ok};
ghost use Rattle.machine.specs.declared.Answer.TheVariants.{Exchanged};
ghost use Rattle.machine.specs.declared.Stray.{Stray};
ghost use Rattle.machine.specs.State.{sharing};
ghost use Rattle.machine.specs.Step.{out, in_user_mode, exchange, ranged, finish, counted};
ghost use Rattle.machine.specs.Run.{turned, turn_of};
ghost use Rattle.machine.specs.Layout.{registers_of, frame_of, state_of};
ghost use Rattle.dispatch.specs.Table.{Ready};
ghost use Rattle.laws.proofs.Laws.{Narrow};
ghost use Rattle.turns.specs.Turn.{state_at, moved_to, strays_of, goes, last_goes, steps_of, last_after, Bursts, Fitting, Comes, Sound, Strayed, Ended};

use machine::{Answer, ParcelAddr, Reach, Stray, Words, Work};

// The flags of an exchange.
const NORMAL_EXIT: u64 = 1;

const ERROR_EXIT: u64 = 2;

const PROGRAM_RANGE: u64 = 4;

const OPERAND_RANGE: u64 = 8;

// Where P goes after work that only steps; none where it does more. P moves here alone.
fn move_p(p: ParcelAddr, w: Work) -> Option<ParcelAddr>
    ensures { result ≡ moved_to p.0 w }
{
    match w {
        Work::PastOne => Some(access::on(p, 1)),
        Work::PastTwo => Some(access::on(p, 2)),
        Work::To(target) => Some(target),
        Work::NormalExit => None,
        Work::ErrorExit => None,
        Work::StrayedOne => None,
        Work::StrayedTwo => None,
        Work::ProgramRange => None,
        Work::NotHeld => None,
        Work::MonitorFetch => None,
    }
}

// How far a burst came: P, its steps, and how the work of the next ended, if it has one.
#[derive(Clone, Copy)]
pub struct Burst {
    pub p: ParcelAddr,
    pub steps: u64,
    pub work: Work,
}

// Steps until the budget is spent or one does more than step. The fields stay as they are all this time. What is left of the budget is counted
// down, since `for steps in 0..budget` has two numbers to hold: 33.8 host instructions a step of `scalar` for 32.8, 39.8 of `memory` for 38.3.
fn take_burst(r: &mut Words, mem: &mut [u64], f: Reach, from: ParcelAddr, budget: u64) -> Burst
    requires ready { Ready r.old f (length mem.old) }
    requires from_bound { from.0 < 2 ^ 24 }
    ensures { Bursts result.p result.steps result.work r.old r.new mem.old mem.new f from budget }
{
    let mut p = from;
    let mut left = budget;
    while left != 0 {
        let w = dispatch::work(r, mem, f, p);
        let Some(next) = move_p(p, w) else {
            return Burst {
                p,
                steps: budget - left,
                work: w,
            };
        };
        p = next;
        left -= 1;
    }
    Burst {
        p,
        steps: budget,
        work: Work::To(p),
    }
}

// The flag of an exit: set in user mode only.
fn in_user_mode(r: &Words, flag: u64) -> u64
    ensures { result ≡ in_user_mode (frame_of r.now) flag }
{
    if access::is_user(r) { flag } else { 0 }
}

// The exchange with its flags, P saved being p.
fn leave(r: &mut Words, mem: &mut [u64], p: ParcelAddr, flags: u64) -> Answer
    requires fitting { Fitting r.old (length mem.old) }
    requires p_bound { (p.0 < 2 ^ 24) × (flags < 512) }
    ensures { (s : Option Stray) → out result s (state_of r.new) (sharing mem.new)
        ≡ exchange (frame_of r.old) (registers_of r.old) p.0 flags s (sharing mem.old) }
{
    exchange::swap(r, mem, p, flags);
    Answer::Exchanged(flags)
}

// P becomes p.
fn set_p(r: &mut Words, p: ParcelAddr)
    ensures { state_of r.new ≡ state_at p r.old }
{
    r[access::P] = p.0;
}

// After an operand outside, P going to p.
fn ranged(r: &mut Words, mem: &mut [u64], p: ParcelAddr) -> Answer
    requires fitting { Fitting r.old (length mem.old) }
    requires p_bound { p.0 < 2 ^ 24 }
    ensures { (s : Option Stray) → out result s (state_of r.new) (sharing mem.new)
        ≡ ranged (frame_of r.old) (registers_of r.old) p.0 s (sharing mem.old) }
{
    if r[access::MM] == 0 && r[access::IOR] == 1 {
        return leave(r, mem, p, OPERAND_RANGE);
    }
    set_p(r, p);
    Answer::Stepped
}

// The end of a step whose instruction stood at p: P, the exchange or the stop.
fn finish(r: &mut Words, mem: &mut [u64], p: ParcelAddr, w: Work) -> Answer
    requires fitting { Fitting r.old (length mem.old) }
    requires p_bound { (p.0 < 2 ^ 24) × Narrow w }
    ensures { (s : Option Stray) → out result s (state_of r.new) (sharing mem.new)
        ≡ finish (state_at p r.old) w s (registers_of r.old) (sharing mem.old) }
{
    match w {
        Work::PastOne => {
            set_p(r, access::on(p, 1));
            Answer::Stepped
        }
        Work::PastTwo => {
            set_p(r, access::on(p, 2));
            Answer::Stepped
        }
        Work::To(q) => {
            set_p(r, q);
            Answer::Stepped
        }
        Work::NormalExit => leave(r, mem, access::on(p, 1), in_user_mode(r, NORMAL_EXIT)),
        Work::ErrorExit => leave(r, mem, access::on(p, 1), in_user_mode(r, ERROR_EXIT)),
        Work::StrayedOne => ranged(r, mem, access::on(p, 1)),
        Work::StrayedTwo => ranged(r, mem, access::on(p, 2)),
        Work::ProgramRange => leave(r, mem, p, PROGRAM_RANGE),
        Work::NotHeld => {
            set_p(r, p);
            Answer::NotHeld(p)
        }
        Work::MonitorFetch => {
            set_p(r, p);
            Answer::MonitorFetch(p)
        }
    }
}

// What an answer adds to the count of steps.
fn count_of(answer: Answer) -> u64
    ensures { (result ≡ counted answer) × (result ≤ 1) }
{
    match answer {
        Answer::Stepped => 1,
        Answer::Exchanged(_) => 1,
        Answer::NotHeld(_) => 0,
        Answer::MonitorFetch(_) => 0,
    }
}

// The last answer of n steps that each stepped.
fn last_after(n: u64) -> Option<Answer>
    ensures { Ok result ≡ last_after n }
{
    if n == 0 { None } else { Some(Answer::Stepped) }
}

// Whether an operand of a step's work lay outside, and of how many parcels its instruction is: three cases side by side, since an Option
// of two would be taken apart into the same three.
#[derive(Clone, Copy)]
pub enum Strays {
    None,
    One,
    Two,
}

fn strays_of(w: Work) -> Strays
    ensures { result ≡ strays_of w }
{
    match w {
        Work::PastOne => Strays::None,
        Work::PastTwo => Strays::None,
        Work::To(_) => Strays::None,
        Work::NormalExit => Strays::None,
        Work::ErrorExit => Strays::None,
        Work::StrayedOne => Strays::One,
        Work::StrayedTwo => Strays::Two,
        Work::ProgramRange => Strays::None,
        Work::NotHeld => Strays::None,
        Work::MonitorFetch => Strays::None,
    }
}

// What a burst came to after so many steps: its budget is spent; an operand of the next step, at p, lay outside, and that step has still to
// end; or the next step has ended. What is looked for after a stray stays so outside the loop of steps.
#[derive(Clone, Copy)]
pub enum Came {
    Spent(u64),
    StrayedOne { steps: u64, p: ParcelAddr },
    StrayedTwo { steps: u64, p: ParcelAddr },
    Ended { steps: u64, answer: Answer },
}

// A burst from P on, and the end of the step after it unless that strayed.
fn stretch(r: &mut Words, mem: &mut [u64], budget: u64) -> Came
    requires fitting { Fitting r.old (length mem.old) }
    requires bounds { (get_or r.old 0 0 < 2 ^ 24) × (budget ≤ 1000000) }
    ensures { Comes result budget r.old r.new mem.old mem.new }
{
    let f = access::reach(r, mem);
    let from = ParcelAddr(r[access::P]);
    let burst = take_burst(r, mem, f, from, budget);
    let p = burst.p;
    let steps = burst.steps;
    if steps == budget {
        set_p(r, p);
        return Came::Spent(steps);
    }
    let work = burst.work;
    match strays_of(work) {
        Strays::One => Came::StrayedOne { steps, p },
        Strays::Two => Came::StrayedTwo { steps, p },
        Strays::None => Came::Ended {
            steps,
            answer: finish(r, mem, p, work),
        },
    }
}

// The last answer of steps taken together; the stray of the last that had one; and how many of them stepped or exchanged.
#[derive(Clone, Copy)]
pub struct Turned {
    pub last: Option<Answer>,
    pub stray: Option<Stray>,
    pub steps: u64,
}

// The end of a step whose work strayed, after so many steps; P goes to p.
fn strayed(r: &mut Words, mem: &mut [u64], steps: u64, p: ParcelAddr, work: Work) -> Turned
    requires fitting { Fitting r.old (length mem.old) }
    requires p_bound { (p.0 < 2 ^ 24) × (steps ≤ 1000000) }
    ensures { Strayed (Ok result.last) result.stray result.steps steps p.0 work r.old r.new mem.old mem.new }
{
    let stray = memory::strays::of(r, mem.len() as u64, work);
    let answer = ranged(r, mem, p);
    Turned {
        last: Some(answer),
        stray,
        steps: steps + count_of(answer),
    }
}

// What a burst came to, its last step ended.
fn end(r: &mut Words, mem: &mut [u64], came: Came) -> Turned
    requires fitting { Fitting r.old (length mem.old) }
    requires sound { Sound came r.old }
    ensures { Ended (Ok result.last) result.stray result.steps came r.old r.new mem.old mem.new }
{
    match came {
        Came::Spent(steps) => Turned {
            last: last_after(steps),
            stray: None,
            steps,
        },
        Came::StrayedOne { steps, p } => strayed(r, mem, steps, access::on(p, 1), Work::StrayedOne),
        Came::StrayedTwo { steps, p } => strayed(r, mem, steps, access::on(p, 2), Work::StrayedTwo),
        Came::Ended { steps, answer } => Turned {
            last: Some(answer),
            stray: None,
            steps: steps + count_of(answer),
        },
    }
}

// Whether steps go on after an answer: where it stepped, and after an exchange if they go through it.
fn answer_goes(answer: Answer, through: bool) -> bool
    ensures { result ≡ goes through answer }
{
    match answer {
        Answer::Stepped => true,
        Answer::Exchanged(_) => through,
        Answer::NotHeld(_) => false,
        Answer::MonitorFetch(_) => false,
    }
}

// The same of a last answer.
fn last_goes(last: Option<Answer>, through: bool) -> bool
    ensures { result ≡ last_goes through (Ok last) }
{
    match last {
        None => false,
        Some(answer) => answer_goes(answer, through),
    }
}

// Steps until the budget is spent or an answer ends them. A stretch is taken at two places, so that the loop of steps stays a function of
// its own, whatever the program.
fn take(r: &mut Words, mem: &mut [u64], budget: u64, through: bool) -> Turned
    requires fitting { Fitting r.old (length mem.old) }
    requires bounds { (get_or r.old 0 0 < 2 ^ 24) × (budget ≤ 1000000) }
    ensures { turned (Ok result.last) result.stray result.steps (state_of r.new) (sharing mem.new)
        ≡ steps_of through budget (Ok None) None 0 (state_of r.old) (sharing mem.old) }
{
    let start = stretch(r, mem, budget);
    let first = end(r, mem, start);
    let mut last = first.last;
    let mut stray = first.stray;
    let mut steps = first.steps;
    while steps < budget && last_goes(last, through) {
        let came = stretch(r, mem, budget - steps);
        let next = end(r, mem, came);
        let answer = next.last;
        let newer = next.stray;
        last = answer;
        stray = newer.or(stray);
        steps += next.steps;
    }
    Turned { last, stray, steps }
}

// Steps up to and including the first that exchanges or stops, at most so many.
pub fn turn(r: &mut Words, mem: &mut [u64], budget: u64) -> Turned
    requires fitting { Fitting r.old (length mem.old) }
    requires bounds { (get_or r.old 0 0 < 2 ^ 24) × (budget ≤ 1000000) }
    ensures { turned (Ok result.last) result.stray result.steps (state_of r.new) (sharing mem.new)
        ≡ turn_of budget (Ok None) None 0 (state_of r.old) (sharing mem.old) }
{
    take(r, mem, budget, false)
}
