// A pair run: two processors over one memory, by a schedule. Their words stand one after the other in one list.
ghost use Rattle.std.specs.Prelude.{◌≡◌, ◌-◌, ◌^◌, ◌<◌, ◌≤◌, length, get_or, eqb, Option, None, Ok};
ghost use Rattle.machine.specs.declared.Stray.{Stray};
ghost use Rattle.machine.specs.Word.{pick};
ghost use Rattle.machine.specs.State.{sharing};
ghost use Rattle.machine.specs.Memory.{or_else};
ghost use Rattle.machine.specs.Step.{out, finish};
ghost use Rattle.machine.specs.Run.{half, half_with, pair_ended, pair_of};
ghost use Rattle.machine.specs.Layout.{part, registers_of, frame_of, state_of, first_of, second_of};
ghost use Rattle.access.specs.Executed.{told};
ghost use Rattle.dispatch.specs.Table.{Ready, Works};
ghost use Rattle.laws.proofs.Laws.{Narrow};
ghost use Rattle.turns.specs.Turn.{state_at, Fitting};
ghost use Rattle.turns.specs.Pair.{Side, side_of, Passes, Both, PairBursts};

use machine::{Answer, ParcelAddr, Reach, Stray, Work};

// Which of the two processors is meant is told by where its words start, `at`: 0 or 672, which is what every use of it needs.

// What the processor whose words start at `at` reaches.
fn reach_at(pair: &[u64; 1344], mem: &[u64], at: usize) -> Reach
    requires side { Side at }
    requires fitting { Fitting (part at 672 pair.now) (length mem.now) }
    ensures { Ready (part at 672 pair.now) result (length mem.now) }
{
    access::reach(access::half(pair, at), mem)
}

// The words that are lent from a pair come as a slice. These three take it for the array that it is: the work of a step, P, and the end of
// a step.
fn work(r: &mut [u64], mem: &mut [u64], f: Reach, p: ParcelAddr) -> Work
    requires ready { Ready r.old f (length mem.old) }
    requires p_bound { p.0 < 2 ^ 24 }
    ensures { Works result r.old r.new mem.old mem.new p.0 }
{
    dispatch::work(r.as_mut_array().unwrap(), mem, f, p)
}

fn set_p(r: &mut [u64], p: ParcelAddr)
    requires { length r.old ≡ 672 }
    ensures { state_of r.new ≡ state_at p r.old }
{
    crate::set_p(r.as_mut_array().unwrap(), p)
}

fn finish(r: &mut [u64], mem: &mut [u64], p: ParcelAddr, w: Work) -> Answer
    requires fitting { Fitting r.old (length mem.old) }
    requires p_bound { (p.0 < 2 ^ 24) × Narrow w }
    ensures { (s : Option Stray) → out result s (state_of r.new) (sharing mem.new)
        ≡ finish (state_at p r.old) w s (registers_of r.old) (sharing mem.old) }
{
    crate::finish(r.as_mut_array().unwrap(), mem, p, w)
}

// The work of its step; the other's words stay.
fn step_at(pair: &mut [u64; 1344], mem: &mut [u64], at: usize, f: Reach, p: ParcelAddr) -> Work
    requires side { Side at }
    requires ready { Ready (part at 672 pair.old) f (length mem.old) }
    requires p_bound { p.0 < 2 ^ 24 }
    ensures works { Works result (part at 672 pair.old) (part at 672 pair.new) mem.old mem.new p.0 }
    ensures pair_unchanged { part (672 - at) 672 pair.new ≡ part (672 - at) 672 pair.old }
{
    let end = at + access::WORDS;
    work(&mut pair[at..end], mem, f, p)
}

// Its P becomes p.
fn keep_p(pair: &mut [u64; 1344], at: usize, p: ParcelAddr)
    requires { Side at }
    ensures pair_after { state_of (part at 672 pair.new) ≡ state_at p (part at 672 pair.old) }
    ensures pair_unchanged { part (672 - at) 672 pair.new ≡ part (672 - at) 672 pair.old }
{
    let end = at + access::WORDS;
    set_p(&mut pair[at..end], p)
}

// The stray of its step.
fn stray_at(pair: &[u64; 1344], words: u64, at: usize, w: Work) -> Option<Stray>
    requires side { Side at }
    requires bounds { ((frame_of (part at 672 pair.now)).dba < 2 ^ 17) × ((frame_of (part at 672 pair.now)).dla < 2 ^ 17) }
    ensures { result ≡ told w (part at 672 pair.now) words }
{
    memory::strays::of(access::half(pair, at), words, w)
}

// The end of its step.
fn finish_at(pair: &mut [u64; 1344], mem: &mut [u64], at: usize, p: ParcelAddr, w: Work) -> Answer
    requires side { Side at }
    requires fitting { Fitting (part at 672 pair.old) (length mem.old) }
    requires p_bound { (p.0 < 2 ^ 24) × Narrow w }
    ensures finished { (s : Option Stray) → out result s (state_of (part at 672 pair.new)) (sharing mem.new)
        ≡ finish (state_at p (part at 672 pair.old)) w s (registers_of (part at 672 pair.old)) (sharing mem.old) }
    ensures pair_unchanged { part (672 - at) 672 pair.new ≡ part (672 - at) 672 pair.old }
{
    let end = at + access::WORDS;
    finish(&mut pair[at..end], mem, p, w)
}

// The processor whose step is next: where its words start, its P, what it reaches, and the byte that named it.
#[derive(Clone, Copy)]
pub struct Next {
    pub at: usize,
    pub p: ParcelAddr,
    pub f: Reach,
    pub byte: u8,
}

// The byte that names the first processor; every other names the second.
const FIRST: u8 = 0;

// The next step is of the processor that a byte names. P of the one before goes to its place, and the other's comes from its own.
fn pass(pair: &mut [u64; 1344], first: Reach, second: Reach, from: Next, byte: u8) -> Next
    requires { Side from.at }
    ensures at_value { (result.at ≡ side_of byte) × (result.byte ≡ byte) }
    ensures passes { Passes from result first second pair.old pair.new }
{
    keep_p(pair, from.at, from.p);
    if byte == FIRST {
        return Next {
            at: 0,
            p: ParcelAddr(pair[access::P]),
            f: first,
            byte,
        };
    }
    Next {
        at: access::WORDS,
        p: ParcelAddr(pair[access::WORDS]),
        f: second,
        byte,
    }
}

// How far a pair's burst came: whose step is next, its P, the steps, and how the work of the next ended, if it has one.
#[derive(Clone, Copy)]
pub struct PairBurst {
    pub at: usize,
    pub p: ParcelAddr,
    pub steps: usize,
    pub work: Work,
}

// Steps from byte `from` of a schedule on, until it is spent or one does more than step. What both reach stays as it is all this time.
fn take(pair: &mut [u64; 1344], mem: &mut [u64], schedule: &[u8], from: usize) -> PairBurst
    requires schedule { (length schedule.now ≤ 65536) × (from ≤ length schedule.now) }
    requires both { Both pair.old (length mem.old) }
    ensures { PairBursts result.at result.p result.steps result.work schedule.now from pair.old pair.new
        mem.old mem.new }
{
    let first = reach_at(pair, mem, 0);
    let second = reach_at(pair, mem, access::WORDS);
    let mut next = Next {
        at: 0,
        p: ParcelAddr(pair[access::P]),
        f: first,
        byte: 0,
    };
    let mut n = from;
    while n < schedule.len() {
        if schedule[n] != next.byte {
            next = pass(pair, first, second, next, schedule[n]);
        }
        let at = next.at;
        let f = next.f;
        let p = next.p;
        let byte = next.byte;
        let w = step_at(pair, mem, at, f, p);
        let Some(moved) = crate::move_p(p, w) else {
            return PairBurst {
                at,
                p,
                steps: n,
                work: w,
            };
        };
        next = Next {
            at,
            p: moved,
            f,
            byte,
        };
        n += 1;
    }
    let p = next.p;
    PairBurst {
        at: next.at,
        p,
        steps: n,
        work: Work::To(p),
    }
}

// The strays of the two processors.
#[derive(Clone, Copy)]
pub struct Told {
    pub first: Option<Stray>,
    pub second: Option<Stray>,
}

// The one at `at` has a newer, or not.
fn newer(strays: Told, at: usize, stray: Option<Stray>) -> Told
    ensures { (result.first ≡ pick (eqb at 0) (or_else stray strays.first) strays.first)
        × (result.second ≡ pick (eqb at 0) strays.second (or_else stray strays.second)) }
{
    let first = strays.first;
    let second = strays.second;
    if at == 0 {
        return Told {
            first: stray.or(first),
            second,
        };
    }
    Told {
        first,
        second: stray.or(second),
    }
}

// The last answer of a pair run; for each processor the stray of its own last step that had one; and how many steps stepped or exchanged.
#[derive(Clone, Copy)]
pub struct Paired {
    pub last: Option<Answer>,
    pub strays: Told,
    pub steps: u64,
}

// A step for each byte of a schedule, 0 naming the first processor, up to and including the first that exchanges or stops.
pub fn take_schedule(pair: &mut [u64; 1344], mem: &mut [u64], schedule: &[u8]) -> Paired
    requires schedule { length schedule.now ≤ 65536 }
    requires both { Both pair.old (length mem.old) }
    ensures { pair_ended (Ok result.last) result.steps (half_with (first_of pair.new) result.strays.first)
        (half_with (second_of pair.new) result.strays.second) (sharing mem.new)
        ≡ pair_of schedule.now (Ok None) 0 (half (first_of pair.old)) (half (second_of pair.old)) (sharing mem.old) }
{
    let mut strays = Told {
        first: None,
        second: None,
    };
    let mut burst = take(pair, mem, schedule, 0);
    while burst.steps < schedule.len() {
        let at = burst.at;
        let n = burst.steps;
        let p = burst.p;
        let work = burst.work;
        let stray = stray_at(pair, mem.len() as u64, at, work);
        let answer = finish_at(pair, mem, at, p, work);
        strays = newer(strays, at, stray);
        if !crate::answer_goes(answer, false) {
            return Paired {
                last: Some(answer),
                strays,
                steps: n as u64 + crate::count_of(answer),
            };
        }
        burst = take(pair, mem, schedule, n + 1);
    }
    let p = burst.p;
    keep_p(pair, burst.at, p);
    let steps = burst.steps as u64;
    Paired {
        last: crate::last_after(steps),
        strays,
        steps,
    }
}
