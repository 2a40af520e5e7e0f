// A run: steps until the budget is spent or one stops, through exchanges.
ghost use Rattle.std.specs.Prelude.{◌≡◌, ◌^◌, ◌<◌, ◌≤◌, length, get_or, None, Ok};
ghost use Rattle.machine.specs.State.{sharing};
ghost use Rattle.machine.specs.Run.{ending_of, ended, run_of};
ghost use Rattle.machine.specs.Layout.{state_of};
ghost use Rattle.turns.specs.Turn.{Fitting, last_ending};

use machine::{Answer, Ending, Stray, Words};

// How a run ended; the stray of its last step that had one; and how many of its steps stepped or exchanged.
#[derive(Clone, Copy)]
pub struct Ran {
    pub ending: Ending,
    pub stray: Option<Stray>,
    pub steps: u64,
}

// The ending that an answer makes.
fn ending_after(answer: Answer) -> Ending
    ensures { result ≡ ending_of answer }
{
    match answer {
        Answer::Stepped => Ending::Budget,
        Answer::Exchanged(_) => Ending::Budget,
        Answer::NotHeld(p) => Ending::NotHeld(p),
        Answer::MonitorFetch(p) => Ending::MonitorFetch(p),
    }
}

// The ending of a run whose last turn ended so.
fn ending_of(last: Option<Answer>) -> Ending
    ensures { Ok result ≡ last_ending (Ok last) }
{
    match last {
        None => Ending::Budget,
        Some(answer) => ending_after(answer),
    }
}

// Steps until the budget is spent or one stops.
pub fn run(r: &mut Words, mem: &mut [u64], budget: u64) -> Ran
    requires fitting { Fitting r.old (length mem.old) }
    requires bounds { (get_or r.old 0 0 < 2 ^ 24) × (budget ≤ 1000000) }
    ensures { ended (Ok result.ending) result.stray result.steps (state_of r.new) (sharing mem.new)
        ≡ run_of budget None 0 (state_of r.old) (sharing mem.old) }
{
    let taken = crate::take(r, mem, budget, true);
    let last = taken.last;
    let stray = taken.stray;
    Ran {
        ending: ending_of(last),
        stray,
        steps: taken.steps,
    }
}
