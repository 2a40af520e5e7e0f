// The public functions: a start, a step, a turn, a run, a pair run. A processor is 672 lent words (machine/specs/Layout.antt), worked on in
// place. No caller is relied on: each call does its work, or says why it refuses, with all as it was.
#![tactic(auto)]

ghost use Rattle.std.specs.Prelude.{◌≡◌, None, Ok, Err};
ghost use Rattle.machine.specs.State.{sharing};
ghost use Rattle.machine.specs.Run.{turned, ended, half, half_with, pair_ended};
ghost use Rattle.machine.specs.Call.{started, start_call, replied, step_call, turn_call, run_call, pair_call};
ghost use Rattle.machine.specs.Call.{number_of, tells};
ghost use Rattle.machine.specs.Layout.{state_of, first_of, second_of};
ghost use Rattle.xmp.specs.Reply.{told_reply, told_turned, told_ended, told_paired};
ghost use Rattle.xmp.specs.Reply.{step_numbers, turn_numbers, run_numbers, pair_numbers};

use machine::{Answer, Refusal, Stray, Words};
use turns::Turned;
use turns::pair::Paired;
use turns::run::Ran;

// Starts a processor from a package: it only loads, B, T, V and VM being zero.
pub fn start(r: &mut Words, mem: &[u64], package: u64, processor: u64) -> Result<(), Refusal>
    ensures { started (number_of result) (state_of r.new) ≡ start_call (state_of r.old) mem.now «package» processor }
{
    refusal::of_start(mem.len(), package, processor)?;
    *r = [0u64; 672];
    r[access::PROCESSOR] = processor;
    exchange::load_package(r, mem, package);
    Ok(())
}

// What a step gives: its answer and its stray.
#[derive(Clone, Copy)]
pub struct Replied {
    pub answer: Answer,
    pub stray: Option<Stray>,
}

// One step.
pub fn step(r: &mut Words, mem: &mut [u64]) -> Result<Replied, Refusal>
    ensures call { tells result (λ o. replied (Ok o.answer) o.stray (state_of r.new) (sharing mem.new))
        (λ no. replied (Err no) None (state_of r.new) (sharing mem.new))
        ≡ step_call (state_of r.old) (sharing mem.old) }
    ensures numbers { step_numbers (told_reply result (state_of r.new) (sharing mem.new))
        ≡ step_numbers (step_call (state_of r.old) (sharing mem.old)) }
{
    refusal::of_step(r, mem.len())?;
    let turned = turns::turn(r, mem, 1);
    // a turn of one step has a last answer
    Ok(Replied {
        answer: turned.last.unwrap_or(Answer::Stepped),
        stray: turned.stray,
    })
}

// Steps up to and including the first that exchanges or stops, at most `budget`.
pub fn turn(r: &mut Words, mem: &mut [u64], budget: u64) -> Result<Turned, Refusal>
    ensures call { tells result (λ t. turned (Ok t.last) t.stray t.steps (state_of r.new) (sharing mem.new))
        (λ no. turned (Err no) None 0 (state_of r.new) (sharing mem.new))
        ≡ turn_call (state_of r.old) (sharing mem.old) budget }
    ensures numbers { turn_numbers (told_turned result (state_of r.new) (sharing mem.new))
        ≡ turn_numbers (turn_call (state_of r.old) (sharing mem.old) budget) }
{
    refusal::of_run(r, mem.len(), budget)?;
    Ok(turns::turn(r, mem, budget))
}

// At most `budget` steps, sooner where one stops.
pub fn run(r: &mut Words, mem: &mut [u64], budget: u64) -> Result<Ran, Refusal>
    ensures call { tells result (λ e. ended (Ok e.ending) e.stray e.steps (state_of r.new) (sharing mem.new))
        (λ no. ended (Err no) None 0 (state_of r.new) (sharing mem.new))
        ≡ run_call (state_of r.old) (sharing mem.old) budget }
    ensures numbers { run_numbers (told_ended result (state_of r.new) (sharing mem.new))
        ≡ run_numbers (run_call (state_of r.old) (sharing mem.old) budget) }
{
    refusal::of_run(r, mem.len(), budget)?;
    Ok(turns::run::run(r, mem, budget))
}

// Two processors, one after the other in 1,344 words, over one memory: a step for each byte of a schedule of 0s and 1s, up to and
// including the first that exchanges or stops.
pub fn pair_run(pair: &mut [u64; 1344], mem: &mut [u64], schedule: &[u8]) -> Result<Paired, Refusal>
    ensures call { tells result
        (λ e. pair_ended (Ok e.last) e.steps (half_with (first_of pair.new) e.strays.first) (half_with (second_of pair.new) e.strays.second)
        (sharing mem.new))
        (λ no. pair_ended (Err no) 0 (half (first_of pair.new)) (half (second_of pair.new)) (sharing mem.new))
        ≡ pair_call (first_of pair.old) (second_of pair.old) (sharing mem.old) schedule.now }
    ensures numbers { pair_numbers (told_paired result (first_of pair.new) (second_of pair.new) (sharing mem.new))
        ≡ pair_numbers (pair_call (first_of pair.old) (second_of pair.old) (sharing mem.old) schedule.now) }
{
    refusal::of_pair(pair, mem.len(), schedule)?;
    Ok(turns::pair::take_schedule(pair, mem, schedule))
}
