// The public functions for C and Rust, but for a pair run: numbers, slices and fixed arrays. A processor is 672 words, in the places that
// machine/specs/Layout.antt gives; they are worked on where they stand. A refused call alters nothing.
#![tactic(auto)]

ghost use Rattle.std.specs.Prelude.{◌≡◌, [], ◌∷◌};
ghost use Rattle.machine.specs.State.{sharing};
ghost use Rattle.machine.specs.Call.{start_call, step_call, turn_call, run_call};
ghost use Rattle.machine.specs.Layout.{state_of};
ghost use Rattle.numbers.specs.Left.{left, after_start, after_step, after_turn, after_run};
ghost use Rattle.export.specs.Cal.{after_assemble, after_list};

use spelling::{ReadError, TooLong};

// A processor started from a package.
#[unsafe(no_mangle)]
pub extern "C" fn pulxarrid_start(
    state: &mut [u64; 672],
    mem: &[u64],
    package: u64,
    processor: u64,
) -> u64
    ensures { left result (state_of state.new ∷ []) []
        ≡ after_start (start_call (state_of state.old) mem.now «package» processor) }
{
    match xmp::start(state, mem, package, processor) {
        Ok(()) => 0,
        Err(refusal) => refusal.into(),
    }
}

// One step: `answer` takes its kind and its value, and its stray's cause and element.
#[unsafe(no_mangle)]
pub extern "C" fn pulxarrid_step(
    state: &mut [u64; 672],
    mem: &mut [u64],
    answer: &mut [u64; 4],
) -> u64
    ensures { left result (state_of state.new ∷ []) (mem.new ∷ answer.new ∷ [])
        ≡ after_step answer.old (step_call (state_of state.old) (sharing mem.old)) }
{
    match xmp::step(state, mem) {
        Ok(replied) => {
            let n = numbers::kind_of_answer(replied.answer);
            let s = numbers::of_stray(replied.stray);
            *answer = [n[0], n[1], s[0], s[1]];
            0
        }
        Err(refusal) => refusal.into(),
    }
}

// Steps up to and including the first that exchanges or stops, at most `budget`: `report` takes the kind and the value of the
// last answer, the steps, and the stray's cause and element.
#[unsafe(no_mangle)]
pub extern "C" fn pulxarrid_turn(
    state: &mut [u64; 672],
    mem: &mut [u64],
    budget: u64,
    report: &mut [u64; 5],
) -> u64
    ensures { left result (state_of state.new ∷ []) (mem.new ∷ report.new ∷ [])
        ≡ after_turn report.old (turn_call (state_of state.old) (sharing mem.old) budget) }
{
    match xmp::turn(state, mem, budget) {
        Ok(turned) => {
            let n = numbers::kind_of_last(turned.last);
            let s = numbers::of_stray(turned.stray);
            *report = [n[0], n[1], turned.steps, s[0], s[1]];
            0
        }
        Err(refusal) => refusal.into(),
    }
}

// At most `budget` steps: `report` takes the kind and the value of the ending, the steps, and the stray's cause and element.
#[unsafe(no_mangle)]
pub extern "C" fn pulxarrid_run(
    state: &mut [u64; 672],
    mem: &mut [u64],
    budget: u64,
    report: &mut [u64; 5],
) -> u64
    ensures { left result (state_of state.new ∷ []) (mem.new ∷ report.new ∷ [])
        ≡ after_run report.old (run_call (state_of state.old) (sharing mem.old) budget) }
{
    match xmp::run(state, mem, budget) {
        Ok(ran) => {
            let n = numbers::kind_of_ending(ran.ending);
            let s = numbers::of_stray(ran.stray);
            *report = [n[0], n[1], ran.steps, s[0], s[1]];
            0
        }
        Err(refusal) => refusal.into(),
    }
}

// A text assembled: `report` takes how many parcels were written, or the bad line, counted from 1.
#[unsafe(no_mangle)]
pub extern "C" fn pulxarrid_assemble(text: &[u8], parcels: &mut [u16], report: &mut [u64; 1]) -> u64
    ensures { left result [] (parcels.new ∷ report.new ∷ [])
        ≡ after_assemble text.now parcels.old report.old }
{
    match assembly::assemble(text, parcels) {
        Ok(n) => {
            *report = [n as u64];
            0
        }
        Err(e) => {
            if let ReadError::BadLine(line) = e {
                *report = [line as u64];
            }
            e.number()
        }
    }
}

// Parcels listed: `report` takes how many bytes were written.
#[unsafe(no_mangle)]
pub extern "C" fn pulxarrid_list(parcels: &[u16], text: &mut [u8], report: &mut [u64; 1]) -> u64
    ensures { left result [] (text.new ∷ report.new ∷ [])
        ≡ after_list parcels.now text.old report.old }
{
    match assembly::list(parcels, text) {
        Ok(n) => {
            *report = [n as u64];
            0
        }
        Err(TooLong) => 18,
    }
}
