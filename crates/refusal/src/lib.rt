// Refusals: each call checks its own, in the order of their numbers.
#![tactic(auto)]

ghost use Rattle.std.specs.Prelude.{◌≡◌, length};
ghost use Rattle.machine.specs.Refusal.{memory_fits, state_fits, start_refusal, step_refusal, run_refusal, pair_refusal};
ghost use Rattle.machine.specs.Call.{number_of};
ghost use Rattle.machine.specs.Layout.{state_of, first_of, second_of};
ghost use Rattle.refusal.specs.Joined.{joined};

use access::{
    A, B, BDM, CLN, DBA, DLA, FPS, IBA, IFP, ILA, IOR, MM, P, PROCESSOR, PS, S, T, VL, WORDS, XA,
};
use machine::{Refusal, Words};

// The numbers of a list or-ed together, so that one test does for all of them.
fn joined(numbers: &[u64]) -> u64
    ensures { result ≡ joined 0 numbers.now }
{
    let mut all: u64 = 0;
    for n in numbers {
        all = all | *n;
    }
    all
}

// The same of bytes. One function generic over the number would promise this of the type's own `|`, and each caller would have to be shown
// what that is.
fn joined_bytes(bytes: &[u8]) -> u8
    ensures { result ≡ joined 0 bytes.now }
{
    let mut all: u8 = 0;
    for b in bytes {
        all = all | *b;
    }
    all
}

// Whether a memory has 4,096 to 4,194,304 words.
fn memory_fits(words: usize) -> bool
    ensures { result ≡ memory_fits words }
{
    (4096 <= words) & (words <= 4194304)
}

// Whether every number fits its register.
fn numbers_fit(r: &Words) -> bool
    ensures { result ≡ state_fits (state_of r.now) }
{
    let registers = ((joined(&r[A..S]) | joined(&r[B..T])) < 16777216)
        & (r[XA] < 256)
        & ((r[IOR] | r[BDM]) < 2)
        & (1 <= r[VL])
        & (r[VL] <= 64);
    let frame = ((r[IBA] | r[ILA] | r[DBA] | r[DLA]) < 131072)
        & ((r[MM] | r[IFP] | r[FPS] | r[PS]) < 2)
        & (r[CLN] < 4);
    (r[P] < 16777216) & registers & frame
}

// Of a start: 1, 2, 4.
pub fn of_start(words: usize, package: u64, processor: u64) -> Result<(), Refusal>
    ensures { number_of result ≡ start_refusal words «package» processor }
{
    if !memory_fits(words) {
        return Err(Refusal::MemorySize);
    }
    if 255 < package {
        return Err(Refusal::PackageNumber);
    }
    if 1 < processor {
        return Err(Refusal::ProcessorNumber);
    }
    Ok(())
}

// Of a turn and of a run: 1, 3, 4, 7.
pub fn of_run(r: &Words, words: usize, budget: u64) -> Result<(), Refusal>
    ensures { number_of result ≡ run_refusal words (state_of r.now) budget }
{
    if !memory_fits(words) {
        return Err(Refusal::MemorySize);
    }
    if 1000000 < budget {
        return Err(Refusal::Budget);
    }
    if 1 < r[PROCESSOR] {
        return Err(Refusal::ProcessorNumber);
    }
    if !numbers_fit(r) {
        return Err(Refusal::RegisterWidth);
    }
    Ok(())
}

// Of a step, as of a run whose budget is not refused: 1, 4, 7.
pub fn of_step(r: &Words, words: usize) -> Result<(), Refusal>
    ensures { number_of result ≡ step_refusal words (state_of r.now) }
{
    of_run(r, words, 0)
}

// Of a pair run: 1, 4, 5, 6, 7.
pub fn of_pair(pair: &[u64; 1344], words: usize, schedule: &[u8]) -> Result<(), Refusal>
    ensures { number_of result ≡ pair_refusal words (first_of pair.now) (second_of pair.now) schedule.now }
{
    let first = access::half(pair, 0);
    let second = access::half(pair, WORDS);
    if !memory_fits(words) {
        return Err(Refusal::MemorySize);
    }
    if !((first[PROCESSOR] == 0) & (second[PROCESSOR] == 1)) {
        return Err(Refusal::ProcessorNumber);
    }
    if 65536 < schedule.len() {
        return Err(Refusal::ScheduleLength);
    }
    if 1 < joined_bytes(schedule) {
        return Err(Refusal::ScheduleByte);
    }
    if !(numbers_fit(first) & numbers_fit(second)) {
        return Err(Refusal::RegisterWidth);
    }
    Ok(())
}
