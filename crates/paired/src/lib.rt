// A pair run for C and Rust. It is a library of its own, compiled apart from a run's: each then has the code of a step in its own loop.
// A pair is 1,344 words, the first processor's before the second's, worked on where they stand. A refused call alters nothing.
#![tactic(auto)]

ghost use Rattle.std.specs.Prelude.{◌≡◌, [], ◌∷◌};
ghost use Rattle.machine.specs.State.{sharing};
ghost use Rattle.machine.specs.Call.{pair_call};
ghost use Rattle.machine.specs.Layout.{first_of, second_of};
ghost use Rattle.numbers.specs.Left.{left, after_pair};

// Steps of two processors along a schedule, the words of the first before those of the second: `report` takes the kind and the
// value of the last answer, the steps, and of each processor its stray's cause and element.
#[unsafe(no_mangle)]
pub extern "C" fn pulxarrid_pair_run(
    pair: &mut [u64; 1344],
    mem: &mut [u64],
    schedule: &[u8],
    report: &mut [u64; 7],
) -> u64
    ensures { left result (first_of pair.new ∷ second_of pair.new ∷ []) (mem.new ∷ report.new ∷ [])
        ≡ after_pair report.old
        (pair_call (first_of pair.old) (second_of pair.old) (sharing mem.old) schedule.now) }
{
    match xmp::pair_run(pair, mem, schedule) {
        Ok(paired) => {
            let n = numbers::kind_of_last(paired.last);
            let s = numbers::of_stray(paired.strays.first);
            let t = numbers::of_stray(paired.strays.second);
            *report = [n[0], n[1], paired.steps, s[0], s[1], t[0], t[1]];
            0
        }
        Err(refusal) => refusal.into(),
    }
}
