// The whole answer to a case sheet: read, start, run, report.
#![tactic(auto)]

ghost use Rattle.std.specs.Prelude.{◌≡◌, ◌≤◌, length, None, Ok};
ghost use Rattle.machine.specs.State.{sharing};
ghost use Rattle.machine.specs.Run.{start_of, ended, run_of};
ghost use Rattle.machine.specs.Layout.{state_of};
ghost use Rattle.text.specs.Report.{Wrote};
ghost use Rattle.case.specs.Case.{answer_of};

use machine::Words;
use turns::run::Ran;

// Starts processor 0 from package 0, and runs it.
fn run_package(r: &mut Words, mem: &mut [u64], steps: u64) -> Ran
    requires { (length mem.old ≡ 4096) × (steps ≤ 1000000) }
    ensures { ended (Ok result.ending) result.stray result.steps (state_of r.new) (sharing mem.new)
        ≡ run_of steps None 0 (start_of mem.old 0 0) (sharing mem.old) }
{
    xmp::start(r, mem, 0, 0).unwrap();
    xmp::run(r, mem, steps).unwrap()
}

// Writes the answer to a sheet at the start of out, as much of it as fits, and answers its whole length: at most 22 bytes for
// each word of memory, and 8,192 besides.
pub fn answer(sheet: &[u8], out: &mut [u8]) -> usize
    ensures wrote { Wrote out.old 0 (answer_of sheet.now) out.new result }
    ensures upper_bound { result ≤ 98304 }
{
    let mut mem = [0u64; 4096];
    match text::read(sheet, &mut mem) {
        Ok(steps) => {
            let before = mem;
            let mut r = [0u64; 672];
            let ran = run_package(&mut r, &mut mem, steps);
            text::report(Ok(ran.ending), ran.stray, ran.steps, &r, &before, &mem, out)
        }
        Err(bad) => text::refused(bad.line, out),
    }
}
