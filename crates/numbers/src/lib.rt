// The answers of the library as numbers: the kind of an answer and its value; the cause of a stray, 0 for none, and its element.
#![tactic(auto)]

ghost use Rattle.std.specs.Prelude.{◌≡◌, ◌∷◌, Ok};
ghost use Rattle.machine.specs.Call.{answer_numbers, ending_numbers, last_numbers, stray_numbers};
ghost use Rattle.numbers.specs.Left.{two_of};

use machine::{Answer, Ending, Stray};

// The kind of no answer: past every kind that an answer may have.
const NOTHING: u64 = 15;

// The kind and the value of an answer.
pub fn kind_of_answer(o: Answer) -> [u64; 2]
    ensures { result ≡ two_of (0 ∷ answer_numbers o) }
{
    match o {
        Answer::Stepped => [0, 0],
        Answer::Exchanged(flags) => [1, flags],
        Answer::NotHeld(p) => [2, p.0],
        Answer::MonitorFetch(p) => [3, p.0],
    }
}

// The same of how a run ended, and of the last answer of a turn or a pair run.
pub fn kind_of_ending(o: Ending) -> [u64; 2]
    ensures { result ≡ two_of (ending_numbers (Ok o)) }
{
    match o {
        Ending::Budget => [0, 0],
        Ending::NotHeld(p) => [2, p.0],
        Ending::MonitorFetch(p) => [3, p.0],
    }
}

pub fn kind_of_last(o: Option<Answer>) -> [u64; 2]
    ensures { result ≡ two_of (last_numbers (Ok o)) }
{
    match o {
        None => [NOTHING, 0],
        Some(answer) => kind_of_answer(answer),
    }
}

// A stray: its cause, 0 for none, and its element.
pub fn of_stray(stray: Option<Stray>) -> [u64; 2]
    ensures { result ≡ stray_numbers stray }
{
    match stray {
        None => [0, 0],
        Some(stray) => [stray.cause.into(), stray.element],
    }
}
