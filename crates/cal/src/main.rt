// Assembles the CAL of standard input: to octal, a parcel to a line, or to words of a case sheet from the address that an
// argument names. One byte more than a text may have is read, so that a longer text is seen to be too long. No line takes fewer
// than two bytes for each of its parcels, and no answer has more than 7 bytes for each, or 272.
#![tactic(auto)]

ghost use Rattle.std.specs.Prelude.{◌+◌, ◌*◌, ◌≤◌, length};

use std::env::{Env, FillError};
use std::io::{self, Write};

// What the arguments ask for.
#[derive(Clone, Copy)]
enum Task {
    Octal,
    Words(u64),
    Unknown,
}

// One argument at most, an address.
fn asked(rt: &impl Env) -> Task {
    let mut word = [0u8; 8];
    match (rt.arg(1, &mut word), rt.arg(2, &mut [])) {
        (Err(FillError::NotPresent), _) => Task::Octal,
        (Ok(n), Err(FillError::NotPresent)) => match octal::word_address(&word[..n]) {
            Some(a) => Task::Words(a),
            None => Task::Unknown,
        },
        _ => Task::Unknown,
    }
}

// Reads the text and writes its parcels.
fn answer_octal(
    rt: &(impl Input + Print),
    text: &mut [u8],
    parcels: &mut [u16],
    out: &mut [u8],
) -> io::Result<()>
    requires { 272 + 7 * length parcels.old ≤ length out.old }
{
    let n = input::read_full(&mut rt.reader(), text)?;
    let end = desk::cal(&text[..n], parcels, out);
    io::writer(rt).write_all(&out[..end])
}

// Reads the text and writes its words.
fn answer_words(
    rt: &(impl Input + Print),
    address: u64,
    text: &mut [u8],
    parcels: &mut [u16],
    out: &mut [u8],
) -> io::Result<()>
    requires { 90112 ≤ length out.old }
{
    let n = input::read_full(&mut rt.reader(), text)?;
    let end = desk::cal_words(&text[..n], address, parcels, out);
    io::writer(rt).write_all(&out[..end])
}

// Answers on arrays: the prover counts an array that main lends as a slice, and these are too long for that.
fn answer(
    rt: &(impl Input + Print + Eprint),
    task: Task,
    text: &mut [u8; 1048577],
    parcels: &mut [u16; 524288],
    out: &mut [u8; 3670288],
) -> io::Result<()> {
    match task {
        Task::Octal => answer_octal(rt, text, parcels, out),
        Task::Words(a) => answer_words(rt, a, text, parcels, out),
        Task::Unknown => {
            eprintln!(rt; "cal: the only argument is a word address in hex, 0 to FFF")
        }
    }
}

fn main(rt: HostRuntime) -> io::Result<()> {
    let mut text = [0u8; 1048577];
    let mut parcels = [0u16; 524288];
    let mut out = [0u8; 3670288];
    answer(&rt, asked(&rt), &mut text, &mut parcels, &mut out)
}
