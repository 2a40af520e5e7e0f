// Lists the octal parcels of standard input as CAL; with -w and the address of the first, each line after its address and its
// parcels. One byte more than a text may have is read, so that a longer text is seen to be too long. A text has at most 149,796
// parcels, and a line of CAL at most 16 bytes.
#![tactic(auto)]

ghost use Rattle.std.specs.Prelude.{◌≤◌, ◌<◌, length, IfOk};

use std::env::{Env, FillError};
use std::io::{self, Write};

// What the arguments ask for.
#[derive(Clone, Copy)]
enum Task {
    Narrow,
    Wide(u64),
    Unknown,
}

// No argument, or -w and an address.
fn asked(rt: &impl Env) -> Task {
    let mut option = [0u8; 2];
    let mut word = [0u8; 8];
    match (
        rt.arg(1, &mut option),
        rt.arg(2, &mut word),
        rt.arg(3, &mut []),
    ) {
        (Err(FillError::NotPresent), _, _) => Task::Narrow,
        (Ok(2), Ok(n), Err(FillError::NotPresent)) => {
            if option != *b"-w" {
                return Task::Unknown;
            }
            match octal::parcel_address(&word[..n]) {
                Some(a) => Task::Wide(a),
                None => Task::Unknown,
            }
        }
        _ => Task::Unknown,
    }
}

// Writes the line of the first instruction of parcels, and answers how many parcels it takes.
fn write_line(rt: &impl Print, parcels: &[u16], address: u64) -> io::Result<usize>
    ensures { IfOk result (λ n. (n ≤ length parcels.now) × (0 < length parcels.now → 0 < n)) }
{
    let mut out = [0u8; 41];
    let line = desk::wide_line(parcels, address, &mut out);
    let n = line.bytes;
    io::writer(rt).write_all(&out[..n])?;
    Ok(line.parcels)
}

// Writes the lines of parcels with their addresses. They may be 6 MB, so each is written by itself. How far a turn goes is what
// `write_line` answers, and no range counts that.
fn write_wide(rt: &impl Print, parcels: &[u16], address: u64) -> io::Result<()>
    requires { length parcels.now ≤ 1048576 }
{
    let first = address % 16777216;
    let mut at: usize = 0;
    while at < parcels.len() {
        at += write_line(rt, &parcels[at..], first + at as u64)?;
    }
    Ok(())
}

// Reads the text and writes its listing.
fn answer_narrow(
    rt: &(impl Input + Print),
    text: &mut [u8],
    parcels: &mut [u16],
    out: &mut [u8],
) -> io::Result<()>
    requires { 272 ≤ length out.old }
{
    let n = input::read_full(&mut rt.reader(), text)?;
    let end = desk::listing(&text[..n], parcels, out);
    io::writer(rt).write_all(&out[..end])
}

// The same with addresses.
fn answer_wide(
    rt: &(impl Input + Print),
    address: u64,
    text: &mut [u8],
    parcels: &mut [u16],
    out: &mut [u8],
) -> io::Result<()>
    requires { 272 ≤ length out.old }
{
    let n = input::read_full(&mut rt.reader(), text)?;
    match desk::read(&text[..n], parcels, out) {
        Ok(k) => write_wide(rt, &parcels[..k], address),
        Err(refused) => {
            let end = refused.bytes;
            io::writer(rt).write_all(&out[..end])
        }
    }
}

// Answers on arrays: the prover counts an array that main lends as a slice, and these are too long for that.
fn answer(
    rt: &(impl Input + Print + Eprint),
    task: Task,
    text: &mut [u8; 1048577],
    parcels: &mut [u16; 149797],
    out: &mut [u8; 2396752],
) -> io::Result<()> {
    match task {
        Task::Narrow => answer_narrow(rt, text, parcels, out),
        Task::Wide(a) => answer_wide(rt, a, text, parcels, out),
        Task::Unknown => {
            eprintln!(rt;
                "listing: the only arguments are -w and a parcel address in octal, 0 to 77777777"
            )
        }
    }
}

fn main(rt: HostRuntime) -> io::Result<()> {
    let mut text = [0u8; 1048577];
    let mut parcels = [0u16; 149797];
    let mut out = [0u8; 2396752];
    answer(&rt, asked(&rt), &mut text, &mut parcels, &mut out)
}
