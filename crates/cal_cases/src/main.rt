// Answers the stored texts for cal and for listing: the files 0000 to 0460 of data/, each after a line of its number. The first
// line of a file says for which of the two its text is.
#![tactic(auto)]

ghost use Rattle.std.specs.Prelude.{◌≡◌, ◌≤◌, length};

use std::fs::{self, Files};
use std::io::{self, Write};
use std::str;

// The answer to a file, whose text has at most 32,763 parcels.
fn answer(file: &[u8], out: &mut [u8]) -> usize
    requires { length out.old ≡ 229648 }
    ensures { result ≤ 229648 }
{
    let mut parcels = [0u16; 32768];
    if let Some(text) = file.strip_prefix(b"assemble\n") {
        return desk::cal(text, &mut parcels, out);
    }
    if let Some(text) = file.strip_prefix(b"list\n") {
        return desk::listing(text, &mut parcels, out);
    }
    0
}

// One case.
fn put_case(rt: &(impl Files + Print), k: u64) -> io::Result<()> {
    let name = input::name_of(k);
    let mut standard_out = io::writer(rt);
    standard_out.write_all(b"case=")?;
    standard_out.write_all(&name)?;
    standard_out.write_all(b"\n")?;
    let mut file = fs::open(rt, str::from_utf8(&name).unwrap())?;
    let mut text = [0u8; 65536];
    let n = input::read_full(&mut file, &mut text)?;
    let mut out = [0u8; 229648];
    let end = answer(&text[..n], &mut out);
    standard_out.write_all(&out[..end])
}

fn main(rt: HostRuntime) -> io::Result<()> {
    for k in 0..461 {
        put_case(&rt, k)?;
    }
    Ok(())
}
