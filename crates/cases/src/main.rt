// Answers the stored case sheets: the files 0000 to 1499 of data/, each after a line of its number.
#![tactic(auto)]

use std::fs::{self, Files};
use std::io::{self, Write};
use std::str;

// One case.
fn put_case(rt: &(impl Files + Print), k: u64) -> io::Result<()> {
    let name = input::name_of(k);
    let mut standard_out = io::writer(rt);
    standard_out.write_all(b"case=")?;
    standard_out.write_all(&name)?;
    standard_out.write_all(b"\n")?;
    let mut file = fs::open(rt, str::from_utf8(&name).unwrap())?;
    let mut sheet = [0u8; 24577];
    let n = input::read_full(&mut file, &mut sheet)?;
    let mut out = [0u8; 98304];
    let end = case::answer(&sheet[..n], &mut out);
    standard_out.write_all(&out[..end])
}

fn main(rt: HostRuntime) -> io::Result<()> {
    for k in 0..1500 {
        put_case(&rt, k)?;
    }
    Ok(())
}
