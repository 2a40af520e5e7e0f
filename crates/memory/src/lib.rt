// Operands in memory: single words here, blocks of B and T and vectors in `blocks`; which of them lay outside, in `strays`.
#![tactic(auto)]

pub mod blocks;
mod operands;
pub mod strays;

ghost use Rattle.std.specs.Prelude.{◌≡◌, ◌+◌, ◌/◌, ◌%◌, ◌^◌, ◌<◌, length};
ghost use Rattle.machine.specs.Parcel.{h_of, i_of, jkm_of};
ghost use Rattle.machine.specs.State.{ah};
ghost use Rattle.machine.specs.Layout.{registers_of, frame_of};
ghost use Rattle.access.specs.Window.{Reaches};
ghost use Rattle.access.specs.Executed.{Puts, Executes};
ghost use Rattle.memory.specs.Moves.{load_code, store_code, register_of, to_register};

use machine::{ParcelAddr, Reach, Words, Work};

// The registers that are loaded and stored one at a time.
#[derive(Clone, Copy)]
pub enum File {
    A,
    S,
}

// The address Ah + jkm.
fn indexed(r: &Words, x: u64, m: u64) -> u64
    requires { m < 2 ^ 16 }
    ensures { result ≡ (ah (registers_of r.now) (h_of x) + jkm_of x m) % 2 ^ 64 }
{
    std::num::wrapping_add_u64(access::a_h(r, x), access::jkm(x, m))
}

// Ai or Si.
fn register(r: &Words, x: u64, file: File) -> u64
    ensures { result ≡ register_of file (registers_of r.now) (i_of x) }
{
    match file {
        File::A => access::a_i(r, x),
        File::S => access::s_i(r, x),
    }
}

// Ai becomes the low 24 bits of a word, or Si the word.
fn set(r: &mut Words, x: u64, file: File, y: u64)
    ensures { Puts r.old r.new (to_register file (i_of x) y) }
{
    match file {
        File::A => access::set_a(r, access::i(x), y % 16777216),
        File::S => access::set_s(r, access::i(x), y),
    }
}

// 10h, 12h: Ai or Si from memory.
pub fn load(r: &mut Words, mem: &[u64], f: Reach, p: ParcelAddr, x: u64, file: File) -> Work
    requires coded { x / 512 / 8 ≡ load_code file }
    requires reaches { Reaches (frame_of r.old) f (length mem.now) }
    ensures { Executes result r.old r.new mem.now mem.now p.0 x }
{
    let Some(m) = access::fetch(mem, f, access::on(p, 1)) else {
        return access::no_parcel(r);
    };
    let n = indexed(r, x, m);
    let word = operands::get(mem, f.operands, n);
    set(r, x, file, word.unwrap_or(0));
    access::ended(r, 2, word.is_none(), n % 4194304)
}

// 11h, 13h: Ai or Si to memory.
pub fn store(r: &mut Words, mem: &mut [u64], f: Reach, p: ParcelAddr, x: u64, file: File) -> Work
    requires coded { x / 512 / 8 ≡ store_code file }
    requires reaches { Reaches (frame_of r.old) f (length mem.old) }
    ensures { Executes result r.old r.new mem.old mem.new p.0 x }
{
    let Some(m) = access::fetch(mem, f, access::on(p, 1)) else {
        return access::no_parcel(r);
    };
    let n = indexed(r, x, m);
    let y = register(r, x, file);
    let outside = operands::put(mem, f.operands, n, y);
    access::ended(r, 2, outside, n % 4194304)
}
