// The S register instructions, 040 to 077: constants and sums here; logic, shifts and transmits each in a module.
#![tactic(auto)]

pub mod logic;
pub mod shift;
pub mod transmit;

ghost use Rattle.std.specs.Prelude.{◌≡◌, ◌/◌, length};
ghost use Rattle.machine.specs.Word.{pick};
ghost use Rattle.machine.specs.Layout.{frame_of};
ghost use Rattle.access.specs.Window.{Reaches};
ghost use Rattle.access.specs.Executed.{Executes, Alone};

use machine::{ParcelAddr, Reach, Words, Work};

// 040ijkm: Si becomes jkm. 041ijkm: its complement in 64 bits.
pub fn enter(r: &mut Words, mem: &[u64], f: Reach, p: ParcelAddr, x: u64, complement: bool) -> Work
    requires coded { x / 512 ≡ pick complement 0o041 0o040 }
    requires reaches { Reaches (frame_of r.old) f (length mem.now) }
    ensures { Executes result r.old r.new mem.now mem.now p.0 x }
{
    let Some(m) = access::fetch(mem, f, access::on(p, 1)) else {
        return access::no_parcel(r);
    };
    let y = word::either(access::jkm(x, m), complement);
    access::set_s(r, access::i(x), y);
    Work::PastTwo
}

// 042ijk: Si becomes 64 - jk ones at the right.
pub fn ones_right(r: &mut Words, x: u64) -> Work
    requires { x / 512 ≡ 0o042 }
    ensures { Alone result r.old r.new x }
{
    access::put_s(r, x, word::ones_right(x))
}

// 043ijk: Si becomes jk ones at the left.
pub fn ones_left(r: &mut Words, x: u64) -> Work
    requires { x / 512 ≡ 0o043 }
    ensures { Alone result r.old r.new x }
{
    access::put_s(r, x, word::ones_left(x))
}

// 060ijk: Si becomes Sj + Sk.
pub fn sum(r: &mut Words, x: u64) -> Work
    requires { x / 512 ≡ 0o060 }
    ensures { Alone result r.old r.new x }
{
    access::put_s(r, x, word::sum(access::s_j(r, x), access::s_k(r, x)))
}

// 061ijk: Si becomes Sj - Sk.
pub fn difference(r: &mut Words, x: u64) -> Work
    requires { x / 512 ≡ 0o061 }
    ensures { Alone result r.old r.new x }
{
    access::put_s(r, x, word::difference(access::s_j(r, x), access::s_k(r, x)))
}
