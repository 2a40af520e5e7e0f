// The address instructions 020 to 032: one function for each first three digits. A result goes to Ai, but of 025 to Bjk.
// `enter`, `sum` and `difference` have twins in `scalar`: each function states its own code, and A and S have numbers of their own width.
#![tactic(auto)]

ghost use Rattle.std.specs.Prelude.{◌≡◌, ◌/◌, length};
ghost use Rattle.machine.specs.Word.{pick};
ghost use Rattle.machine.specs.Layout.{frame_of};
ghost use Rattle.access.specs.Window.{Reaches};
ghost use Rattle.access.specs.Executed.{Executes, Alone};

use machine::{ParcelAddr, Reach, Words, Work};

// 020ijkm: jkm. 021ijkm: its complement in 24 bits.
pub fn enter(r: &mut Words, mem: &[u64], f: Reach, p: ParcelAddr, x: u64, complement: bool) -> Work
    requires coded { x / 512 ≡ pick complement 0o021 0o020 }
    requires reaches { Reaches (frame_of r.old) f (length mem.now) }
    ensures { Executes result r.old r.new mem.now mem.now p.0 x }
{
    let Some(m) = access::fetch(mem, f, access::on(p, 1)) else {
        return access::no_parcel(r);
    };
    let y = word::either_24(access::jkm(x, m), complement);
    access::set_a(r, access::i(x), y);
    Work::PastTwo
}

// 022ijk: jk.
pub fn short(r: &mut Words, x: u64) -> Work
    requires { x / 512 ≡ 0o022 }
    ensures { Alone result r.old r.new x }
{
    access::put_a(r, x, x % 64)
}

// 023ij0: the low 24 bits of Sj. 023i01: VL.
pub fn from_s_or_vl(r: &mut Words, x: u64) -> Work
    requires { x / 512 ≡ 0o023 }
    ensures { Alone result r.old r.new x }
{
    let last = access::k(x);
    if last == 0 {
        return access::put_a(r, x, access::s_j(r, x) % 16777216);
    }
    if access::j(x) == 0 && last == 1 {
        return access::put_a(r, x, access::vl(r) as u64);
    }
    Work::NotHeld
}

// 024ijk: Bjk.
pub fn from_b(r: &mut Words, x: u64) -> Work
    requires { x / 512 ≡ 0o024 }
    ensures { Alone result r.old r.new x }
{
    access::put_a(r, x, access::b_jk(r, x))
}

// 025ijk: Ai to Bjk.
pub fn to_b(r: &mut Words, x: u64) -> Work
    requires { x / 512 ≡ 0o025 }
    ensures { Alone result r.old r.new x }
{
    access::set_b(r, access::jk(x), access::a_i(r, x));
    Work::PastOne
}

// 026ij0: the number of ones in Sj. 026ij1: that number modulo 2.
pub fn ones(r: &mut Words, x: u64) -> Work
    requires { x / 512 ≡ 0o026 }
    ensures { Alone result r.old r.new x }
{
    match access::k(x) {
        0 => access::put_a(r, x, word::count_ones(access::s_j(r, x))),
        1 => access::put_a(r, x, word::odd_ones(access::s_j(r, x))),
        _ => Work::NotHeld,
    }
}

// 027ij0: the number of zeros before the first one in Sj.
pub fn zeros(r: &mut Words, x: u64) -> Work
    requires { x / 512 ≡ 0o027 }
    ensures { Alone result r.old r.new x }
{
    if access::k(x) == 0 {
        access::put_a(r, x, word::count_zeros(access::s_j(r, x)))
    } else {
        Work::NotHeld
    }
}

// 030ijk: Aj and Ak added.
pub fn sum(r: &mut Words, x: u64) -> Work
    requires { x / 512 ≡ 0o030 }
    ensures { Alone result r.old r.new x }
{
    access::put_a(r, x, word::sum_24(access::a_j(r, x), access::a_k(r, x)))
}

// 031ijk: Aj less Ak.
pub fn difference(r: &mut Words, x: u64) -> Work
    requires { x / 512 ≡ 0o031 }
    ensures { Alone result r.old r.new x }
{
    access::put_a(
        r,
        x,
        word::difference_24(access::a_j(r, x), access::a_k(r, x)),
    )
}

// 032ijk: Aj times Ak.
pub fn product(r: &mut Words, x: u64) -> Work
    requires { x / 512 ≡ 0o032 }
    ensures { Alone result r.old r.new x }
{
    access::put_a(r, x, word::product_24(access::a_j(r, x), access::a_k(r, x)))
}
