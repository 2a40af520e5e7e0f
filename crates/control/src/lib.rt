// Instructions 000 to 017: exits, XA, VL and the modes, VM, jumps and branches.
#![tactic(auto)]

ghost use Rattle.std.specs.Prelude.{◌≡◌, true, ◌&&◌, List, ℕ, ◌/◌, ◌%◌, ◌^◌, ◌<◌, length, eqb, ltb};
ghost use Rattle.machine.specs.declared.Work.TheVariants.{PastOne, To};
ghost use Rattle.machine.specs.Word.{pick};
ghost use Rattle.machine.specs.Parcel.{i_of, j_of, k_of, ijkm_of};
ghost use Rattle.machine.specs.State.{addr};
ghost use Rattle.machine.specs.Layout.{registers_of, frame_of};
ghost use Rattle.access.specs.Window.{Reaches};
ghost use Rattle.access.specs.Executed.{Executes, Alone, Puts, Control, to_control};
ghost use Rattle.control.specs.Control.{test_code, test_of, nothing_at};

use machine::{ParcelAddr, Reach, Words, Work};

// The digits i, j and k are 0.
fn no_digits(x: u64) -> bool
    ensures { result ≡ (eqb (i_of x) 0 && eqb (j_of x) 0 && eqb (k_of x) 0) }
{
    x % 512 == 0
}

// 000000: the error exit. Of the codes that name no instruction too, so that they share its place in the table of codes.
pub fn error_exit(x: u64) -> Work
    requires { (nothing_at (x / 512) ≡ true) × (x < 2 ^ 16) }
    ensures { (r : List ℕ) → Alone result r r x }
{
    if x == 0 {
        Work::ErrorExit
    } else {
        Work::NotHeld
    }
}

// 004000: the normal exit.
pub fn normal_exit(x: u64) -> Work
    requires { x / 512 ≡ 0o004 }
    ensures { (r : List ℕ) → Alone result r r x }
{
    if no_digits(x) {
        Work::NormalExit
    } else {
        Work::NotHeld
    }
}

// The end of an instruction that sets the control register at a place.
fn put_control(r: &mut Words, place: usize, y: u64) -> Work
    requires { Control place }
    ensures { (result ≡ PastOne) × Puts r.old r.new (to_control place y) }
{
    access::set_control(r, place, y);
    Work::PastOne
}

// What passes of 001ijk where i is not 3: in user mode 0010jk to 0015jk, in monitor mode 001000.
fn passes(user: bool, x: u64) -> bool
    ensures { result ≡ pick user (ltb (i_of x) 6) (eqb (i_of x) 0 && eqb (j_of x) 0 && eqb (k_of x) 0) }
{
    if user { access::i(x) < 6 } else { no_digits(x) }
}

// 001ijk: 0013j0 sets XA from bits 2^4 to 2^11 of Aj in monitor mode, and passes in user mode.
pub fn privileged(r: &mut Words, x: u64) -> Work
    requires { x / 512 ≡ 0o001 }
    ensures { Alone result r.old r.new x }
{
    let user = access::is_user(r);
    if access::i(x) != 3 {
        if passes(user, x) {
            return Work::PastOne;
        }
        return Work::NotHeld;
    }
    if access::k(x) != 0 {
        return Work::NotHeld;
    }
    if user {
        return Work::PastOne;
    }
    put_control(r, access::XA, access::a_j(r, x) / 16 % 256)
}

// 002300 to 002600: IOR set and cleared, BDM cleared and set. 002700 passes.
fn set_mode(r: &mut Words, x: u64) -> Work
    requires { (x / 512 ≡ 0o002) × (j_of x ≡ 0) × (k_of x ≡ 0) × (0 < i_of x) }
    ensures { Alone result r.old r.new x }
{
    match access::i(x) {
        3 => put_control(r, access::IOR, 1),
        4 => put_control(r, access::IOR, 0),
        5 => put_control(r, access::BDM, 0),
        6 => put_control(r, access::BDM, 1),
        7 => Work::PastOne,
        _ => Work::NotHeld,
    }
}

// 00200k: VL from Ak. 002i00: the modes.
pub fn modes(r: &mut Words, x: u64) -> Work
    requires { x / 512 ≡ 0o002 }
    ensures { Alone result r.old r.new x }
{
    if access::j(x) != 0 {
        return Work::NotHeld;
    }
    let i = access::i(x);
    if i == 0 {
        return put_control(r, access::VL, word::vector_length(access::a_k(r, x)));
    }
    if access::k(x) != 0 {
        return Work::NotHeld;
    }
    set_mode(r, x)
}

// 0030j0: VM from Sj.
pub fn set_mask(r: &mut Words, x: u64) -> Work
    requires { x / 512 ≡ 0o003 }
    ensures { Alone result r.old r.new x }
{
    if access::i(x) == 0 && access::k(x) == 0 {
        put_control(r, access::VM, access::s_j(r, x))
    } else {
        Work::NotHeld
    }
}

// 0050jk: to Bjk.
pub fn jump_b(r: &Words, x: u64) -> Work
    requires { x / 512 ≡ 0o005 }
    ensures { Alone result r.now r.now x }
{
    if access::i(x) == 0 {
        Work::To(ParcelAddr(access::b_jk(r, x) % (1 << 24)))
    } else {
        Work::NotHeld
    }
}

// The end of an instruction that goes to ijkm.
fn to(x: u64, m: u64) -> Work
    requires { m < 2 ^ 16 }
    ensures { result ≡ To (addr (ijkm_of x m % 2 ^ 24)) }
{
    Work::To(ParcelAddr(access::ijkm(x, m)))
}

// 006ijkm: to ijkm.
pub fn jump(r: &Words, mem: &[u64], f: Reach, p: ParcelAddr, x: u64) -> Work
    requires coded { x / 512 ≡ 0o006 }
    requires reaches { Reaches (frame_of r.now) f (length mem.now) }
    ensures { Executes result r.now r.now mem.now mem.now p.0 x }
{
    if 4 <= access::i(x) {
        return Work::NotHeld;
    }
    let Some(m) = access::fetch(mem, f, access::on(p, 1)) else {
        return access::no_parcel(r);
    };
    to(x, m)
}

// 007ijkm: to ijkm, and B00 becomes the address past the instruction. `jump` is lent its words to be read, and so is a function of its own.
pub fn return_jump(r: &mut Words, mem: &[u64], f: Reach, p: ParcelAddr, x: u64) -> Work
    requires coded { x / 512 ≡ 0o007 }
    requires reaches { Reaches (frame_of r.old) f (length mem.now) }
    ensures { Executes result r.old r.new mem.now mem.now p.0 x }
{
    if 4 <= access::i(x) {
        return Work::NotHeld;
    }
    let Some(m) = access::fetch(mem, f, access::on(p, 1)) else {
        return access::no_parcel(r);
    };
    let past = access::on(p, 2);
    access::set_b(r, 0, past.0);
    to(x, m)
}

// What 010 to 017 test: A0 or S0 zero, not zero, its sign clear, set. No closure: the table of codes would have eight in place of the eight
// names, each with a proof that it is what its code tests, and eight copies of `branch`.
#[derive(Clone, Copy)]
pub enum Test {
    ZeroA,
    NonZeroA,
    PlusA,
    MinusA,
    ZeroS,
    NonZeroS,
    PlusS,
    MinusS,
}

// Whether a test holds.
fn holds(r: &Words, test: Test) -> bool
    ensures { result ≡ test_of test (registers_of r.now) }
{
    match test {
        Test::ZeroA => access::a_0(r) == 0,
        Test::NonZeroA => access::a_0(r) != 0,
        Test::PlusA => access::a_0(r) < 1 << 23,
        Test::MinusA => 1 << 23 <= access::a_0(r),
        Test::ZeroS => access::s_0(r) == 0,
        Test::NonZeroS => access::s_0(r) != 0,
        Test::PlusS => access::s_0(r) < 1 << 63,
        Test::MinusS => 1 << 63 <= access::s_0(r),
    }
}

// 010 to 017: to ijkm where the test holds; with the high bit of i set, Ah becomes ijkm.
pub fn branch(r: &mut Words, mem: &[u64], f: Reach, p: ParcelAddr, x: u64, test: Test) -> Work
    requires coded { x / 512 ≡ test_code test }
    requires reaches { Reaches (frame_of r.old) f (length mem.now) }
    ensures { Executes result r.old r.new mem.now mem.now p.0 x }
{
    let Some(m) = access::fetch(mem, f, access::on(p, 1)) else {
        return access::no_parcel(r);
    };
    if 4 <= access::i(x) {
        access::set_a(r, access::h(x), access::ijkm(x, m));
        return Work::PastTwo;
    }
    if holds(r, test) {
        return to(x, m);
    }
    Work::PastTwo
}
