// The work of a step: fetch, and one jump table over the first three digits of the parcel, 000 to 177. The table is a chain of functions
// whose last arm hands on to the next, which the compiler joins; each has one call.
#![tactic(auto)]

ghost use Rattle.std.specs.Prelude.{◌≡◌, true, List, ℕ, ◌/◌, ◌^◌, ◌<◌, ◌≤◌, length};
ghost use Rattle.machine.specs.declared.Work.TheVariants.{PastOne, NotHeld};
ghost use Rattle.machine.specs.Word.{pick};
ghost use Rattle.access.specs.Executed.{Executes, Alone, Ends};
ghost use Rattle.vector.specs.Element.{plain, Vector};
ghost use Rattle.dispatch.specs.Table.{Ready, Works, arm_of, high_arm};

use control::Test;
use machine::{ParcelAddr, Reach, Words, Work};
use memory::File;

// The arm of a code. That all 128 are listed spares the table its range check; codes that name no instruction share the arm of 000, since an
// arm of their own would cost every step a move. An arm is told by the octal of its first code, since an enum would give each a third name.
fn arm(code: u64) -> u64
    requires { code < 128 }
    ensures { result ≡ arm_of code }
{
    match code {
        0o000 => 0o000,
        0o001 => 0o001,
        0o002 => 0o002,
        0o003 => 0o003,
        0o004 => 0o004,
        0o005 => 0o005,
        0o006 => 0o006,
        0o007 => 0o007,
        0o010 => 0o010,
        0o011 => 0o011,
        0o012 => 0o012,
        0o013 => 0o013,
        0o014 => 0o014,
        0o015 => 0o015,
        0o016 => 0o016,
        0o017 => 0o017,
        0o020 => 0o020,
        0o021 => 0o021,
        0o022 => 0o022,
        0o023 => 0o023,
        0o024 => 0o024,
        0o025 => 0o025,
        0o026 => 0o026,
        0o027 => 0o027,
        0o030 => 0o030,
        0o031 => 0o031,
        0o032 => 0o032,
        0o033 => 0o000,
        0o034 => 0o034,
        0o035 => 0o035,
        0o036 => 0o036,
        0o037 => 0o037,
        0o040 => 0o040,
        0o041 => 0o041,
        0o042 => 0o042,
        0o043 => 0o043,
        0o044 => 0o044,
        0o045 => 0o045,
        0o046 => 0o046,
        0o047 => 0o047,
        0o050 => 0o050,
        0o051 => 0o051,
        0o052 => 0o052,
        0o053 => 0o053,
        0o054 => 0o054,
        0o055 => 0o055,
        0o056 => 0o056,
        0o057 => 0o057,
        0o060 => 0o060,
        0o061 => 0o061,
        0o062 => 0o000,
        0o063 => 0o000,
        0o064 => 0o000,
        0o065 => 0o000,
        0o066 => 0o000,
        0o067 => 0o000,
        0o070 => 0o000,
        0o071 => 0o071,
        0o072 => 0o000,
        0o073 => 0o073,
        0o074 => 0o074,
        0o075 => 0o075,
        0o076 => 0o076,
        0o077 => 0o077,
        0o100 => 0o100,
        0o101 => 0o100,
        0o102 => 0o100,
        0o103 => 0o100,
        0o104 => 0o100,
        0o105 => 0o100,
        0o106 => 0o100,
        0o107 => 0o100,
        0o110 => 0o110,
        0o111 => 0o110,
        0o112 => 0o110,
        0o113 => 0o110,
        0o114 => 0o110,
        0o115 => 0o110,
        0o116 => 0o110,
        0o117 => 0o110,
        0o120 => 0o120,
        0o121 => 0o120,
        0o122 => 0o120,
        0o123 => 0o120,
        0o124 => 0o120,
        0o125 => 0o120,
        0o126 => 0o120,
        0o127 => 0o120,
        0o130 => 0o130,
        0o131 => 0o130,
        0o132 => 0o130,
        0o133 => 0o130,
        0o134 => 0o130,
        0o135 => 0o130,
        0o136 => 0o130,
        0o137 => 0o130,
        0o140 => 0o140,
        0o141 => 0o140,
        0o142 => 0o140,
        0o143 => 0o140,
        0o144 => 0o140,
        0o145 => 0o140,
        0o146 => 0o146,
        0o147 => 0o147,
        0o150 => 0o150,
        0o151 => 0o150,
        0o152 => 0o150,
        0o153 => 0o150,
        0o154 => 0o154,
        0o155 => 0o154,
        0o156 => 0o154,
        0o157 => 0o154,
        0o160 => 0o000,
        0o161 => 0o000,
        0o162 => 0o000,
        0o163 => 0o000,
        0o164 => 0o000,
        0o165 => 0o000,
        0o166 => 0o000,
        0o167 => 0o000,
        0o170 => 0o000,
        0o171 => 0o000,
        0o172 => 0o000,
        0o173 => 0o000,
        0o174 => 0o174,
        0o175 => 0o174,
        0o176 => 0o176,
        0o177 => 0o177,
        _ => 0o200,
    }
}

// The end of a vector instruction of one parcel, if the machine holds it.
fn held(holds: bool) -> Work
    ensures { result ≡ pick holds PastOne NotHeld }
{
    if holds { Work::PastOne } else { Work::NotHeld }
}

// 140 to 145 and 154 to 157: all 64 elements, or as many as VL says. It gives nothing, and so do the other functions that stay outside the
// loop of steps: an answer that is handed on in memory would cost every step.
fn vectors(r: &mut Words, x: u64)
    requires { Vector r.old × (plain (x / 512) ≡ true) }
    ensures { Alone PastOne r.old r.new x }
{
    if access::vl(r) == 64 {
        vector::full(r, x);
    } else {
        vector::part(r, x);
    }
}

// The end of a block move x, of which a word may have lain outside the data field.
fn moved(outside: bool, r: &mut Words, x: u64) -> Work
    ensures { Ends result r.old r.new 1 outside x }
{
    access::ended(r, 1, outside, x)
}

// 176i0k: Vi from memory.
fn read_v(r: &mut Words, mem: &[u64], f: Reach, x: u64) -> Work
    requires ready { Ready r.old f (length mem.now) }
    requires coded { x / 512 ≡ 0o176 }
    ensures { (p : ℕ) → Executes result r.old r.new mem.now mem.now p x }
{
    if access::j(x) != 0 {
        return Work::NotHeld;
    }
    moved(memory::blocks::read_v(r, mem, f.operands, x), r, x)
}

// 1770jk: Vj to memory.
fn store_v(r: &mut Words, mem: &mut [u64], f: Reach, x: u64) -> Work
    requires ready { Ready r.old f (length mem.old) }
    requires coded { x / 512 ≡ 0o177 }
    ensures { (p : ℕ) → Executes result r.old r.new mem.old mem.new p x }
{
    if access::i(x) != 0 {
        return Work::NotHeld;
    }
    moved(memory::blocks::store_v(r, mem, f.operands, x), r, x)
}

// 100 to 177.
fn from_100(r: &mut Words, mem: &mut [u64], f: Reach, p: ParcelAddr, x: u64, n: u64) -> Work
    requires ready { Ready r.old f (length mem.old) }
    requires x_bound { (x < 2 ^ 16) × (n ≡ arm_of (x / 512)) × (high_arm n ≡ true) }
    ensures { Executes result r.old r.new mem.old mem.new p.0 x }
{
    match n {
        0o100 => memory::load(r, mem, f, p, x, File::A),
        0o110 => memory::store(r, mem, f, p, x, File::A),
        0o120 => memory::load(r, mem, f, p, x, File::S),
        0o130 => memory::store(r, mem, f, p, x, File::S),
        0o140 => {
            vectors(r, x);
            Work::PastOne
        }
        0o146 => {
            vector::merge(r, x);
            Work::PastOne
        }
        0o147 => {
            vector::merge(r, x);
            Work::PastOne
        }
        0o150 => held(vector::others(r, x)),
        0o154 => {
            vectors(r, x);
            Work::PastOne
        }
        0o174 => held(vector::others(r, x)),
        0o176 => read_v(r, mem, f, x),
        0o177 => store_v(r, mem, f, x),
        _ => Work::NotHeld,
    }
}

// 060 to 077.
fn from_060(r: &mut Words, mem: &mut [u64], f: Reach, p: ParcelAddr, x: u64, n: u64) -> Work
    requires ready { Ready r.old f (length mem.old) }
    requires x_bound { (x < 2 ^ 16) × (n ≡ arm_of (x / 512)) × (0o060 ≤ n) }
    ensures { Executes result r.old r.new mem.old mem.new p.0 x }
{
    match n {
        0o060 => scalar::sum(r, x),
        0o061 => scalar::difference(r, x),
        0o071 => scalar::transmit::from_a(r, x),
        0o073 => scalar::transmit::read_control(r, x),
        0o074 => scalar::transmit::from_t(r, x),
        0o075 => scalar::transmit::to_t(r, x),
        0o076 => scalar::transmit::from_v(r, x),
        0o077 => scalar::transmit::to_v(r, x),
        _ => from_100(r, mem, f, p, x, n),
    }
}

// 040 to 057.
fn from_040(r: &mut Words, mem: &mut [u64], f: Reach, p: ParcelAddr, x: u64, n: u64) -> Work
    requires ready { Ready r.old f (length mem.old) }
    requires x_bound { (x < 2 ^ 16) × (n ≡ arm_of (x / 512)) × (0o040 ≤ n) }
    ensures { Executes result r.old r.new mem.old mem.new p.0 x }
{
    match n {
        0o040 => scalar::enter(r, mem, f, p, x, false),
        0o041 => scalar::enter(r, mem, f, p, x, true),
        0o042 => scalar::ones_right(r, x),
        0o043 => scalar::ones_left(r, x),
        0o044 => scalar::logic::and(r, x),
        0o045 => scalar::logic::and_not(r, x),
        0o046 => scalar::logic::xor(r, x),
        0o047 => scalar::logic::eqv(r, x),
        0o050 => scalar::logic::merge(r, x),
        0o051 => scalar::logic::or(r, x),
        0o052 => scalar::shift::left_0(r, x),
        0o053 => scalar::shift::right_0(r, x),
        0o054 => scalar::shift::left(r, x),
        0o055 => scalar::shift::right(r, x),
        0o056 => scalar::shift::left_pair(r, x),
        0o057 => scalar::shift::right_pair(r, x),
        _ => from_060(r, mem, f, p, x, n),
    }
}

// 020 to 037.
fn from_020(r: &mut Words, mem: &mut [u64], f: Reach, p: ParcelAddr, x: u64, n: u64) -> Work
    requires ready { Ready r.old f (length mem.old) }
    requires x_bound { (x < 2 ^ 16) × (n ≡ arm_of (x / 512)) × (0o020 ≤ n) }
    ensures { Executes result r.old r.new mem.old mem.new p.0 x }
{
    match n {
        0o020 => address::enter(r, mem, f, p, x, false),
        0o021 => address::enter(r, mem, f, p, x, true),
        0o022 => address::short(r, x),
        0o023 => address::from_s_or_vl(r, x),
        0o024 => address::from_b(r, x),
        0o025 => address::to_b(r, x),
        0o026 => address::ones(r, x),
        0o027 => address::zeros(r, x),
        0o030 => address::sum(r, x),
        0o031 => address::difference(r, x),
        0o032 => address::product(r, x),
        0o034 => moved(memory::blocks::read(r, mem, f.operands, x, true), r, x),
        0o035 => moved(memory::blocks::store(r, mem, f.operands, x, true), r, x),
        0o036 => moved(memory::blocks::read(r, mem, f.operands, x, false), r, x),
        0o037 => moved(memory::blocks::store(r, mem, f.operands, x, false), r, x),
        _ => from_040(r, mem, f, p, x, n),
    }
}

// 000 to 017.
fn from_000(r: &mut Words, mem: &mut [u64], f: Reach, p: ParcelAddr, x: u64, n: u64) -> Work
    requires ready { Ready r.old f (length mem.old) }
    requires x_bound { (x < 2 ^ 16) × (n ≡ arm_of (x / 512)) }
    ensures { Executes result r.old r.new mem.old mem.new p.0 x }
{
    match n {
        0o000 => control::error_exit(x),
        0o001 => control::privileged(r, x),
        0o002 => control::modes(r, x),
        0o003 => control::set_mask(r, x),
        0o004 => control::normal_exit(x),
        0o005 => control::jump_b(r, x),
        0o006 => control::jump(r, mem, f, p, x),
        0o007 => control::return_jump(r, mem, f, p, x),
        0o010 => control::branch(r, mem, f, p, x, Test::ZeroA),
        0o011 => control::branch(r, mem, f, p, x, Test::NonZeroA),
        0o012 => control::branch(r, mem, f, p, x, Test::PlusA),
        0o013 => control::branch(r, mem, f, p, x, Test::MinusA),
        0o014 => control::branch(r, mem, f, p, x, Test::ZeroS),
        0o015 => control::branch(r, mem, f, p, x, Test::NonZeroS),
        0o016 => control::branch(r, mem, f, p, x, Test::PlusS),
        0o017 => control::branch(r, mem, f, p, x, Test::MinusS),
        _ => from_020(r, mem, f, p, x, n),
    }
}

// The work of a step at p.
pub fn work(r: &mut Words, mem: &mut [u64], f: Reach, p: ParcelAddr) -> Work
    requires ready { Ready r.old f (length mem.old) }
    requires p_bound { p.0 < 2 ^ 24 }
    ensures { Works result r.old r.new mem.old mem.new p.0 }
{
    let Some(x) = access::fetch(mem, f, p) else {
        return access::no_parcel(r);
    };
    from_000(r, mem, f, p, x, arm(x / 512))
}
