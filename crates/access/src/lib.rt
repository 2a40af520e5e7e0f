// The ground of every instruction: places in a processor's words, operands by the digits of a parcel, what is written, fetching, fields.
#![tactic(auto)]

pub mod words;

ghost use Rattle.std.specs.Prelude.{◌≡◌, ℕ, ◌+◌, ◌*◌, ◌/◌, ◌%◌, ◌^◌, ◌<◌, ◌≤◌, List, length, ◌==◌, slice_index};
ghost use Rattle.machine.specs.declared.Work.TheVariants.{PastOne};
ghost use Rattle.machine.specs.Word.{pick};
ghost use Rattle.machine.specs.Parcel.{h_of, i_of, j_of, k_of, jk_of, jkm_of, ijkm_of, onward};
ghost use Rattle.machine.specs.State.{addr, user, ai, ah, aj, ak, si, sj, sk, el, to_a, to_s, to_b, to_t, to_element};
ghost use Rattle.machine.specs.Memory.{data_field, place_of};
ghost use Rattle.machine.specs.Work.{no_parcel};
ghost use Rattle.machine.specs.Layout.{part, registers_of, frame_of};
ghost use Rattle.access.specs.Window.{extent, Reaches, Inside, fetch_in};
ghost use Rattle.access.specs.Executed.{Puts, Ends, Control, to_control};

use machine::{Cause, ParcelAddr, Reach, Window, WordAddr, Words, Work};

// How many words a processor has.
pub const WORDS: usize = 672;

// The place of each register among them, and of the first of each file.
pub const P: usize = 0;

pub const XA: usize = 1;

pub const VL: usize = 2;

pub const VM: usize = 3;

pub const IBA: usize = 4;

pub const ILA: usize = 5;

pub const DBA: usize = 6;

pub const DLA: usize = 7;

pub const MM: usize = 8;

pub const IOR: usize = 9;

pub const IFP: usize = 10;

pub const FPS: usize = 11;

pub const BDM: usize = 12;

pub const PS: usize = 13;

pub const CLN: usize = 14;

pub const PROCESSOR: usize = 15;

pub const A: usize = 16;

pub const S: usize = 24;

pub const B: usize = 32;

pub const T: usize = 96;

pub const V: usize = 160;

// One of the two processors of a pair, whose words start at `at`.
pub fn half(pair: &[u64; 1344], at: usize) -> &Words
    requires { at ≤ 672 }
    ensures { result.now ≡ part at 672 pair.now }
{
    pair[at..at + WORDS].as_array().unwrap()
}

// The digits of a parcel as register numbers.
pub fn h(x: u64) -> usize
    ensures { result ≡ h_of x }
{
    (x / 512 % 8) as usize
}

pub fn i(x: u64) -> usize
    ensures { result ≡ i_of x }
{
    (x / 64 % 8) as usize
}

pub fn j(x: u64) -> usize
    ensures { result ≡ j_of x }
{
    (x / 8 % 8) as usize
}

pub fn k(x: u64) -> usize
    ensures { result ≡ k_of x }
{
    (x % 8) as usize
}

pub fn jk(x: u64) -> usize
    ensures { result ≡ jk_of x }
{
    (x % 64) as usize
}

// 22 bits: j, k, and the second parcel m.
pub fn jkm(x: u64, m: u64) -> u64
    requires { m < 2 ^ 16 }
    ensures { result ≡ jkm_of x m }
{
    x % 64 * 65536 + m
}

// 24 bits: the low two bits of i, then j, k, m.
pub fn ijkm(x: u64, m: u64) -> u64
    requires { m < 2 ^ 16 }
    ensures { result ≡ ijkm_of x m }
{
    x % 256 * 65536 + m
}

// From here on each operand, and each register that is written, has a function with the manual's name. One generic over the file would be
// called `read::<A>(r, j(x))`, and its contract would have to choose between the definitions `aj` and `sj`: no plainer.

// A0 and S0: the true registers.
pub fn a_0(r: &Words) -> u64
    ensures { result ≡ ai (registers_of r.now) 0 }
{
    r[A]
}

pub fn s_0(r: &Words) -> u64
    ensures { result ≡ si (registers_of r.now) 0 }
{
    r[S]
}

// Ai and Si: the true registers.
pub fn a_i(r: &Words, x: u64) -> u64
    ensures { result ≡ ai (registers_of r.now) (i_of x) }
{
    r[A + i(x)]
}

pub fn s_i(r: &Words, x: u64) -> u64
    ensures { result ≡ si (registers_of r.now) (i_of x) }
{
    r[S + i(x)]
}

// Register n of a file of eight; a special value where n is 0.
fn operand(r: &Words, file: usize, n: usize, special: u64) -> u64
    requires { (file + 8 ≤ 672) × (n < 8) }
    ensures { result ≡ pick (n == 0) special (slice_index r.now (file + n)) }
{
    if n == 0 { special } else { r[file + n] }
}

// Ah, Aj and Sj: 0 where the digit is 0.
pub fn a_h(r: &Words, x: u64) -> u64
    ensures { result ≡ ah (registers_of r.now) (h_of x) }
{
    operand(r, A, h(x), 0)
}

pub fn a_j(r: &Words, x: u64) -> u64
    ensures { result ≡ aj (registers_of r.now) (j_of x) }
{
    operand(r, A, j(x), 0)
}

pub fn s_j(r: &Words, x: u64) -> u64
    ensures { result ≡ sj (registers_of r.now) (j_of x) }
{
    operand(r, S, j(x), 0)
}

// Ak: 1 where k is 0.
pub fn a_k(r: &Words, x: u64) -> u64
    ensures { result ≡ ak (registers_of r.now) (k_of x) }
{
    operand(r, A, k(x), 1)
}

// Sk: 2^63 where k is 0.
pub fn s_k(r: &Words, x: u64) -> u64
    ensures { result ≡ sk (registers_of r.now) (k_of x) }
{
    operand(r, S, k(x), 9223372036854775808)
}

// Bjk and Tjk.
pub fn b_jk(r: &Words, x: u64) -> u64
    ensures { result ≡ slice_index (registers_of r.now).b (jk_of x) }
{
    r[B + jk(x)]
}

pub fn t_jk(r: &Words, x: u64) -> u64
    ensures { result ≡ slice_index (registers_of r.now).t (jk_of x) }
{
    r[T + jk(x)]
}

// Element e of V register n.
pub fn element(r: &Words, n: usize, e: usize) -> u64
    requires { (n < 8) × (e < 64) }
    ensures { result ≡ el (registers_of r.now).v n e }
{
    r[V + n * 64 + e]
}

// VL and VM.
pub fn vl(r: &Words) -> usize
    ensures { result ≡ (registers_of r.now).vl }
{
    r[VL] as usize
}

pub fn vm(r: &Words) -> u64
    ensures { result ≡ (registers_of r.now).vm }
{
    r[VM]
}

// User mode: MM is clear.
pub fn is_user(r: &Words) -> bool
    ensures { result ≡ user (frame_of r.now) }
{
    r[MM] == 0
}

// An becomes y.
pub fn set_a(r: &mut Words, n: usize, y: u64)
    requires { n < 8 }
    ensures { Puts r.old r.new (to_a n y) }
{
    r[A + n] = y;
}

// Sn becomes y.
pub fn set_s(r: &mut Words, n: usize, y: u64)
    requires { n < 8 }
    ensures { Puts r.old r.new (to_s n y) }
{
    r[S + n] = y;
}

// Bn becomes y.
pub fn set_b(r: &mut Words, n: usize, y: u64)
    requires { n < 64 }
    ensures { Puts r.old r.new (to_b n y) }
{
    r[B + n] = y;
}

// Tn becomes y.
pub fn set_t(r: &mut Words, n: usize, y: u64)
    requires { n < 64 }
    ensures { Puts r.old r.new (to_t n y) }
{
    r[T + n] = y;
}

// Element e of V register n becomes y.
pub fn set_element(r: &mut Words, n: usize, e: usize, y: u64)
    requires { (n < 8) × (e < 64) }
    ensures { Puts r.old r.new (to_element n e y) }
{
    r[V + n * 64 + e] = y;
}

// The control register at a place becomes y.
pub fn set_control(r: &mut Words, place: usize, y: u64)
    requires { Control place }
    ensures { Puts r.old r.new (to_control place y) }
{
    r[place] = y;
}

// The end of an instruction of one parcel whose result y goes to Ai.
pub fn put_a(r: &mut Words, x: u64, y: u64) -> Work
    ensures { (result ≡ PastOne) × Puts r.old r.new (to_a (i_of x) y) }
{
    set_a(r, i(x), y);
    Work::PastOne
}

// The same of Si.
pub fn put_s(r: &mut Words, x: u64, y: u64) -> Work
    ensures { (result ≡ PastOne) × Puts r.old r.new (to_s (i_of x) y) }
{
    set_s(r, i(x), y);
    Work::PastOne
}

// The parcel address n parcels on.
pub fn on(p: ParcelAddr, n: u64) -> ParcelAddr
    ensures { result ≡ addr (onward p.0 n) }
{
    ParcelAddr(std::num::wrapping_add_u64(p.0, n) % 16777216)
}

// The end of an instruction of so many parcels that referred to memory. Where an operand lay outside, P's place takes a number that tells
// which: P is kept beside the words while steps are taken, and goes to its place after them.
pub fn ended(r: &mut Words, parcels: u64, outside: bool, n: u64) -> Work
    ensures { Ends result r.old r.new parcels outside n }
{
    if outside {
        r[P] = n;
        return if parcels == 1 {
            Work::StrayedOne
        } else {
            Work::StrayedTwo
        };
    }
    if parcels == 1 {
        Work::PastOne
    } else {
        Work::PastTwo
    }
}

// What a parcel outside its field comes to.
pub fn no_parcel(r: &Words) -> Work
    ensures { result ≡ no_parcel (user (frame_of r.now)) }
{
    if r[MM] == 0 {
        Work::ProgramRange
    } else {
        Work::MonitorFetch
    }
}

// How many words of a field lie in a memory.
fn words_in(base: u64, limit: u64, length: u64) -> u64
    requires { (base < 2 ^ 17) × (limit < 2 ^ 17) }
    ensures { result ≡ extent base limit length }
{
    let low = base * 32;
    let high = if limit * 32 <= length {
        limit * 32
    } else {
        length
    };
    if low < high { high - low } else { 0 }
}

// What a processor reaches in a memory.
pub fn reach(r: &Words, mem: &[u64]) -> Reach
    requires bounds { ((frame_of r.now).iba < 2 ^ 17) × ((frame_of r.now).ila < 2 ^ 17) × ((frame_of r.now).dba < 2 ^ 17) × ((frame_of r.now).dla < 2 ^ 17) }
    requires memory { length mem.now ≤ 2 ^ 22 }
    ensures { Reaches (frame_of r.now) result (length mem.now) }
{
    let length = mem.len() as u64;
    Reach {
        code: Window {
            first: r[IBA] as usize * 32,
            words: words_in(r[IBA], r[ILA], length),
        },
        operands: Window {
            first: r[DBA] as usize * 32,
            words: words_in(r[DBA], r[DLA], length),
        },
    }
}

// The parcel at p, if its word lies inside the instruction field.
pub fn fetch(mem: &[u64], f: Reach, p: ParcelAddr) -> Option<u64>
    requires { Inside f.code.first f.code.words (length mem.now) }
    ensures { result ≡ fetch_in f mem.now p.0 }
{
    let w = WordAddr::from(p);
    if w.0 < f.code.words {
        let first = f.code.first;
        let code = &mem[first..];
        Some((code[w.0 as usize] << (16 * (p.0 % 4))) >> 48)
    } else {
        None
    }
}

// The word address of a number: modulo 2^22.
pub fn word_at(n: u64) -> WordAddr
    ensures { result.0 ≡ n % 2 ^ 22 }
{
    WordAddr(n % 4194304)
}

// Where a word of the data field lies in a memory of so many words, or why it lies outside.
pub fn place_of(r: &Words, words: u64, n: u64) -> Result<usize, Cause>
    requires bounds { ((frame_of r.now).dba < 2 ^ 17) × ((frame_of r.now).dla < 2 ^ 17) }
    ensures { result ≡ place_of (data_field (frame_of r.now)) words n }
{
    let base = r[DBA] * 32;
    let limit = r[DLA] * 32;
    let w = word_at(n);
    let sum = (w.0 + base) % 4194304;
    let over = limit <= sum;
    let below = sum < base;
    if below {
        return Err(Cause::BelowBase);
    }
    if over {
        return Err(Cause::OverLimit);
    }
    if words <= sum {
        return Err(Cause::BeyondMemory);
    }
    Ok(sum as usize)
}
