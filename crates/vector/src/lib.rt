// Vector instructions 140 to 157, 174 and 175. Each loop goes over as many elements as VL says, and an element that it has not
// reached reads as it stood before the instruction: so Vi may be an operand too, and no loop can borrow one register beside another.
#![tactic(auto)]

ghost use Rattle.std.specs.Prelude.{◌≡◌, ◌⊎◌, true, ◌+◌, ◌-◌, ◌*◌, ◌/◌, ◌^◌, ◌<◌, ◌≤◌, length};
ghost use Rattle.machine.specs.declared.Work.TheVariants.{PastOne, NotHeld};
ghost use Rattle.machine.specs.Word.{pick};
ghost use Rattle.machine.specs.Act.{masked};
ghost use Rattle.machine.specs.Layout.{registers_of};
ghost use Rattle.access.specs.Executed.{Alone};
ghost use Rattle.vector.specs.Element.{MakesTwo, MakesOne, Asks, plain, other, Vector, two_masks, Inside, left_at, AreOperands, merged_two};

use access::{V, VM};
use machine::Words;

// The left operand of an instruction: a word, or the place of the first element of Vj.
#[derive(Clone, Copy)]
enum Left {
    Word(u64),
    Elements(usize),
}

// The operands of an instruction of two, and the places of the first elements of Vk and Vi.
#[derive(Clone, Copy)]
struct Operands {
    left: Left,
    right: usize,
    to: usize,
}

impl Left {
    // The word for element e.
    fn at(self, r: &Words, e: usize) -> u64
        requires { Inside self e }
        ensures { result ≡ left_at r.now self e }
    {
        match self {
            Left::Word(s) => s,
            Left::Elements(first) => r[first + e],
        }
    }
}

// The bit of VM for element e, where it is marked; else 0.
fn mark_of(marked: bool, e: usize) -> u64
    requires { e < 64 }
    ensures { result ≡ pick marked (2 ^ (63 - e)) 0 }
{
    if marked { (1 << 63) >> e } else { 0 }
}

// x where VM has a one for element e, else y. It is made of bits, so that a loop over elements has no branch.
fn chosen(vm: u64, e: usize, x: u64, y: u64) -> u64
    requires { e < 64 }
    ensures { result ≡ pick (masked vm e) x y }
{
    let mask = if (vm >> (63 - e)) % 2 == 1 {
        u64::MAX
    } else {
        0
    };
    word::merged(x, y, mask)
}

// The place of the first element of a V register.
fn first(n: usize) -> usize
    requires { n < 8 }
    ensures { result ≡ 160 + n * 64 }
{
    V + n * 64
}

// What x names: Sj or Vj, and Vk and Vi.
fn named_by(r: &Words, scalar: bool, x: u64) -> Operands
    ensures { AreOperands result r.now scalar x }
{
    let left = if scalar {
        Left::Word(access::s_j(r, x))
    } else {
        Left::Elements(first(access::j(x)))
    };
    Operands {
        left,
        right: first(access::k(x)),
        to: first(access::i(x)),
    }
}

// 140 to 145 and 154 to 157: n elements of Vi from Sj or Vj, and Vk.
#[inline(always)]
fn two_words<F: Fn(u64, u64) -> u64>(r: &mut Words, scalar: bool, x: u64, n: usize, make: F)
    requires whole { ((registers_of r.old).vl ≡ n) × (n ≤ 64) }
    requires callable { F.IsAlwaysCallable make }
    requires coded { MakesTwo (F.post make) scalar (x / 512) }
    ensures { Alone PastOne r.old r.new x }
{
    let operands = named_by(r, scalar, x);
    for e in 0..n {
        r[operands.to + e] = make(operands.left.at(r, e), r[operands.right + e]);
    }
}

// The same by the code of x. It is inlined, and whether Sj is the left operand is a constant for each code: so no loop tests that, and where n
// is a constant the compiler unrolls.
#[inline(always)]
fn by_code(r: &mut Words, x: u64, n: usize)
    requires whole { ((registers_of r.old).vl ≡ n) × (n ≤ 64) }
    requires coded { plain (x / 512) ≡ true }
    ensures { Alone PastOne r.old r.new x }
{
    match x / 512 {
        0o140 => two_words(r, true, x, n, |y, z| y & z),
        0o141 => two_words(r, false, x, n, |y, z| y & z),
        0o142 => two_words(r, true, x, n, |y, z| y | z),
        0o143 => two_words(r, false, x, n, |y, z| y | z),
        0o144 => two_words(r, true, x, n, |y, z| y ^ z),
        0o145 => two_words(r, false, x, n, |y, z| y ^ z),
        0o154 => two_words(r, true, x, n, word::sum),
        0o155 => two_words(r, false, x, n, word::sum),
        0o156 => two_words(r, true, x, n, word::difference),
        _ => two_words(r, false, x, n, word::difference),
    }
}

// 140 to 145 and 154 to 157, where VL is 64.
pub fn full(r: &mut Words, x: u64)
    requires { ((registers_of r.old).vl ≡ 64) × (plain (x / 512) ≡ true) }
    ensures { Alone PastOne r.old r.new x }
{
    by_code(r, x, 64)
}

// The same, of as many elements as VL says.
pub fn part(r: &mut Words, x: u64)
    requires { Vector r.old × (plain (x / 512) ≡ true) }
    ensures { Alone PastOne r.old r.new x }
{
    let n = access::vl(r);
    by_code(r, x, n)
}

// Two elements of a merge from e on, by the first two of the bits; the masks are those of 00, 01, 10 and 11. Both are made before the
// first is stored, so that the compiler can do them as one.
fn two(r: &mut Words, masks: &[u64; 8], bits: u64, operands: Operands, e: usize)
    requires whole { masks.now ≡ two_masks }
    requires inside { Inside operands.left e × Inside operands.left (e + 1) × (operands.right + e + 2 ≤ 672) × (operands.to + e + 2 ≤ 672) }
    ensures { r.new ≡ merged_two r.old bits operands e }
{
    let at = (bits >> 62) as usize * 2;
    let y = word::merged(operands.left.at(r, e), r[operands.right + e], masks[at]);
    let z = word::merged(
        operands.left.at(r, e + 1),
        r[operands.right + e + 1],
        masks[at + 1],
    );
    r[operands.to + e] = y;
    r[operands.to + e + 1] = z;
}

// 146 and 147 with the masks; what is left after the fours goes one by one.
#[inline(always)]
fn merge_by(r: &mut Words, masks: &[u64; 8], scalar: bool, x: u64)
    requires { Vector r.old × (masks.now ≡ two_masks) × (x / 512 ≡ pick scalar 0o146 0o147) }
    ensures { Alone PastOne r.old r.new x }
{
    let operands = named_by(r, scalar, x);
    let vm = access::vm(r);
    let n = access::vl(r);
    let mut bits = vm;
    for q in 0..n / 4 {
        two(r, masks, bits, operands, q * 4);
        two(r, masks, bits << 2, operands, q * 4 + 2);
        bits = bits << 4;
    }
    for e in n / 4 * 4..n {
        r[operands.to + e] = chosen(vm, e, operands.left.at(r, e), r[operands.right + e]);
    }
}

// 146: Vi from Sj where VM has a one, else from Vk. 147: the same from Vj.
pub fn merge(r: &mut Words, x: u64)
    requires { Vector r.old × ((x / 512 ≡ 0o146) ⊎ (x / 512 ≡ 0o147)) }
    ensures { Alone PastOne r.old r.new x }
{
    let ones = u64::MAX;
    let masks = [0, 0, 0, ones, ones, 0, ones, ones];
    // a constant for each code, so that no loop asks which it is
    if x / 512 == 0o146 {
        merge_by(r, &masks, true, x)
    } else {
        merge_by(r, &masks, false, x)
    }
}

// 150, 151, 174: Vi from Vj, by what is made of a word and the count in Ak.
fn one_word<F: Fn(u64, u64) -> u64>(r: &mut Words, x: u64, make: F) -> bool
    requires vector { Vector r.old }
    requires callable { F.IsAlwaysCallable make }
    requires coded { MakesOne (F.post make) x }
    ensures { Alone (pick result PastOne NotHeld) r.old r.new x }
{
    let to = first(access::i(x));
    let from = first(access::j(x));
    let count = access::a_k(r, x);
    let n = access::vl(r);
    for e in 0..n {
        r[to + e] = make(r[from + e], count);
    }
    true
}

// 152: each element of Vj with the one after it, the last with zero, shifted left.
fn left_pairs(r: &mut Words, x: u64) -> bool
    requires { Vector r.old × (x / 512 ≡ 0o152) }
    ensures { Alone (pick result PastOne NotHeld) r.old r.new x }
{
    let to = first(access::i(x));
    let from = first(access::j(x));
    let count = access::a_k(r, x);
    let last = access::vl(r) - 1;
    for e in 0..last {
        r[to + e] = word::left_pair(r[from + e], r[from + e + 1], count);
    }
    r[to + last] = word::left_pair(r[from + last], 0, count);
    true
}

// 153: each element of Vj with the one before it, the first with zero, shifted right.
fn right_pairs(r: &mut Words, x: u64) -> bool
    requires { Vector r.old × (x / 512 ≡ 0o153) }
    ensures { Alone (pick result PastOne NotHeld) r.old r.new x }
{
    let to = first(access::i(x));
    let from = first(access::j(x));
    let count = access::a_k(r, x);
    let n = access::vl(r);
    let mut high: u64 = 0;
    for e in 0..n {
        let low = r[from + e];
        let y = word::right_pair(high, low, count);
        r[to + e] = y;
        high = low;
    }
    true
}

// 174: ones in each element of Vj, or their parity.
fn count(r: &mut Words, x: u64) -> bool
    requires { Vector r.old × (x / 512 ≡ 0o174) }
    ensures { Alone (pick result PastOne NotHeld) r.old r.new x }
{
    match access::k(x) {
        1 => one_word(r, x, |y, _| word::count_ones(y)),
        2 => one_word(r, x, |y, _| word::odd_ones(y)),
        _ => false,
    }
}

// 175: VM has a one for each element of Vj that meets the test.
fn mark_where<F: Fn(u64) -> bool>(r: &mut Words, x: u64, meets: F) -> bool
    requires vector { Vector r.old }
    requires callable { F.IsAlwaysCallable meets }
    requires coded { Asks (F.post meets) x }
    ensures { Alone (pick result PastOne NotHeld) r.old r.new x }
{
    let from = first(access::j(x));
    let n = access::vl(r);
    let mut vm: u64 = 0;
    for e in 0..n {
        vm += mark_of(meets(r[from + e]), e);
    }
    access::set_control(r, VM, vm);
    true
}

// 175: the elements of Vj that are zero, not zero, plus or minus, which is by the sign bit.
fn mark(r: &mut Words, x: u64) -> bool
    requires { Vector r.old × (x / 512 ≡ 0o175) }
    ensures { Alone (pick result PastOne NotHeld) r.old r.new x }
{
    if access::i(x) != 0 {
        return false;
    }
    match access::k(x) {
        0 => mark_where(r, x, |y| y == 0),
        1 => mark_where(r, x, |y| y != 0),
        2 => mark_where(r, x, |y| y < 1 << 63),
        3 => mark_where(r, x, |y| 1 << 63 <= y),
        _ => false,
    }
}

// 150 to 153, 174 and 175; whether the machine holds the code.
pub fn others(r: &mut Words, x: u64) -> bool
    requires { Vector r.old × (other (x / 512) ≡ true) }
    ensures { Alone (pick result PastOne NotHeld) r.old r.new x }
{
    match x / 512 {
        0o150 => one_word(r, x, word::shifted_left),
        0o151 => one_word(r, x, word::shifted_right),
        0o152 => left_pairs(r, x),
        0o153 => right_pairs(r, x),
        0o174 => count(r, x),
        _ => mark(r, x),
    }
}
