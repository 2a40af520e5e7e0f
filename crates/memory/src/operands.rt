// The only functions that touch operand memory: a word is read or stored here, and rows of words.
ghost use Rattle.std.specs.Prelude.{◌≡◌, ℕ, ◌+◌, ◌%◌, ◌<◌, ◌≤◌, length, slice_index, unwrap_or, is_none};
ghost use Rattle.machine.specs.State.{ai, fill};
ghost use Rattle.machine.specs.Layout.{registers_of};
ghost use Rattle.access.specs.Window.{place_in, is_beyond, load_in, store_in};
ghost use Rattle.access.specs.Executed.{cut_to};
ghost use Rattle.memory.specs.Moves.{Held, ReadRow, StoredRow, straight_of};

use machine::{Window, Words};

// The word at an address, if it lies inside its window.
pub fn get(mem: &[u64], window: Window, n: u64) -> Option<u64>
    requires { Held window.first window.words (length mem.now) }
    ensures { (unwrap_or result 0 ≡ load_in mem.now (place_in window.first window.words n)) × (is_none result ≡ is_beyond (place_in window.first window.words n)) }
{
    let w = access::word_at(n);
    if w.0 < window.words {
        Some(mem[window.first + w.0 as usize])
    } else {
        None
    }
}

// The word at an address becomes x, unless it lies outside; whether it does.
pub fn put(mem: &mut [u64], window: Window, n: u64, x: u64) -> bool
    requires { Held window.first window.words (length mem.old) }
    ensures { (mem.new ≡ store_in mem.old (place_in window.first window.words n) x) × (result ≡ is_beyond (place_in window.first window.words n)) }
{
    let w = access::word_at(n);
    if w.0 < window.words {
        mem[window.first + w.0 as usize] = x;
        false
    } else {
        true
    }
}

// n words of one list, from `at` on, to another, from `first` on.
fn copy(to: &mut [u64], first: usize, from: &[u64], at: usize, n: usize, narrow: bool)
    requires sixteens { n % 16 ≡ 0 }
    requires by_index { (e : ℕ) → e < n → (first + e < length to.old) × (at + e < length from.now) }
    ensures { to.new ≡ fill first (λ e. cut_to narrow (slice_index from.now (at + e))) n to.old }
{
    for q in 0..n / 16 {
        let e = q * 16;
        access::words::put_sixteen(to, first + e, access::words::sixteen(from, at + e, narrow));
    }
}

// n registers of the file at a place, from `reg` on, which returns to 0 past 63; and how far apart their words are. That a window lies in
// memory is said of both, in `Held`, and so in each contract.
#[derive(Clone, Copy)]
pub struct Row {
    pub file: usize,
    pub reg: usize,
    pub n: usize,
    pub by: u64,
}

// The place of a row's register e.
fn place(row: Row, e: usize) -> usize
    requires { (row.file + 64 ≤ 672) × (row.reg < 64) × (e < 128) }
    ensures { (result ≡ row.file + (row.reg + e) % 64) × (result < 672) }
{
    row.file + (row.reg + e) % 64
}

// How many words of a row, from the first on, can be copied.
fn straight(words: u64, row: Row, from: u64) -> usize
    requires { (row.reg < 64) × (row.n < 128) }
    ensures { result ≡ straight_of words row.reg row.n from row.by }
{
    let w = access::word_at(from);
    if row.by == 1 && row.reg + row.n <= 64 && w.0 + row.n as u64 <= words {
        row.n - row.n % 16
    } else {
        0
    }
}

// A row of registers from the words at A0, A0 + by, ..; whether one lies outside.
pub fn read(r: &mut Words, mem: &[u64], window: Window, row: Row, narrow: bool) -> bool
    requires row { (row.file + 64 ≤ 672) × (row.reg < 64) × (row.n < 128) }
    requires held { Held window.first window.words (length mem.now) }
    ensures { ReadRow r.old r.new mem.now window.first window.words (ai (registers_of r.old) 0)
        row.by row.file row.reg row.n narrow result }
{
    let from = access::a_0(r);
    let whole = straight(window.words, row, from);
    let w = access::word_at(from);
    copy(
        r,
        row.file + row.reg,
        mem,
        window.first + w.0 as usize,
        whole,
        narrow,
    );
    let mut outside = false;
    let mut at = std::num::wrapping_add_u64(from, whole as u64);
    for e in whole..row.n {
        let word = get(mem, window, at);
        r[place(row, e)] = access::words::cut(word.unwrap_or(0), narrow);
        outside = outside | word.is_none();
        at = std::num::wrapping_add_u64(at, row.by);
    }
    outside
}

// The same to memory. It is no parameter of `read`, since the other of the two lists is lent to be written.
pub fn store(r: &Words, mem: &mut [u64], window: Window, row: Row) -> bool
    requires row { (row.file + 64 ≤ 672) × (row.reg < 64) × (row.n < 128) }
    requires held { Held window.first window.words (length mem.old) }
    ensures { StoredRow r.now mem.old mem.new window.first window.words (ai (registers_of r.now) 0)
        row.by row.file row.reg row.n result }
{
    let from = access::a_0(r);
    let whole = straight(window.words, row, from);
    let w = access::word_at(from);
    copy(
        mem,
        window.first + w.0 as usize,
        r,
        row.file + row.reg,
        whole,
        false,
    );
    let mut outside = false;
    let mut at = std::num::wrapping_add_u64(from, whole as u64);
    for e in whole..row.n {
        let o = put(mem, window, at, r[place(row, e)]);
        outside = outside | o;
        at = std::num::wrapping_add_u64(at, row.by);
    }
    outside
}
