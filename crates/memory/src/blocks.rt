// Blocks of B and T registers and vectors, to and from memory: 034 to 037, 176 and 177. Each says whether a word lay outside the window of
// the data field; what that comes to is said by `access::ended`.
ghost use Rattle.std.specs.Prelude.{◌≡◌, ◌/◌, ◌%◌, ◌≤◌, length};
ghost use Rattle.machine.specs.Word.{pick};
ghost use Rattle.machine.specs.Parcel.{i_of, j_of};
ghost use Rattle.machine.specs.State.{ai};
ghost use Rattle.machine.specs.Layout.{registers_of, frame_of};
ghost use Rattle.memory.specs.Moves.{DataWindow, Moved};

use crate::operands;
use crate::operands::Row;
use machine::{Window, Words};

// How many registers a block has: the low seven bits of Ai.
fn block(r: &Words, x: u64) -> usize
    ensures { result ≡ ai (registers_of r.now) (i_of x) % 128 }
{
    (access::a_i(r, x) % 128) as usize
}

// The place of the B registers, or else of the T registers.
fn place(b: bool) -> usize
    ensures { result ≡ pick b 32 96 }
{
    if b { access::B } else { access::T }
}

// 034, 036: B or else T registers from jk on, from memory.
pub fn read(r: &mut Words, mem: &[u64], window: Window, x: u64, b: bool) -> bool
    requires coded { x / 512 ≡ pick b 0o034 0o036 }
    requires window { DataWindow (frame_of r.old) window.first window.words (length mem.now) }
    ensures { Moved result r.old r.new mem.now mem.now x }
{
    let row = Row {
        file: place(b),
        reg: access::jk(x),
        n: block(r, x),
        by: 1,
    };
    operands::read(r, mem, window, row, b)
}

// 035, 037: the same to memory, of words that are lent to be read, and of memory to be written.
pub fn store(r: &Words, mem: &mut [u64], window: Window, x: u64, b: bool) -> bool
    requires coded { x / 512 ≡ pick b 0o035 0o037 }
    requires window { DataWindow (frame_of r.now) window.first window.words (length mem.old) }
    ensures { Moved result r.now r.now mem.old mem.new x }
{
    let row = Row {
        file: place(b),
        reg: access::jk(x),
        n: block(r, x),
        by: 1,
    };
    operands::store(r, mem, window, row)
}

// 176i0k: Vi from memory.
pub fn read_v(r: &mut Words, mem: &[u64], window: Window, x: u64) -> bool
    requires coded { (x / 512 ≡ 0o176) × (j_of x ≡ 0) × ((registers_of r.old).vl ≤ 64) }
    requires window { DataWindow (frame_of r.old) window.first window.words (length mem.now) }
    ensures { Moved result r.old r.new mem.now mem.now x }
{
    let n = access::vl(r);
    let by = access::a_k(r, x);
    let row = Row {
        file: access::V + access::i(x) * 64,
        reg: 0,
        n,
        by,
    };
    operands::read(r, mem, window, row, false)
}

// 1770jk: Vj to memory.
pub fn store_v(r: &Words, mem: &mut [u64], window: Window, x: u64) -> bool
    requires coded { (x / 512 ≡ 0o177) × (i_of x ≡ 0) × ((registers_of r.now).vl ≤ 64) }
    requires window { DataWindow (frame_of r.now) window.first window.words (length mem.old) }
    ensures { Moved result r.now r.now mem.old mem.new x }
{
    let n = access::vl(r);
    let by = access::a_k(r, x);
    let row = Row {
        file: access::V + access::j(x) * 64,
        reg: 0,
        n,
        by,
    };
    operands::store(r, mem, window, row)
}
