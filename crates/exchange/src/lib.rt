// Packages: what an exchange saves and loads. Package x is the sixteen words of memory from 16x on.
#![tactic(auto)]

ghost use Rattle.std.specs.Prelude.{◌≡◌, ◌*◌, ◌^◌, ◌<◌, ◌≤◌, length, get_or, Option};
ghost use Rattle.machine.specs.declared.Stray.{Stray};
ghost use Rattle.machine.specs.declared.Answer.TheVariants.{Exchanged};
ghost use Rattle.machine.specs.Word.{bits};
ghost use Rattle.machine.specs.State.{sharing};
ghost use Rattle.machine.specs.Exchange.{package_of, loaded};
ghost use Rattle.machine.specs.Step.{out, exchange};
ghost use Rattle.machine.specs.Layout.{registers_of, frame_of, state_of};
ghost use Rattle.access.specs.Executed.{FrameOk, ControlOk};
ghost use Rattle.exchange.specs.Words.{loaded_by, low_words, Narrow};

use access::{A, BDM, CLN, DBA, DLA, FPS, IBA, IFP, ILA, IOR, MM, PROCESSOR, PS, S, VL, VM, XA};
use machine::{ParcelAddr, Words};

// The sixteen words that a processor is saved as.
fn saved_words(r: &Words, p: ParcelAddr, flags: u64) -> [u64; 16]
    requires whole { (p.0 < 2 ^ 24) × (flags < 512) }
    requires narrow { Narrow r.now }
    ensures { result ≡ package_of (frame_of r.now) (registers_of r.now) p.0 flags }
{
    [
        (p.0 << 24) + r[A] % 16777216,
        (r[IBA] << 29) + r[A + 1] % 16777216,
        (r[ILA] << 29)
            + (r[BDM] << 28)
            + (r[FPS] << 27)
            + (r[IFP] << 26)
            + (r[IOR] << 25)
            + (r[MM] << 24)
            + r[A + 2] % 16777216,
        (r[XA] << 40) + (r[VL] << 33) + (flags << 24) + r[A + 3] % 16777216,
        (r[DBA] << 29) + (r[PS] << 28) + (r[CLN] << 24) + r[A + 4] % 16777216,
        (r[DLA] << 29) + r[A + 5] % 16777216,
        r[A + 6] % 16777216,
        r[A + 7] % 16777216,
        r[S],
        r[S + 1],
        r[S + 2],
        r[S + 3],
        r[S + 4],
        r[S + 5],
        r[S + 6],
        r[S + 7],
    ]
}

// Where the package begins that the XA in these words chooses.
fn chosen(w: [u64; 16]) -> usize
    ensures { result ≡ bits (get_or w 3 0) 40 8 * 16 }
{
    ((w[3] >> 40) % 256) as usize * 16
}

// The first 32 words of a processor that a package's words load, by their places.
fn low_words(w: [u64; 16], vm: u64, number: u64) -> [u64; 32]
    ensures { result ≡ low_words (λ n. get_or w n 0) vm number }
{
    [
        (w[0] >> 24) % 16777216,
        (w[3] >> 40) % 256,
        word::vector_length((w[3] >> 33) % 128),
        vm,
        (w[1] >> 29) % 131072,
        (w[2] >> 29) % 131072,
        (w[4] >> 29) % 131072,
        (w[5] >> 29) % 131072,
        (w[2] >> 24) % 2,
        (w[2] >> 25) % 2,
        (w[2] >> 26) % 2,
        (w[2] >> 27) % 2,
        (w[2] >> 28) % 2,
        (w[4] >> 28) % 2,
        (w[4] >> 24) % 4,
        number,
        w[0] % 16777216,
        w[1] % 16777216,
        w[2] % 16777216,
        w[3] % 16777216,
        w[4] % 16777216,
        w[5] % 16777216,
        w[6] % 16777216,
        w[7] % 16777216,
        w[8],
        w[9],
        w[10],
        w[11],
        w[12],
        w[13],
        w[14],
        w[15],
    ]
}

// Loads a package's words; B, T, V, VM and the processor's number stay.
fn load(r: &mut Words, w: [u64; 16])
    ensures { state_of r.new ≡ loaded_by (λ n. get_or w n 0) (registers_of r.old) (frame_of r.old) }
{
    let new = low_words(w, r[VM], r[PROCESSOR]);
    r[..32].copy_from_slice(&new);
}

// For a start: loads a package.
pub fn load_package(r: &mut Words, mem: &[u64], package: u64)
    requires { («package» < 256) × (4096 ≤ length mem.now) }
    ensures { state_of r.new ≡ loaded mem.now «package» (registers_of r.old) (frame_of r.old) }
{
    load(r, access::words::sixteen(mem, package as usize * 16, false));
}

// The exchange: the old XA chooses the package, which is loaded as it stood, and the old state is saved there, P being p.
pub fn swap(r: &mut Words, mem: &mut [u64], p: ParcelAddr, flags: u64)
    requires whole { (4096 ≤ length mem.old) × (p.0 < 2 ^ 24) × (flags < 512) }
    requires frame_ok { FrameOk (frame_of r.old) × ControlOk (registers_of r.old) }
    ensures { (s : Option Stray) → out (Exchanged flags) s (state_of r.new) (sharing mem.new)
        ≡ exchange (frame_of r.old) (registers_of r.old) p.0 flags s (sharing mem.old) }
{
    let old = saved_words(r, p, flags);
    let new = access::words::sixteen(mem, chosen(old), false);
    access::words::put_sixteen(mem, chosen(old), old);
    load(r, new);
}
