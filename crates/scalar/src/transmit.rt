// Transmits between S registers and the others: 071 to 077.
ghost use Rattle.std.specs.Prelude.{◌≡◌, ◌+◌, ◌*◌, ◌/◌, ◌^◌, ◌<◌, length, eqb};
ghost use Rattle.machine.specs.Word.{pick};
ghost use Rattle.machine.specs.Work.{status_of};
ghost use Rattle.machine.specs.Layout.{registers_of, frame_of};
ghost use Rattle.access.specs.Executed.{Alone, FrameOk, ControlOk};

use machine::{Words, Work};

// 071i0k, 071i1k: Si becomes Ak, filled up with zeros, or with its sign.
pub fn from_a(r: &mut Words, x: u64) -> Work
    requires { x / 512 ≡ 0o071 }
    ensures { Alone result r.old r.new x }
{
    match access::j(x) {
        0 => access::put_s(r, x, access::a_k(r, x)),
        1 => access::put_s(r, x, word::sign_extended(access::a_k(r, x))),
        _ => Work::NotHeld,
    }
}

// The processor's number and its cluster, as the status word has them: in monitor mode alone.
fn own(mm: u64, processor: u64, cln: u64) -> u64
    requires { (processor < 2) × (cln < 4) }
    ensures value { result ≡ pick (eqb mm 0) 0 (processor * 2 ^ 40 + cln * 2 ^ 32) }
    ensures upper_bound { result < 2 ^ 41 }
{
    let shown = processor * (1 << 40) + cln * (1 << 32);
    if mm == 0 { 0 } else { shown }
}

// The status word from its fields; the highest bit is set where the cluster is not 0.
fn status_of(ps: u64, fps: u64, ifp: u64, ior: u64, bdm: u64, cln: u64, own: u64) -> u64
    requires { (ps < 2) × (fps < 2) × (ifp < 2) × (ior < 2) × (bdm < 2) × (cln < 4) × (own < 2 ^ 41) }
    ensures { result ≡ pick (eqb cln 0) 0 (2 ^ 63)
        + ps * 2 ^ 57 + fps * 2 ^ 51 + ifp * 2 ^ 50 + ior * 2 ^ 49 + bdm * 2 ^ 48 + own }
{
    let fields = ps * (1 << 57)
        + fps * (1 << 51)
        + ifp * (1 << 50)
        + ior * (1 << 49)
        + bdm * (1 << 48)
        + own;
    if cln == 0 { fields } else { fields + (1 << 63) }
}

// The status word of a processor.
#[tactic(auto, unfolding(machine::specs::Layout::frame_of, machine::specs::Layout::registers_of, machine::specs::Work::status_of))]
fn status(r: &Words) -> u64
    requires frame_ok { FrameOk (frame_of r.now) × ControlOk (registers_of r.now) × ((frame_of r.now).processor < 2) }
    ensures { result ≡ status_of (frame_of r.now) (registers_of r.now) }
{
    let cln = r[access::CLN];
    let own = own(r[access::MM], r[access::PROCESSOR], cln);
    status_of(
        r[access::PS],
        r[access::FPS],
        r[access::IFP],
        r[access::IOR],
        r[access::BDM],
        cln,
        own,
    )
}

// 073i00, 073i01: Si becomes VM, or the status word.
pub fn read_control(r: &mut Words, x: u64) -> Work
    requires coded { x / 512 ≡ 0o073 }
    requires frame_ok { FrameOk (frame_of r.old) × ControlOk (registers_of r.old) × ((frame_of r.old).processor < 2) }
    ensures { Alone result r.old r.new x }
{
    match access::jk(x) {
        0 => access::put_s(r, x, access::vm(r)),
        1 => access::put_s(r, x, status(r)),
        _ => Work::NotHeld,
    }
}

// 074ijk: Si becomes Tjk.
pub fn from_t(r: &mut Words, x: u64) -> Work
    requires { x / 512 ≡ 0o074 }
    ensures { Alone result r.old r.new x }
{
    access::put_s(r, x, access::t_jk(r, x))
}

// 075ijk: Tjk becomes Si.
pub fn to_t(r: &mut Words, x: u64) -> Work
    requires { x / 512 ≡ 0o075 }
    ensures { Alone result r.old r.new x }
{
    access::set_t(r, access::jk(x), access::s_i(r, x));
    Work::PastOne
}

// 076ijk: Si becomes element Ak of Vj, Ak modulo 64.
pub fn from_v(r: &mut Words, x: u64) -> Work
    requires { x / 512 ≡ 0o076 }
    ensures { Alone result r.old r.new x }
{
    let e = (access::a_k(r, x) % 64) as usize;
    access::put_s(r, x, access::element(r, access::j(x), e))
}

// 077ijk: element Ak of Vi, Ak modulo 64, becomes Sj.
pub fn to_v(r: &mut Words, x: u64) -> Work
    requires { x / 512 ≡ 0o077 }
    ensures { Alone result r.old r.new x }
{
    let e = (access::a_k(r, x) % 64) as usize;
    access::set_element(r, access::i(x), e, access::s_j(r, x));
    Work::PastOne
}
