// Which operand of a step lay outside, and why: looked for only after a step that had one. Its words still tell where its operands were.
ghost use Rattle.std.specs.Prelude.{◌≡◌, ◌+◌, ◌*◌, ◌/◌, ◌^◌, ◌<◌, ◌≤◌, length};
ghost use Rattle.machine.specs.Memory.{data_field, stray_at, first_outside};
ghost use Rattle.machine.specs.Layout.{frame_of, registers_of};
ghost use Rattle.access.specs.Executed.{block_count, block_by, told};

use machine::{Cause, Stray, Words, Work};

// An operand by its place.
fn stray_at(place: Result<usize, Cause>, element: u64) -> Option<Stray>
    ensures { result ≡ stray_at element place }
{
    let cause = place.err()?;
    Some(Stray { cause, element })
}

// The first of n words at from, from + by, .. that lies outside.
fn first_outside(r: &Words, words: u64, from: u64, by: u64, n: u64) -> Option<Stray>
    requires bounds { ((frame_of r.now).dba < 2 ^ 17) × ((frame_of r.now).dla < 2 ^ 17) }
    ensures { result ≡ first_outside (data_field (frame_of r.now)) (λ e. from + e * by) words n }
{
    let mut stray = None;
    let mut at = from;
    for element in 0..n {
        let here = stray_at(access::place_of(r, words, at), element);
        stray = stray.or(here);
        at = std::num::wrapping_add_u64(at, by);
    }
    stray
}

// How many words a block move x has, and how far apart they are.
fn count(r: &Words, x: u64) -> u64
    ensures { result ≡ block_count (registers_of r.now) x }
{
    if x / 512 < 64 {
        access::a_i(r, x) % 128
    } else {
        access::vl(r) as u64
    }
}

fn apart(r: &Words, x: u64) -> u64
    ensures { result ≡ block_by (registers_of r.now) x }
{
    if x / 512 < 64 { 1 } else { access::a_k(r, x) }
}

// The stray of a step whose work ended so.
pub fn of(r: &Words, words: u64, w: Work) -> Option<Stray>
    requires bounds { ((frame_of r.now).dba < 2 ^ 17) × ((frame_of r.now).dla < 2 ^ 17) }
    ensures { result ≡ told w r.now words }
{
    let n = r[access::P];
    match w {
        Work::StrayedOne => first_outside(r, words, access::a_0(r), apart(r, n), count(r, n)),
        Work::StrayedTwo => first_outside(r, words, n, 0, 1),
        Work::PastOne => None,
        Work::PastTwo => None,
        Work::To(_) => None,
        Work::NormalExit => None,
        Work::ErrorExit => None,
        Work::ProgramRange => None,
        Work::NotHeld => None,
        Work::MonitorFetch => None,
    }
}
