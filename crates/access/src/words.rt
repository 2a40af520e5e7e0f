// Sixteen words at a time, as packages and long moves of registers are read and stored: all are read before any is written.
ghost use Rattle.std.specs.Prelude.{◌≡◌, ℕ, ◌+◌, ◌<◌, ◌≤◌, length, slice_index};
ghost use Rattle.machine.specs.State.{fill};
ghost use Rattle.access.specs.Executed.{cut_to};

// A word as a register takes it: one of A or B is narrow, of 24 bits.
pub fn cut(x: u64, narrow: bool) -> u64
    ensures { result ≡ cut_to narrow x }
{
    if narrow { x % 16777216 } else { x }
}

// The sixteen words of a list from `at` on.
pub fn sixteen(from: &[u64], at: usize, narrow: bool) -> [u64; 16]
    requires { at + 16 ≤ length from.now }
    ensures { (n : ℕ) → n < 16 → slice_index result n ≡ cut_to narrow (slice_index from.now (at + n)) }
{
    let mut w = [0u64; 16];
    for n in 0..16 {
        w[n] = cut(from[at + n], narrow);
    }
    w
}

// Sixteen words become those of a list from `first` on.
pub fn put_sixteen(to: &mut [u64], first: usize, w: [u64; 16])
    requires { first + 16 ≤ length to.old }
    ensures { to.new ≡ fill first (λ n. slice_index w n) 16 to.old }
{
    to[first..first + 16].copy_from_slice(&w);
}
