// Shifts of S registers: 052 to 057. 053 and 055 hold 64 less their count in jk. A function to each code, as in `logic`.
ghost use Rattle.std.specs.Prelude.{◌≡◌, ◌/◌, length};
ghost use Rattle.access.specs.Executed.{Alone};

use machine::{Words, Work};

// 052ijk: S0 becomes Si shifted left by jk.
pub fn left_0(r: &mut Words, x: u64) -> Work
    requires { x / 512 ≡ 0o052 }
    ensures { Alone result r.old r.new x }
{
    access::set_s(r, 0, word::shifted_left(access::s_i(r, x), x % 64));
    Work::PastOne
}

// 053ijk: S0 becomes Si shifted right by 64 - jk.
pub fn right_0(r: &mut Words, x: u64) -> Work
    requires { x / 512 ≡ 0o053 }
    ensures { Alone result r.old r.new x }
{
    access::set_s(r, 0, word::shifted_right(access::s_i(r, x), 64 - x % 64));
    Work::PastOne
}

// 054ijk: Si is shifted left by jk.
pub fn left(r: &mut Words, x: u64) -> Work
    requires { x / 512 ≡ 0o054 }
    ensures { Alone result r.old r.new x }
{
    access::put_s(r, x, word::shifted_left(access::s_i(r, x), x % 64))
}

// 055ijk: Si is shifted right by 64 - jk.
pub fn right(r: &mut Words, x: u64) -> Work
    requires { x / 512 ≡ 0o055 }
    ensures { Alone result r.old r.new x }
{
    access::put_s(r, x, word::shifted_right(access::s_i(r, x), 64 - x % 64))
}

// 056ijk: Si becomes the high word of (Si, Sj) shifted left by Ak.
pub fn left_pair(r: &mut Words, x: u64) -> Work
    requires { x / 512 ≡ 0o056 }
    ensures { Alone result r.old r.new x }
{
    let y = word::left_pair(access::s_i(r, x), access::s_j(r, x), access::a_k(r, x));
    access::put_s(r, x, y)
}

// 057ijk: Si becomes the low word of (Sj, Si) shifted right by Ak.
pub fn right_pair(r: &mut Words, x: u64) -> Work
    requires { x / 512 ≡ 0o057 }
    ensures { Alone result r.old r.new x }
{
    let y = word::right_pair(access::s_j(r, x), access::s_i(r, x), access::a_k(r, x));
    access::put_s(r, x, y)
}
