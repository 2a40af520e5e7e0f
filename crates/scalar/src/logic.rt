// Logic in S registers, bit by bit: 044 to 051. A function to each code, since the contract names it: with one that takes the operation there
// would be as many calls, and each would name its code and prove what the operation makes.
ghost use Rattle.std.specs.Prelude.{◌≡◌, ◌/◌, length};
ghost use Rattle.access.specs.Executed.{Alone};

use machine::{Words, Work};

// 044ijk: Si becomes Sj and Sk.
pub fn and(r: &mut Words, x: u64) -> Work
    requires { x / 512 ≡ 0o044 }
    ensures { Alone result r.old r.new x }
{
    access::put_s(r, x, access::s_j(r, x) & access::s_k(r, x))
}

// 045ijk: Si becomes Sj and the complement of Sk.
pub fn and_not(r: &mut Words, x: u64) -> Work
    requires { x / 512 ≡ 0o045 }
    ensures { Alone result r.old r.new x }
{
    access::put_s(r, x, access::s_j(r, x) & !access::s_k(r, x))
}

// 046ijk: Si becomes the exclusive or of Sj and Sk.
pub fn xor(r: &mut Words, x: u64) -> Work
    requires { x / 512 ≡ 0o046 }
    ensures { Alone result r.old r.new x }
{
    access::put_s(r, x, access::s_j(r, x) ^ access::s_k(r, x))
}

// 047ijk: Si has a one where Sj and Sk agree.
pub fn eqv(r: &mut Words, x: u64) -> Work
    requires { x / 512 ≡ 0o047 }
    ensures { Alone result r.old r.new x }
{
    access::put_s(r, x, !(access::s_j(r, x) ^ access::s_k(r, x)))
}

// 050ijk: Si becomes Sj where Sk has a one, and stays where Sk has a zero.
pub fn merge(r: &mut Words, x: u64) -> Work
    requires { x / 512 ≡ 0o050 }
    ensures { Alone result r.old r.new x }
{
    let y = word::merged(access::s_j(r, x), access::s_i(r, x), access::s_k(r, x));
    access::put_s(r, x, y)
}

// 051ijk: Si becomes Sj or Sk.
pub fn or(r: &mut Words, x: u64) -> Work
    requires { x / 512 ≡ 0o051 }
    ensures { Alone result r.old r.new x }
{
    access::put_s(r, x, access::s_j(r, x) | access::s_k(r, x))
}
