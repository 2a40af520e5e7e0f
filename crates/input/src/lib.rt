//! What programs are given, read into lent memory.
#![tactic(auto)]

ghost use Rattle.std.specs.Prelude.{◌≡◌, ◌/◌, ◌<◌, ◌≤◌, [], ◌∷◌, length, take, IfOk, IsUtf8};
ghost use Rattle.std.specs.Io.KnownBytes.{Consumes, IsAtEnd};
ghost use Rattle.input.specs.Digits.{last_digit};

use std::io::{self, Read};

// Reads until `buf` is full or nothing is left, and answers how many bytes that is. How far a turn goes is what `read` answers, and no
// range counts that.
pub fn read_full<R: Read>(reader: &mut R, buf: &mut [u8]) -> io::Result<usize>
    ensures bound { IfOk result (λ n. n ≤ length buf.new) }
    ensures bytes { IfOk result (λ n. Consumes (R.remaining reader.old) (R.remaining reader.new) (take n buf.new)) }
    ensures end { IfOk result (λ n. n < length buf.new → IsAtEnd (R.remaining reader.new)) }
{
    let mut at = 0;
    while at < buf.len() {
        let n = reader.read(&mut buf[at..])?;
        if n == 0 {
            return Ok(at);
        }
        at += n;
    }
    Ok(at)
}

// The last decimal digit of a number.
fn last_digit(n: u64) -> u8
    ensures { result ≡ last_digit n }
{
    b'0' + (n % 10) as u8
}

// The four digits of a number below 10,000: the name of a stored file.
pub fn name_of(k: u64) -> [u8; 4]
    ensures digits { result ≡ last_digit (k / 1000) ∷ last_digit (k / 100) ∷ last_digit (k / 10) ∷ last_digit k ∷ [] }
    ensures utf8 { IsUtf8 result }
{
    [
        last_digit(k / 1000),
        last_digit(k / 100),
        last_digit(k / 10),
        last_digit(k),
    ]
}
