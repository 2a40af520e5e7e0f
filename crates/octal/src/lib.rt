// Parcels as octal text and as the words of a case sheet, the text of a refusal, and the addresses that arguments spell.
#![tactic(auto)]

ghost use Rattle.std.specs.Prelude.{◌≡◌, ◌+◌, ◌*◌, ◌/◌, ◌≤◌, ◌<◌, length, get_or, None};
ghost use Rattle.std.proofs.lemmas.List.Edits.{sets};
ghost use Rattle.text.specs.Digits.{digits};
ghost use Rattle.text.specs.Report.{Wrote};
ghost use Rattle.octal.specs.Numbers.{number_of, address_of};
ghost use Rattle.octal.specs.Lines.{parcels_text, first_bad, parcels_from, octal_of, read_to, room_to};
ghost use Rattle.octal.specs.Words.{word_at, word_text, words_text};
ghost use Rattle.octal.specs.Refusals.{refused_text, error_text};

use spelling::ReadError;

// The largest number that a parcel holds.
const LARGEST: u64 = 65535;

// The number that bytes spell in a base, if all of them are its digits, hex digits being capital or small.
fn number(digits: &[u8], base: u32) -> Option<u64>
    requires { (2 ≤ base) × (base ≤ 16) × (length digits.now ≤ 8) }
    ensures { result ≡ number_of base digits.now }
{
    let mut n: u64 = 0;
    for b in digits {
        let d = (*b as char).to_digit(base)?;
        n = n * base as u64 + d as u64;
    }
    Some(n)
}

// The address that an argument of 1 to most digits spells, if it is below limit.
fn spelled(s: &[u8], base: u32, most: usize, limit: u64) -> Option<u64>
    requires { (2 ≤ base) × (base ≤ 16) × (most ≤ 8) }
    ensures { result ≡ address_of base most limit s.now }
{
    if s.is_empty() || most < s.len() {
        return None;
    }
    let n = number(s, base)?;
    if n < limit { Some(n) } else { None }
}

// The address of a word of a case sheet: hex, up to FFF.
pub fn word_address(s: &[u8]) -> Option<u64>
    ensures { result ≡ address_of 16 4 4096 s.now }
{
    spelled(s, 16, 4, 4096)
}

// The address of a parcel: octal, up to 77777777.
pub fn parcel_address(s: &[u8]) -> Option<u64>
    ensures { result ≡ address_of 8 8 16777216 s.now }
{
    spelled(s, 8, 8, 16777216)
}

// The first bad line of a text of parcels. Its loops are left from inside by a label with the line's number: a form that was
// asked for.
fn bad_line(text: &[u8]) -> Option<usize>
    ensures { result ≡ first_bad text.now }
{
    let mut at: usize = 0;
    let mut line: usize = 1;
    let bad = 'lines: loop {
        if text.len() <= at {
            break 'lines None;
        }
        if text.len() - at < 7 {
            break 'lines Some(line);
        }
        let mut p: u64 = 0;
        for d in 0..6 {
            let Some(v) = (text[at + d] as char).to_digit(8) else {
                break 'lines Some(line);
            };
            p = p * 8 + v as u64;
        }
        if text[at + 6] != b'\n' {
            break 'lines Some(line);
        }
        if LARGEST < p {
            break 'lines Some(line);
        }
        at += 7;
        line += 1;
    };
    bad
}

// Stores the first n parcels of a text that has no bad line.
fn store(text: &[u8], n: usize, room: &mut [u16])
    requires { (first_bad text.now ≡ None) × (7 * n ≤ length text.now) × (n ≤ length room.old) }
    ensures { room.new ≡ sets room.old 0 (parcels_from n text.now 0) }
{
    for i in 0..n {
        let at = 7 * i;
        let p = number(&text[at..at + 6], 8).unwrap();
        room[i] = p as u16;
    }
}

// Reads a text of parcels. Refused, it leaves the room as found; what lies past the parcels stays too.
pub fn read(text: &[u8], room: &mut [u16]) -> Result<usize, ReadError>
    ensures value { result ≡ read_to room.old (octal_of text.now) }
    ensures room_after { room.new ≡ room_to room.old (octal_of text.now) }
{
    if let Some(line) = bad_line(text) {
        return Err(ReadError::BadLine(line));
    }
    let n = text.len() / 7;
    if room.len() < n {
        return Err(ReadError::Overfull);
    }
    store(text, n, room);
    Ok(n)
}

// From here on text is written as in the crate text: what does not fit is left out, and each function answers the place after
// its text all the same.

// A parcel.
pub fn put_parcel(out: &mut [u8], at: usize, x: u16) -> usize
    requires { at ≤ 900000000 }
    ensures { Wrote out.old at (digits 8 6 x) out.new result × (result ≡ at + 6) }
{
    text::put_digits(out, at, x as u64, 8, 6);
    at + 6
}

// All of them, each a line, from the start of out on: at most as many as the machine has addresses for, so that every place is a
// usize.
pub fn put_parcels(parcels: &[u16], out: &mut [u8]) -> usize
    requires { length parcels.now ≤ 16777216 }
    ensures wrote { Wrote out.old 0 (parcels_text parcels.now) out.new result }
    ensures value { result ≡ 7 * length parcels.now }
{
    let mut at: usize = 0;
    for p in parcels {
        let end = put_parcel(out, at, *p);
        text::put_byte(out, end, b'\n');
        at = end + 1;
    }
    at
}

// A parcel by its place, zero past the end.
fn parcel_of(parcels: &[u16], i: usize) -> u64
    ensures { (result ≡ get_or parcels.now i 0) × (result < 65536) }
{
    parcels.get(i).map_or(0, |p| u64::from(*p))
}

// The word of the four parcels from a place on, the first highest.
fn word_at(parcels: &[u16], i: usize) -> u64
    requires { i ≤ 900000000 }
    ensures { result ≡ word_at parcels.now i }
{
    let first = parcel_of(parcels, i);
    let two = first * 65536 + parcel_of(parcels, i + 1);
    let three = two * 65536 + parcel_of(parcels, i + 2);
    three * 65536 + parcel_of(parcels, i + 3)
}

// The line of a word.
fn put_word(out: &mut [u8], at: usize, address: u64, word: u64) -> usize
    requires { at ≤ 900000000 }
    ensures { Wrote out.old at (word_text address word) out.new result × (result ≡ at + 22) }
{
    text::put_digits(out, at, address, 16, 4);
    text::put_byte(out, at + 4, 61);
    text::put_digits(out, at + 5, word, 16, 16);
    text::put_byte(out, at + 21, 10);
    at + 22
}

// How many words so many parcels take.
pub fn words_for(n: usize) -> usize
    ensures { result ≡ (n + 3) / 4 }
{
    n.div_ceil(4)
}

// Parcels as words from an address on, from the start of out on.
pub fn put_words(parcels: &[u16], address: u64, out: &mut [u8]) -> usize
    requires { (length parcels.now ≤ 16777216) × (address ≤ 4096) }
    ensures wrote { Wrote out.old 0 (words_text address parcels.now) out.new result }
    ensures value { result ≡ 22 * ((length parcels.now + 3) / 4) }
{
    let n = words_for(parcels.len());
    let mut at: usize = 0;
    for k in 0..n {
        at = put_word(out, at, address + k as u64, word_at(parcels, 4 * k));
    }
    at
}

// A refusal by its number, at the start of out.
pub fn put_refused(out: &mut [u8], n: u64) -> usize
    ensures { Wrote out.old 0 (refused_text n) out.new result × (result ≤ 136) }
{
    text::put_line(out, 0, b"refused=", n, 10, 1)
}

// The refusal of a text, with the line that is bad.
pub fn put_error(out: &mut [u8], error: ReadError) -> usize
    ensures { Wrote out.old 0 (error_text error) out.new result × (result ≤ 272) }
{
    let at = put_refused(out, error.number());
    match error {
        ReadError::BadLine(line) => text::put_line(out, at, b"line=", line as u64, 10, 1),
        ReadError::Overfull => at,
    }
}
