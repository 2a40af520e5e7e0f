// The answers of the programs that assemble CAL and list parcels, over lent text, parcels and bytes. An answer is written at the
// start of out, as much of it as fits, and each function answers its whole length.
#![tactic(auto)]

ghost use Rattle.std.specs.Prelude.{◌≡◌, ◌+◌, ◌*◌, ◌≤◌, ◌<◌, length};
ghost use Rattle.text.specs.Report.{Wrote};
ghost use Rattle.spelling.specs.Listing.{parcels_in};
ghost use Rattle.desk.specs.Desk.{Stands, Gives, cal_given, octal_given, room_given, cal_of, sheet_words, cal_words_of, listed_in, listing_of, blanks, column};
ghost use Rattle.desk.specs.Desk.{one_parcel, two_parcels, first_parcels, wide_line};

use spelling::{ReadError, TooLong};

// The bytes that a text may have.
const LONGEST: usize = 1048576;

// The number of a refusal for want of room.
const NO_ROOM: u64 = 18;

// A refusal that is written: how many bytes it has.
#[derive(Clone, Copy, Debug, PartialEq, Eq)]
pub struct Refused {
    pub bytes: usize,
}

// How many bytes a line has, and how many parcels it takes.
#[derive(Clone, Copy)]
pub struct Wide {
    pub bytes: usize,
    pub parcels: usize,
}

// Assembles a text of CAL. One that is too long has a bad line 0.
fn assemble(text: &[u8], parcels: &mut [u16]) -> Result<usize, ReadError>
    ensures gives { Stands (cal_given (length parcels.old) text.now) parcels.new result }
    ensures parcels_after { parcels.new ≡ room_given (cal_given (length parcels.old) text.now) parcels.old }
{
    if LONGEST < text.len() {
        return Err(ReadError::BadLine(0));
    }
    assembly::assemble(text, parcels)
}

// The same of a text of octal parcels. One function for both would take the reader as a closure, and be no plainer: what it promises
// would be said of whatever the closure does.
fn read_octal(text: &[u8], parcels: &mut [u16]) -> Result<usize, ReadError>
    ensures gives { Stands (octal_given (length parcels.old) text.now) parcels.new result }
    ensures parcels_after { parcels.new ≡ room_given (octal_given (length parcels.old) text.now) parcels.old }
{
    if LONGEST < text.len() {
        return Err(ReadError::BadLine(0));
    }
    octal::read(text, parcels)
}

// Reads a text of octal parcels, or writes its refusal.
pub fn read(text: &[u8], parcels: &mut [u16], out: &mut [u8]) -> Result<usize, Refused>
    ensures gives { Gives (octal_given (length parcels.old) text.now) parcels.new out.old out.new result }
    ensures parcels_after { parcels.new ≡ room_given (octal_given (length parcels.old) text.now) parcels.old }
{
    match read_octal(text, parcels) {
        Ok(n) => Ok(n),
        Err(e) => Err(Refused {
            bytes: octal::put_error(out, e),
        }),
    }
}

// The answer of `cal`.
pub fn cal(text: &[u8], parcels: &mut [u16], out: &mut [u8]) -> usize
    ensures wrote { Wrote out.old 0 (cal_of (length parcels.old) text.now) out.new result
        × (parcels.new ≡ room_given (cal_given (length parcels.old) text.now) parcels.old) }
    ensures upper_bound { result ≤ 272 + 7 * length parcels.old }
{
    match assemble(text, parcels) {
        Ok(n) => octal::put_parcels(&parcels[..n], out),
        Err(e) => octal::put_error(out, e),
    }
}

// Parcels as words from an address on, none past 0FFF.
fn put_sheet(parcels: &[u16], address: u64, out: &mut [u8]) -> usize
    requires { length parcels.now ≤ 1048576 }
    ensures { Wrote out.old 0 (sheet_words address parcels.now) out.new result × (result ≤ 90112) }
{
    let n = octal::words_for(parcels.len()) as u64;
    if 4096 < address.saturating_add(n) {
        return octal::put_refused(out, NO_ROOM);
    }
    octal::put_words(parcels, address, out)
}

// The answer of `cal ADDRESS`.
pub fn cal_words(text: &[u8], address: u64, parcels: &mut [u16], out: &mut [u8]) -> usize
    ensures wrote { Wrote out.old 0 (cal_words_of (length parcels.old) address text.now) out.new result
        × (parcels.new ≡ room_given (cal_given (length parcels.old) text.now) parcels.old) }
    ensures upper_bound { result ≤ 90112 }
{
    match assemble(text, parcels) {
        Ok(n) => put_sheet(&parcels[..n], address, out),
        Err(e) => octal::put_error(out, e),
    }
}

// Lists parcels, or writes that there is not the room.
fn put_listing(parcels: &[u16], out: &mut [u8]) -> usize
    ensures wrote { Wrote out.old 0 (listed_in (length out.old) parcels.now) out.new result }
    ensures upper_bound { 272 ≤ length out.old → result ≤ length out.old }
{
    match assembly::list(parcels, out) {
        Ok(n) => n,
        Err(TooLong) => octal::put_refused(out, NO_ROOM),
    }
}

// The answer of `listing`.
pub fn listing(text: &[u8], parcels: &mut [u16], out: &mut [u8]) -> usize
    ensures wrote { Wrote out.old 0 (listing_of (length parcels.old) (length out.old) text.now)
        out.new result
        × (parcels.new ≡ room_given (octal_given (length parcels.old) text.now) parcels.old) }
    ensures upper_bound { 272 ≤ length out.old → result ≤ length out.old }
{
    match read_octal(text, parcels) {
        Ok(n) => put_listing(&parcels[..n], out),
        Err(e) => octal::put_error(out, e),
    }
}

// From here on a line of `listing -w`.

// So many blanks.
fn put_blanks(out: &mut [u8], at: usize, n: usize) -> usize
    requires { (at ≤ 64) × (n ≤ 16) }
    ensures { Wrote out.old at (blanks n) out.new result × (result ≡ at + n) }
{
    text::put_text(out, at, &[b' '; 16][..n])
}

// The address of a parcel, in eight columns. It is written aside first, to see how many digits it has.
fn put_column(out: &mut [u8], address: u64) -> usize
    ensures { Wrote out.old 0 (column address) out.new result × (result ≡ 8) }
{
    let a = address % 16777216;
    let mut aside = [0u8; 8];
    let n = text::put_number(&mut aside, 0, a, 8, 1);
    let first = put_blanks(out, 0, 8 - n);
    text::put_number(out, first, a, 8, 1)
}

// One parcel in fifteen columns.
fn put_one(out: &mut [u8], at: usize, x: u16) -> usize
    requires { at ≤ 32 }
    ensures { Wrote out.old at (one_parcel x) out.new result × (result ≡ at + 15) }
{
    let blank = octal::put_parcel(out, at, x);
    put_blanks(out, blank, 9)
}

// Two parcels in fifteen columns.
fn put_two(out: &mut [u8], at: usize, x: u16, m: u16) -> usize
    requires { at ≤ 32 }
    ensures { Wrote out.old at (two_parcels x m) out.new result × (result ≡ at + 15) }
{
    let blank = octal::put_parcel(out, at, x);
    let second = put_blanks(out, blank, 1);
    let end = octal::put_parcel(out, second, m);
    put_blanks(out, end, 2)
}

// The parcels of the first instruction, which takes so many.
fn put_taken(out: &mut [u8], at: usize, parcels: &[u16], taken: usize) -> usize
    requires { (at ≤ 32) × (0 < length parcels.now) × (taken ≡ parcels_in parcels.now) × (taken ≤ length parcels.now) }
    ensures { Wrote out.old at (first_parcels parcels.now) out.new result × (result ≡ at + 15) }
{
    if taken < 2 {
        return put_one(out, at, parcels[0]);
    }
    put_two(out, at, parcels[0], parcels[1])
}

// The line of the first instruction of parcels, the first of which has an address.
pub fn wide_line(parcels: &[u16], address: u64, out: &mut [u8]) -> Wide
    ensures wrote { Wrote out.old 0 (wide_line address parcels.now) out.new result.bytes × (result.bytes ≤ 41) }
    ensures taken { (result.parcels ≡ parcels_in parcels.now) × (result.parcels ≤ length parcels.now) ×
        (0 < length parcels.now → 0 < result.parcels) }
{
    if parcels.is_empty() {
        return Wide {
            bytes: 0,
            parcels: 0,
        };
    }
    let mut line = [0u8; 16];
    let next = assembly::put_first(&mut line, parcels);
    let taken = next.parcels;
    let column = put_column(out, address);
    let first = put_blanks(out, column, 2);
    let cal = put_taken(out, first, parcels, taken);
    let n = next.to;
    Wide {
        bytes: text::put_text(out, cal, &line[..n]),
        parcels: taken,
    }
}
