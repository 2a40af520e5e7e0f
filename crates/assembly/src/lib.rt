// Assembling and listing CAL. A line is guessed from its signs and digits, and the instruction that is guessed is listed again, over
// a copy of the text: the line is right if that changes nothing. So there is one place that knows how an instruction is spelled, the
// crate line.
#![tactic(auto)]

ghost use Rattle.std.specs.Prelude.{◌≡◌, ℕ, ◌+◌, ◌≤◌, ◌<◌, List, ◌++◌, length, take, leb};
ghost use Rattle.std.proofs.lemmas.List.Edits.{sets};
ghost use Rattle.text.specs.Report.{Wrote};
ghost use Rattle.spelling.specs.Listing.{data_line, line_of, list_of, first_line, parcels_in, listed, room_listed};
ghost use Rattle.spelling.specs.Candidate.{guess_of};
ghost use Rattle.spelling.specs.Assembling.{begins, read_line, read_of, room_after, assembled, room_assembled};
ghost use Rattle.guess.specs.Meant.{meant};
ghost use Rattle.assembly.specs.Reads.{length_if, Hears, HeardRight, read_as, ReadsAs, Checks, Fits, pads, parcels_meant};

use guess::{Guess, Plans};
use line::{First, Tables};
use spelling::{ReadError, TooLong};

// A line that the text has as it is guessed: how many bytes; of how many parcels; and whether no other may follow.
#[derive(Clone, Copy)]
struct Heard {
    bytes: usize,
    parcels: usize,
    last: bool,
}

// A line read: how many parcels it stands for, and how many bytes it has.
#[derive(Clone, Copy)]
struct Line {
    parcels: usize,
    bytes: usize,
}

// A line written: the place after it, and how many parcels it takes.
#[derive(Clone, Copy)]
pub struct Next {
    pub to: usize,
    pub parcels: usize,
}

// The first 16 bytes of a text; no line has more.
fn copied(text: &[u8; 32]) -> [u8; 16]
    ensures { result ≡ take 16 text.now }
{
    let mut line = [0u8; 16];
    line.copy_from_slice(&text[..16]);
    line
}

// Whether a text begins with these 16 bytes.
fn is_same(text: &[u8; 32], line: &[u8; 16]) -> bool
    ensures { result ≡ begins text.now line.now }
{
    text.starts_with(line)
}

// The length of an instruction's line, if a text begins with it.
fn line_in(text: &[u8; 32], tables: &Tables, first: First, m: u16) -> Option<usize>
    ensures { result ≡ length_if text.now (line_of first.parcel m) }
{
    let mut line = copied(text);
    let len = tables.put_line(&mut line, 0, first, m);
    if is_same(text, &line) {
        Some(len)
    } else {
        None
    }
}

// The same of a line of data. A closure that writes the line in place of the two would have to promise in its contract what they call.
fn data_in(text: &[u8; 32], x: u16) -> Option<usize>
    ensures { result ≡ length_if text.now (data_line x) }
{
    let mut line = copied(text);
    let len = line::put_data(&mut line, 0, x);
    if is_same(text, &line) {
        Some(len)
    } else {
        None
    }
}

// The first line of a text that has 32 bytes. The first of two parcels is data only where its second is missing.
fn hear(text: &[u8; 32], tables: &Tables, plans: &Plans) -> Option<Heard>
    ensures { (rest : List ℕ) → Hears (text.now ++ rest) result }
{
    let g = plans.guess(text);
    let first = First::new(g.first);
    if !first.has_second() {
        return Some(Heard {
            bytes: line_in(text, tables, first, 0)?,
            parcels: 1,
            last: false,
        });
    }
    match g.second {
        None => Some(Heard {
            bytes: data_in(text, g.first)?,
            parcels: 1,
            last: true,
        }),
        Some(m) => Some(Heard {
            bytes: line_in(text, tables, first, m)?,
            parcels: 2,
            last: false,
        }),
    }
}

// A text of fewer bytes, and newlines after it, so that a guess can look at 32.
fn padded(text: &[u8]) -> [u8; 32]
    requires { length text.now < 32 }
    ensures { result ≡ text.now ++ pads text.now }
{
    let mut line = [b'\n'; 32];
    line[..text.len()].copy_from_slice(text);
    line
}

// The first line of any text.
fn hear_first(text: &[u8], tables: &Tables, plans: &Plans) -> Option<Heard>
    requires { 0 < length text.now }
    ensures { HeardRight text.now result }
{
    match text.first_chunk::<32>() {
        Some(line) => hear(line, tables, plans),
        None => hear(&padded(text), tables, plans),
    }
}

// What a line is read as, where so many bytes are left.
fn found(left: usize, h: Heard) -> Option<Line>
    ensures { result ≡ read_as left h }
{
    if left < h.bytes || h.last && h.bytes < left {
        return None;
    }
    Some(Line {
        parcels: h.parcels,
        bytes: h.bytes,
    })
}

// The first line of a text, read.
fn read_line(text: &[u8], tables: &Tables, plans: &Plans) -> Option<Line>
    requires { 0 < length text.now }
    ensures { ReadsAs text.now (read_line text.now) result }
{
    let h = hear_first(text, tables, plans)?;
    found(text.len(), h)
}

// Looks a text through, storing nothing: how many parcels it stands for. Here and below a line is taken off the front of the rest, since how
// long it is is found by reading it.
fn check(text: &[u8], plans: &Plans) -> Result<usize, ReadError>
    ensures { Checks text.now result }
{
    let tables = Tables::new();
    let mut rest = text;
    let mut parcels: usize = 0;
    let mut lines: usize = 0;
    while 0 < rest.len() {
        let Some(line) = read_line(rest, &tables, plans) else {
            return Err(ReadError::BadLine(lines + 1));
        };
        parcels += line.parcels;
        lines += 1;
        rest = &rest[line.bytes..];
    }
    Ok(parcels)
}

// The guess of the first line of a text.
fn look(text: &[u8], plans: &Plans) -> Guess
    ensures { result ≡ meant (guess_of text.now) }
{
    match text.first_chunk::<32>() {
        Some(line) => plans.guess(line),
        None => plans.guess(&padded(text)),
    }
}

// Stores the parcels of a guess from a place of the room on, and answers the place after them.
fn put_parcels(room: &mut [u16], n: usize, g: Guess) -> usize
    requires { n + length (parcels_meant g) ≤ length room.old }
    ensures { (room.new ≡ sets room.old n (parcels_meant g)) × (result ≡ n + length (parcels_meant g)) }
{
    room[n] = g.first;
    let Some(m) = g.second else {
        return n + 1;
    };
    room[n + 1] = m;
    n + 2
}

// Stores the parcels of a text that holds no bad line, and for which there is room.
fn store(text: &[u8], room: &mut [u16], plans: &Plans)
    requires { Fits (length room.old) (read_of text.now) }
    ensures { room.new ≡ room_after room.old (read_of text.now) }
{
    let mut rest = text;
    let mut n: usize = 0;
    while 0 < rest.len() {
        let g = look(rest, plans);
        n = put_parcels(room, n, g);
        rest = &rest[g.length as usize..];
    }
}

// Assembles a text. Refused, it leaves the room as found; what lies past the parcels stays too.
pub fn assemble(text: &[u8], room: &mut [u16]) -> Result<usize, ReadError>
    ensures value { result ≡ assembled text.now room.old }
    ensures room_after { room.new ≡ room_assembled text.now room.old }
{
    let plans = Plans::new();
    let n = check(text, &plans)?;
    if room.len() < n {
        return Err(ReadError::Overfull);
    }
    store(text, room, &plans);
    Ok(n)
}

// Writes the line of the first instruction of parcels from a place on.
fn put_next(out: &mut [u8], to: usize, parcels: &[u16], tables: &Tables) -> Next
    requires { (0 < length parcels.now) × (to + length (first_line parcels.now) ≤ length out.old) }
    ensures wrote { Wrote out.old to (first_line parcels.now) out.new result.to }
    ensures taken { (result.parcels ≡ parcels_in parcels.now) × (0 < result.parcels) × (result.parcels ≤ length parcels.now) }
{
    let first = First::new(parcels[0]);
    if !first.has_second() {
        return Next {
            to: tables.put_line(out, to, first, 0),
            parcels: 1,
        };
    }
    if parcels.len() < 2 {
        return Next {
            to: line::put_data(out, to, first.parcel),
            parcels: 1,
        };
    }
    Next {
        to: tables.put_line(out, to, first, parcels[1]),
        parcels: 2,
    }
}

// The same, with the tables made for it, where no more than a line is wanted.
pub fn put_first(line: &mut [u8; 16], parcels: &[u16]) -> Next
    requires { 0 < length parcels.now }
    ensures wrote { Wrote line.old 0 (first_line parcels.now) line.new result.to }
    ensures upper_bound { result.to ≤ 16 }
    ensures taken { (result.parcels ≡ parcels_in parcels.now) × (0 < result.parcels) × (result.parcels ≤ length parcels.now) }
{
    put_next(line, 0, parcels, &Tables::new())
}

// Whether the listing of parcels has at most so many bytes. No line has more than 16.
fn is_room(parcels: &[u16], room: usize, tables: &Tables) -> bool
    ensures { result ≡ leb (length (list_of parcels.now)) room }
{
    if parcels.len() <= room / 16 {
        return true;
    }
    let mut line = [0u8; 16];
    let mut left = room;
    let mut rest = parcels;
    while 0 < rest.len() {
        let next = put_next(&mut line, 0, rest, tables);
        if left < next.to {
            return false;
        }
        left -= next.to;
        rest = &rest[next.parcels..];
    }
    true
}

// Writes a listing for which there is room, and answers its length.
fn write(parcels: &[u16], out: &mut [u8], tables: &Tables) -> usize
    requires { length (list_of parcels.now) ≤ length out.old }
    ensures { Wrote out.old 0 (list_of parcels.now) out.new result }
{
    let mut to: usize = 0;
    let mut rest = parcels;
    while 0 < rest.len() {
        let next = put_next(out, to, rest, tables);
        to = next.to;
        rest = &rest[next.parcels..];
    }
    to
}

// Lists parcels. Refused, it leaves the room as found; what lies past the listing stays too.
pub fn list(parcels: &[u16], room: &mut [u8]) -> Result<usize, TooLong>
    ensures value { result ≡ listed parcels.now room.old }
    ensures room_after { room.new ≡ room_listed parcels.now room.old }
{
    let tables = Tables::new();
    if !is_room(parcels, room.len(), &tables) {
        return Err(TooLong);
    }
    Ok(write(parcels, room, &tables))
}
