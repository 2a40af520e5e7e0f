// The case sheet: its reader and its report, over lent bytes and words.
#![tactic(auto)]

ghost use Rattle.std.specs.Prelude.{◌≡◌, ◌+◌, ◌*◌, ◌≤◌, ◌<◌, length, set, IfSome, Ok};
ghost use Rattle.std.proofs.lemmas.List.Edits.{sets};
ghost use Rattle.machine.specs.Layout.{registers_of, frame_of, state_of};
ghost use Rattle.text.specs.Digits.{byte_at, hex_digit, hex_from, glyph_of, digits, places_of, shown};
ghost use Rattle.text.specs.Sheet.{starts_at, ends_at, decimal_from, number_at, head_at, framed, bad_line, stored, check_of, sheet_of, sheet_numbers, memory_of};
ghost use Rattle.text.specs.Bounds.{HeadFits, CheckedFits, SheetFits};
ghost use Rattle.text.specs.Report.{line_of, commas, stop_line, cause_name, outside_line, modes_of};
ghost use Rattle.text.specs.Report.{control_lines, field_lines, program_lines, register_lines};
ghost use Rattle.text.specs.Report.{state_lines, compared_of, changes, change_text, changed_words, changed_lines};
ghost use Rattle.text.specs.Report.{report_of, refused_of, Wrote};

use machine::{Cause, Ending, Stray, Words};

// What a line of a name and a number says: the number, and where the next line starts.
#[derive(Clone, Copy)]
struct Head {
    number: u64,
    next: usize,
}

// A sheet looked through: its steps, how many words and where their lines start.
#[derive(Clone, Copy)]
struct Checked {
    steps: u64,
    words: usize,
    at: usize,
}

// A bad sheet, by its first bad line: 0 where the whole text is too long.
#[derive(Clone, Copy, Debug, PartialEq, Eq)]
pub struct BadSheet {
    pub line: u64,
}

// The byte at a place, 0 past the end.
fn byte_at(text: &[u8], at: usize) -> u8
    ensures { result ≡ byte_at text.now at }
{
    text.get(at).copied().unwrap_or(0)
}

// The value of a digit of capital hex.
#[tactic(auto, unfolding(crate::specs::Digits::hex_digit, crate::specs::Digits::is_decimal, crate::specs::Digits::is_letter))]
fn hex_digit(b: u8) -> Option<u64>
    ensures value { result ≡ hex_digit b }
    ensures upper_bound { IfSome result (λ d. d < 16) }
{
    match b {
        b'0'..=b'9' => Some(u64::from(b - b'0')),
        b'A'..=b'F' => Some(u64::from(b - b'A') + 10),
        _ => None,
    }
}

// Whether the text has a name from at on.
fn starts(text: &[u8], at: usize, name: &[u8]) -> bool
    requires { (at ≤ 64) × (length name.now ≤ 64) }
    ensures { result ≡ starts_at text.now at name.now }
{
    name.iter()
        .enumerate()
        .all(|(i, b)| byte_at(text, at + i) == *b)
}

// The end of a line that says v.
#[tactic(auto, unfolding(crate::specs::Sheet::ends_at))]
fn ends(text: &[u8], at: usize, v: u64) -> Option<Head>
    requires { at ≤ 128 }
    ensures value { result ≡ ends_at text.now at v }
    ensures head_fits { HeadFits v (at + 1) result }
{
    if byte_at(text, at) != b'\n' {
        return None;
    }
    Some(Head {
        number: v,
        next: at + 1,
    })
}

// At most seven decimal digits, and the end of the line.
fn decimal(text: &[u8], at: usize) -> Option<Head>
    requires { at ≤ 64 }
    ensures value { result ≡ decimal_from 7 text.now at 0 }
    ensures head_fits { HeadFits 10000000 (at + 8) result }
{
    let mut v: u64 = 0;
    for d in 0..7 {
        let b = byte_at(text, at + d);
        if !b.is_ascii_digit() {
            return ends(text, at + d, v);
        }
        v = v * 10 + u64::from(b - b'0');
    }
    ends(text, at + 7, v)
}

// A number without needless zeros, and the end of the line.
#[tactic(auto, unfolding(crate::specs::Sheet::number_at, crate::specs::Digits::is_decimal))]
fn number_at(text: &[u8], at: usize) -> Option<Head>
    requires { at ≤ 64 }
    ensures value { result ≡ number_at text.now at }
    ensures head_fits { HeadFits 10000000 (at + 8) result }
{
    match byte_at(text, at) {
        b'0' => ends(text, at + 1, 0),
        b'1'..=b'9' => decimal(text, at),
        _ => None,
    }
}

// A line of a name and a number from 0 to most.
#[tactic(auto, unfolding(crate::specs::Sheet::head_at, crate::specs::Sheet::up_to))]
fn head_line(text: &[u8], at: usize, name: &[u8; 6], most: u64) -> Option<Head>
    requires { at ≤ 32 }
    ensures value { result ≡ head_at text.now at name.now most }
    ensures head_fits { HeadFits most (at + 14) result }
{
    if !starts(text, at, name) {
        return None;
    }
    let head = number_at(text, at + name.len())?;
    if most < head.number {
        return None;
    }
    Some(head)
}

// Whether what stands beside the digits of a word's line is right, and its address within bounds.
#[tactic(auto, unfolding(crate::specs::Sheet::framed))]
fn is_framed(text: &[u8], at: usize, low: u64, address: u64) -> bool
    requires { at ≤ 65536 }
    ensures { result ≡ framed text.now at low address }
{
    byte_at(text, at + 4) == b'='
        && byte_at(text, at + 21) == b'\n'
        && low <= address
        && address < 4096
}

// The first bad line of a sheet whose count lines of words start at start. The loops are left from inside by a label with the line's
// number: a form that was asked for.
fn bad_line(text: &[u8], start: usize, count: usize) -> Option<u64>
    requires { (start ≤ 64) × (count ≤ 1024) }
    ensures { result ≡ bad_line count text.now start 0 3 }
{
    let mut left = count;
    let mut at = start;
    let mut low: u64 = 0;
    let mut line: u64 = 3;
    'lines: loop {
        if left == 0 {
            if at == text.len() {
                break 'lines None;
            }
            break 'lines Some(line);
        }
        let mut address: u64 = 0;
        for d in 0..4 {
            let Some(digit) = hex_digit(byte_at(text, at + d)) else {
                break 'lines Some(line);
            };
            address = address * 16 + digit;
        }
        for d in 5..21 {
            if hex_digit(byte_at(text, at + d)).is_none() {
                break 'lines Some(line);
            }
        }
        if !is_framed(text, at, low, address) {
            break 'lines Some(line);
        }
        low = address + 1;
        at += 22;
        left -= 1;
        line += 1;
    }
}

// Looks a sheet through, storing nothing.
#[tactic(auto, unfolding(crate::specs::Sheet::check_of, crate::specs::Sheet::after_steps, crate::specs::Sheet::after_words))]
fn check(text: &[u8]) -> Result<Checked, BadSheet>
    ensures value { result ≡ check_of text.now }
    ensures checked_fits { CheckedFits result }
{
    if 24576 < text.len() {
        return Err(BadSheet { line: 0 });
    }
    let steps = head_line(text, 0, b"steps=", 1000000).ok_or(BadSheet { line: 1 })?;
    let words = head_line(text, steps.next, b"words=", 1024).ok_or(BadSheet { line: 2 })?;
    let count = words.number as usize;
    if let Some(line) = bad_line(text, words.next, count) {
        return Err(BadSheet { line });
    }
    Ok(Checked {
        steps: steps.number,
        words: count,
        at: words.next,
    })
}

// The number that n hex digits from at on spell. Another byte would count as 0; a sheet that is stored has none.
fn hex_number(text: &[u8], at: usize, n: usize) -> u64
    requires { (at ≤ 65536) × (n ≤ 16) }
    ensures { result ≡ hex_from n text.now at 0 }
{
    let mut v: u64 = 0;
    for d in 0..n {
        v = v * 16 + hex_digit(byte_at(text, at + d)).unwrap_or(0);
    }
    v
}

// Stores one word, where the memory has its address: `put_byte` of words, and a generic function for both would be a third.
fn store(mem: &mut [u64], address: u64, word: u64)
    ensures { mem.new ≡ set mem.old address word }
{
    let i = address as usize;
    if i < mem.len() {
        mem[i] = word;
    }
}

// Stores the words of count lines from start on.
fn store_words(text: &[u8], start: usize, count: usize, mem: &mut [u64])
    requires { (start ≤ 64) × (count ≤ 1024) }
    ensures { mem.new ≡ stored count text.now start mem.old }
{
    for k in 0..count {
        let at = start + 22 * k;
        let address = hex_number(text, at, 4);
        let word = hex_number(text, at + 5, 16);
        store(mem, address, word);
    }
}

// Reads a sheet into memory. A bad one leaves memory as it was.
#[tactic(auto, unfolding(crate::specs::Sheet::sheet_from, crate::specs::Sheet::sheet_of, crate::specs::Sheet::loaded_of, crate::specs::Sheet::memory_of))]
pub fn read(text: &[u8], mem: &mut [u64; 4096]) -> Result<u64, BadSheet>
    ensures value { result ≡ sheet_of text.now }
    ensures mem_after { mem.new ≡ memory_of text.now mem.old }
    ensures numbers { sheet_numbers result ≡ sheet_numbers (sheet_of text.now) }
    ensures sheet_fits { SheetFits result × (length mem.new ≡ length mem.old) }
{
    let sheet = check(text)?;
    store_words(text, sheet.at, sheet.words, mem);
    Ok(sheet.steps)
}

// From here on the report. Text is written from a place of the buffer on, and what does not fit is left out; each function
// answers the place after its text all the same. Numbers are spelled here and not by `write!`: it stops where a buffer ends, and
// std states the bytes of no capital hex. Buffer and place stay two parameters: of a struct that holds both, each contract would
// have to say besides that it still lends the same buffer. Each bounds its place, so that no sum overflows.

// One byte.
pub fn put_byte(out: &mut [u8], at: usize, b: u8)
    ensures { out.new ≡ set out.old at b }
{
    if at < out.len() {
        out[at] = b;
    }
}

// A text as it stands.
pub fn put_text(out: &mut [u8], at: usize, text: &[u8]) -> usize
    requires { (at ≤ 1000000000) × (length text.now ≤ 64) }
    ensures { Wrote out.old at text.now out.new result × (result ≤ at + 64) }
{
    for (i, b) in text.iter().enumerate() {
        put_byte(out, at + i, *b);
    }
    at + text.len()
}

// A digit below 16.
#[tactic(auto, unfolding(crate::specs::Digits::glyph_of))]
fn glyph(d: u64) -> u8
    requires { d < 16 }
    ensures { result ≡ glyph_of d }
{
    if d < 10 {
        b'0' + d as u8
    } else {
        b'A' + (d - 10) as u8
    }
}

// The last k digits of n.
pub fn put_digits(out: &mut [u8], at: usize, n: u64, base: u64, k: usize)
    requires { (at ≤ 1000000000) × (k ≤ 64) × (0 < base) × (base ≤ 16) }
    ensures { out.new ≡ sets out.old at (digits base k n) }
{
    let mut rest = n;
    for i in (0..k).rev() {
        put_byte(out, at + i, glyph(rest % base));
        rest /= base;
    }
}

// How many digits n has: how often it can be divided.
fn places(n: u64, base: u64) -> u64
    requires { 1 < base }
    ensures { (result ≡ places_of n base n) × (result ≤ 64) }
{
    let mut k: u64 = 1;
    let mut rest = n;
    while base <= rest {
        rest /= base;
        k += 1;
    }
    k
}

// A number, with zeros in front up to least digits.
pub fn put_number(out: &mut [u8], at: usize, n: u64, base: u64, least: u64) -> usize
    requires { (at ≤ 1000000000) × (1 < base) × (base ≤ 16) × (least ≤ 64) }
    ensures { Wrote out.old at (shown base least n) out.new result × (result ≤ at + 64) }
{
    let width = places(n, base).max(least) as usize;
    put_digits(out, at, n, base, width);
    at + width
}

// A line of a number.
pub fn put_line(out: &mut [u8], at: usize, name: &[u8], n: u64, base: u64, least: u64) -> usize
    requires { (at ≤ 900000000) × (length name.now ≤ 64) × (1 < base) × (base ≤ 16) × (least ≤ 64) }
    ensures { Wrote out.old at (line_of name.now (shown base least n)) out.new result × (result ≤ at + 136) }
{
    let value = put_text(out, at, name);
    let end = put_number(out, value, n, base, least);
    put_text(out, end, b"\n")
}

// Numbers in hex with commas between them.
fn put_list(out: &mut [u8], at: usize, ns: &[u64], least: u64) -> usize
    requires { (at ≤ 1000000) × (length ns.now ≡ 8) × (least ≤ 64) }
    ensures { Wrote out.old at (commas least ns.now) out.new result × (result ≤ at + 520) }
{
    let mut to = put_number(out, at, ns[0], 16, least);
    for n in &ns[1..] {
        put_byte(out, to, b',');
        to = put_number(out, to + 1, *n, 16, least);
    }
    to
}

// A line of eight registers.
fn put_eight(out: &mut [u8], at: usize, name: &[u8], ns: &[u64], least: u64) -> usize
    requires { (at ≤ 100000) × (length name.now ≤ 64) × (length ns.now ≡ 8) × (least ≤ 64) }
    ensures { Wrote out.old at (line_of name.now (commas least ns.now)) out.new result × (result ≤ at + 1000) }
{
    let value = put_text(out, at, name);
    let end = put_list(out, value, ns, least);
    put_text(out, end, b"\n")
}

// How a run ended.
fn put_ending(out: &mut [u8], ending: Ending) -> usize
    ensures { Wrote out.old 0 (stop_line (Ok ending)) out.new result × (result ≤ 64) }
{
    match ending {
        Ending::Budget => put_text(out, 0, b"stop=budget\n"),
        Ending::NotHeld(_) => put_text(out, 0, b"stop=not-held\n"),
        Ending::MonitorFetch(_) => put_text(out, 0, b"stop=monitor-fetch\n"),
    }
}

// The same of a run that may have been refused, though none that is reported was.
fn put_stop(out: &mut [u8], ending: Result<Ending, u64>) -> usize
    ensures { Wrote out.old 0 (stop_line ending) out.new result × (result ≤ 64) }
{
    match ending {
        Ok(ending) => put_ending(out, ending),
        Err(_) => put_text(out, 0, b"stop=budget\n"),
    }
}

// Why an operand lay outside, and its number among those of its instruction.
fn put_stray(out: &mut [u8], at: usize, cause: Cause, element: u64) -> usize
    requires { at ≤ 1000 }
    ensures { Wrote out.old at (line_of (cause_name cause) (shown 10 1 element)) out.new result × (result ≤ at + 136) }
{
    match cause {
        Cause::BelowBase => put_line(out, at, b"outside=below,", element, 10, 1),
        Cause::OverLimit => put_line(out, at, b"outside=limit,", element, 10, 1),
        Cause::BeyondMemory => put_line(out, at, b"outside=memory,", element, 10, 1),
    }
}

// The stray of the last step that had one.
fn put_outside(out: &mut [u8], at: usize, stray: Option<Stray>) -> usize
    requires { at ≤ 1000 }
    ensures { Wrote out.old at (outside_line stray) out.new result × (result ≤ at + 136) }
{
    match stray {
        None => put_text(out, at, b"outside=none\n"),
        Some(stray) => put_stray(out, at, stray.cause, stray.element),
    }
}

// MM, IOR, IFP, FPS and BDM in one number.
#[tactic(auto, unfolding(machine::specs::Layout::registers_of, machine::specs::Layout::frame_of))]
fn modes(r: &Words) -> u64
    ensures { result ≡ modes_of (registers_of r.now) (frame_of r.now) }
{
    let low = r[access::MM] % 2 + r[access::IOR] % 2 * 2 + r[access::IFP] % 2 * 4;
    low + r[access::FPS] % 2 * 8 + r[access::BDM] % 2 * 16
}

// P, XA, VL and the modes. This and the next two stay calls in a row: one loop over a table of names, numbers, bases and widths
// would state the table's text besides, and each line stands in its call alone.
fn put_control(out: &mut [u8], at: usize, r: &Words) -> usize
    requires { at ≤ 10000 }
    ensures { Wrote out.old at (control_lines (state_of r.now)) out.new result × (result ≤ at + 1000) }
{
    let second = put_line(out, at, b"p=", r[access::P], 16, 6);
    let third = put_line(out, second, b"xa=", r[access::XA], 16, 2);
    let fourth = put_line(out, third, b"vl=", r[access::VL], 10, 1);
    put_line(out, fourth, b"modes=", modes(r), 16, 2)
}

// The two fields.
fn put_fields(out: &mut [u8], at: usize, r: &Words) -> usize
    requires { at ≤ 10000 }
    ensures { Wrote out.old at (field_lines (frame_of r.now)) out.new result × (result ≤ at + 1000) }
{
    let second = put_line(out, at, b"iba=", r[access::IBA], 16, 5);
    let third = put_line(out, second, b"ila=", r[access::ILA], 16, 5);
    let fourth = put_line(out, third, b"dba=", r[access::DBA], 16, 5);
    put_line(out, fourth, b"dla=", r[access::DLA], 16, 5)
}

// The program state and the cluster.
fn put_program(out: &mut [u8], at: usize, r: &Words) -> usize
    requires { at ≤ 10000 }
    ensures { Wrote out.old at (program_lines (frame_of r.now)) out.new result × (result ≤ at + 1000) }
{
    let second = put_line(out, at, b"ps=", r[access::PS], 16, 1);
    put_line(out, second, b"cln=", r[access::CLN], 16, 1)
}

// The A and S registers.
fn put_registers(out: &mut [u8], at: usize, r: &Words) -> usize
    requires { at ≤ 10000 }
    ensures { Wrote out.old at (register_lines (registers_of r.now)) out.new result × (result ≤ at + 2000) }
{
    let second = put_eight(out, at, b"a=", &r[access::A..access::S], 6);
    put_eight(out, second, b"s=", &r[access::S..access::B], 1)
}

// The processor.
fn put_state(out: &mut [u8], at: usize, r: &Words) -> usize
    requires { at ≤ 1000 }
    ensures { Wrote out.old at (state_lines (state_of r.now)) out.new result × (result ≤ at + 5000) }
{
    let second = put_control(out, at, r);
    let third = put_fields(out, second, r);
    let fourth = put_program(out, third, r);
    put_registers(out, fourth, r)
}

// How many words are compared.
fn compared(before: &[u64], after: &[u64]) -> usize
    ensures { (result ≡ compared_of before.now after.now) × (result ≤ length before.now) ×
        (result ≤ length after.now) × (result ≤ 4194304) }
{
    before.len().min(after.len()).min(4194304)
}

// How many of the first n words differ. A zip, filtered and counted, took 10 host instructions a word and this loop takes 3, since
// the compiler compares several words at once: 6 in 100 of a whole small sheet.
fn count_changes(before: &[u64], after: &[u64], n: usize) -> u64
    requires { (n ≤ length before.now) × (n ≤ length after.now) × (n ≤ 4194304) }
    ensures { result ≡ changes n 0 before.now after.now }
{
    let mut count: u64 = 0;
    for a in 0..n {
        count += u64::from(before[a] != after[a]);
    }
    count
}

// The line of a word, where it changed.
fn put_change(out: &mut [u8], at: usize, address: u64, old: u64, new: u64) -> usize
    requires { at ≤ 850000000 }
    ensures { Wrote out.old at (change_text address old new) out.new result × (result ≤ at + 200) }
{
    if old == new {
        return at;
    }
    let equals = put_number(out, at, address, 16, 4);
    put_line(out, equals, b"=", new, 16, 16)
}

// The lines of the first n words, of those that changed.
fn put_changes(out: &mut [u8], at: usize, before: &[u64], after: &[u64], n: usize) -> usize
    requires { (at ≤ 10000) × (n ≤ length before.now) × (n ≤ length after.now) × (n ≤ 4194304) }
    ensures { Wrote out.old at (changed_words n 0 before.now after.now) out.new result }
{
    let mut to = at;
    for a in 0..n {
        to = put_change(out, to, a as u64, before[a], after[a]);
    }
    to
}

// How many words differ, and which. Up to 65,536 words an address has four digits, and so a word's line 22 bytes.
fn put_changed(out: &mut [u8], at: usize, before: &[u64], after: &[u64]) -> usize
    requires { at ≤ 9000 }
    ensures wrote { Wrote out.old at (changed_lines before.now after.now) out.new result }
    ensures upper_bound { length before.now ≤ 65536 → result ≤ at + 136 + 22 * length before.now }
{
    let n = compared(before, after);
    let count = count_changes(before, after, n);
    let words = put_line(out, at, b"changed=", count, 10, 1);
    put_changes(out, words, before, after, n)
}

// Writes the report of a run at the start of out, as much of it as fits, and answers its whole length: how the run ended, its
// stray, its steps, the processor's words, and memory before and after.
pub fn report(
    ending: Result<Ending, u64>,
    stray: Option<Stray>,
    steps: u64,
    r: &Words,
    before: &[u64],
    after: &[u64],
    out: &mut [u8],
) -> usize
    ensures wrote { Wrote out.old 0
        (report_of ending stray steps (state_of r.now) before.now after.now) out.new result }
    ensures upper_bound { length before.now ≤ 65536 → result ≤ 8192 + 22 * length before.now }
{
    let second = put_stop(out, ending);
    let third = put_outside(out, second, stray);
    let fourth = put_line(out, third, b"steps=", steps, 10, 1);
    let changed = put_state(out, fourth, r);
    put_changed(out, changed, before, after)
}

// The same of a bad sheet, by its line.
pub fn refused(line: u64, out: &mut [u8]) -> usize
    ensures { Wrote out.old 0 (refused_of line) out.new result × (result ≤ 272) }
{
    let second = put_line(out, 0, b"refused=", 8, 10, 1);
    put_line(out, second, b"line=", line, 10, 1)
}
