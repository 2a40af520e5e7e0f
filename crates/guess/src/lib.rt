// A guess at the parcels that a line stands for: the signs at a few places tell its row, and the row tells where its digits stand.
// A guess reads within 32 bytes, and newlines are taken to follow a text that has fewer.
#![tactic(auto, using(crate::proofs::Told::told_rules))]

ghost use Rattle.std.specs.Prelude.{◌≡◌, ℕ, ◌^◌, ◌≤◌, ◌<◌, List, ◌++◌};
ghost use Rattle.spelling.specs.Candidate.{bytes_of, told, line_aa, line_a, line_ss, line_s, line_vs, line_vv, line_vm, line_vi, line_v, line_e};
ghost use Rattle.spelling.specs.Candidate.{line_c, jumps, line_j, line_d, line_comma, line_sign, number_at, code_row, digit_row, row_seen, plan_of};
ghost use Rattle.spelling.specs.Candidate.{plan_table, digit_at, one as one_parcel, both, with_number, guess_with, guess_of};
ghost use Rattle.guess.specs.Meant.{meant};
ghost use Rattle.guess.specs.Numbers.{kind_of, numbers_of};

// How the number of a line is read: jk; jkm or ijkm; 64 - jk; a place indexed by Ah; one that begins the line.
#[derive(Clone, Copy)]
enum Kind {
    Jk,
    Jkm,
    Rest,
    Indexed,
    Leading,
}

// The plan of a row: the parcel without its operands; the places of the digits h, i, j and k in the line; the place of its number, or
// else of the newline; and how the number is read. A digit's place is 0 for none: no such digit stands first, and with an Option for
// each the table would be mostly None. The fields have no names, so that a row of the table stays a line.
#[derive(Clone, Copy)]
struct Plan(u16, u8, u8, u8, u8, u8, Option<Kind>);

// The plan of each row. Row 0 has no spelling, and row 107 is a line of data.
const PLANS: [Plan; 108] = [
    Plan(0o033000, 0, 0, 0, 0, 0, None), // no spelling
    Plan(0o000000, 0, 0, 0, 0, 3, None), // ERR
    Plan(0o001000, 0, 0, 0, 0, 4, None), // PASS
    Plan(0o001000, 0, 0, 4, 7, 8, None), // CA,Aj Ak
    Plan(0o001100, 0, 0, 4, 7, 8, None), // CL,Aj Ak
    Plan(0o001200, 0, 0, 4, 0, 5, None), // CI,Aj
    Plan(0o001201, 0, 0, 4, 0, 5, None), // MC,Aj
    Plan(0o001300, 0, 0, 4, 0, 5, None), // XA Aj
    Plan(0o001400, 0, 0, 4, 0, 5, None), // RT Sj
    Plan(0o001401, 0, 0, 0, 0, 4, None), // IP 1
    Plan(0o001402, 0, 0, 0, 0, 4, None), // IP 0
    Plan(0o001403, 0, 0, 4, 0, 5, None), // CLN j
    Plan(0o001404, 0, 0, 5, 0, 6, None), // PCI Sj
    Plan(0o001405, 0, 0, 0, 0, 3, None), // CCI
    Plan(0o001406, 0, 0, 0, 0, 3, None), // ECI
    Plan(0o001407, 0, 0, 0, 0, 3, None), // DCI
    Plan(0o002000, 0, 0, 0, 4, 5, None), // VL Ak
    Plan(0o002300, 0, 0, 0, 0, 3, None), // ERI
    Plan(0o002400, 0, 0, 0, 0, 3, None), // DRI
    Plan(0o002500, 0, 0, 0, 0, 3, None), // DBM
    Plan(0o002600, 0, 0, 0, 0, 3, None), // EBM
    Plan(0o002700, 0, 0, 0, 0, 3, None), // CMR
    Plan(0o003000, 0, 0, 4, 0, 5, None), // VM Sj
    Plan(0o004000, 0, 0, 0, 0, 2, None), // EX
    Plan(0o005000, 0, 0, 3, 4, 5, None), // J Bjk
    Plan(0o006000, 0, 0, 0, 0, 2, Some(Kind::Jkm)), // J exp
    Plan(0o007000, 0, 0, 0, 0, 2, Some(Kind::Jkm)), // R exp
    Plan(0o010000, 0, 0, 0, 0, 4, Some(Kind::Jkm)), // JAZ exp
    Plan(0o011000, 0, 0, 0, 0, 4, Some(Kind::Jkm)), // JAN exp
    Plan(0o012000, 0, 0, 0, 0, 4, Some(Kind::Jkm)), // JAP exp
    Plan(0o013000, 0, 0, 0, 0, 4, Some(Kind::Jkm)), // JAM exp
    Plan(0o014000, 0, 0, 0, 0, 4, Some(Kind::Jkm)), // JSZ exp
    Plan(0o015000, 0, 0, 0, 0, 4, Some(Kind::Jkm)), // JSN exp
    Plan(0o016000, 0, 0, 0, 0, 4, Some(Kind::Jkm)), // JSP exp
    Plan(0o017000, 0, 0, 0, 0, 4, Some(Kind::Jkm)), // JSM exp
    Plan(0o010400, 2, 0, 0, 0, 7, Some(Kind::Jkm)), // 01h Ah exp
    Plan(0o020000, 0, 5, 0, 0, 7, Some(Kind::Jkm)), // 020 Ai exp
    Plan(0o021000, 0, 5, 0, 0, 7, Some(Kind::Jkm)), // 021 Ai exp
    Plan(0o022000, 0, 5, 0, 0, 7, Some(Kind::Jk)), // 022 Ai exp
    Plan(0o023000, 0, 1, 4, 0, 5, None), // Ai Sj
    Plan(0o023001, 0, 1, 0, 0, 5, None), // Ai VL
    Plan(0o024000, 0, 1, 4, 5, 6, None), // Ai Bjk
    Plan(0o025000, 0, 5, 1, 2, 6, None), // Bjk Ai
    Plan(0o026000, 0, 1, 5, 0, 6, None), // Ai PSj
    Plan(0o026001, 0, 1, 5, 0, 6, None), // Ai QSj
    Plan(0o027000, 0, 1, 5, 0, 6, None), // Ai ZSj
    Plan(0o030000, 0, 1, 4, 7, 8, None), // Ai Aj+Ak
    Plan(0o031000, 0, 1, 4, 7, 8, None), // Ai Aj-Ak
    Plan(0o032000, 0, 1, 4, 7, 8, None), // Ai Aj*Ak
    Plan(0o034000, 0, 5, 1, 2, 10, None), // Bjk,Ai ,A0
    Plan(0o035000, 0, 9, 5, 6, 10, None), // ,A0 Bjk,Ai
    Plan(0o036000, 0, 5, 1, 2, 10, None), // Tjk,Ai ,A0
    Plan(0o037000, 0, 9, 5, 6, 10, None), // ,A0 Tjk,Ai
    Plan(0o040000, 0, 5, 0, 0, 7, Some(Kind::Jkm)), // 040 Si exp
    Plan(0o041000, 0, 5, 0, 0, 7, Some(Kind::Jkm)), // 041 Si exp
    Plan(0o042000, 0, 1, 0, 0, 4, Some(Kind::Rest)), // Si <exp
    Plan(0o043000, 0, 1, 0, 0, 4, Some(Kind::Jk)), // Si >exp
    Plan(0o044000, 0, 1, 4, 7, 8, None), // Si Sj&Sk
    Plan(0o045000, 0, 1, 8, 5, 9, None), // Si #Sk&Sj
    Plan(0o046000, 0, 1, 4, 7, 8, None), // Si Sj\Sk
    Plan(0o047000, 0, 1, 5, 8, 9, None), // Si #Sj\Sk
    Plan(0o050000, 0, 1, 4, 10, 11, None), // Si Sj!Si&Sk
    Plan(0o051000, 0, 1, 4, 7, 8, None), // Si Sj!Sk
    Plan(0o052000, 0, 8, 0, 0, 10, Some(Kind::Jk)), // 052 S0 Si<exp
    Plan(0o053000, 0, 8, 0, 0, 10, Some(Kind::Jk)), // 053 S0 Si>exp
    Plan(0o054000, 0, 5, 0, 0, 10, Some(Kind::Jk)), // 054 Si Si<exp
    Plan(0o055000, 0, 5, 0, 0, 10, Some(Kind::Jk)), // 055 Si Si>exp
    Plan(0o056000, 0, 1, 7, 10, 11, None), // Si Si,Sj<Ak
    Plan(0o057000, 0, 1, 4, 10, 11, None), // Si Sj,Si>Ak
    Plan(0o060000, 0, 1, 4, 7, 8, None), // Si Sj+Sk
    Plan(0o061000, 0, 1, 4, 7, 8, None), // Si Sj-Sk
    Plan(0o071000, 0, 1, 0, 4, 5, None), // Si Ak
    Plan(0o071010, 0, 1, 0, 5, 6, None), // Si +Ak
    Plan(0o073000, 0, 1, 0, 0, 5, None), // Si VM
    Plan(0o073001, 0, 1, 0, 0, 6, None), // Si SR0
    Plan(0o074000, 0, 1, 4, 5, 6, None), // Si Tjk
    Plan(0o075000, 0, 5, 1, 2, 6, None), // Tjk Si
    Plan(0o076000, 0, 1, 4, 7, 8, None), // Si Vj,Ak
    Plan(0o077000, 0, 1, 7, 4, 8, None), // Vi,Ak Sj
    Plan(0o100000, 0, 1, 0, 0, 3, Some(Kind::Indexed)), // Ai exp,Ah
    Plan(0o110000, 0, 0, 0, 0, 0, Some(Kind::Leading)), // exp,Ah Ai
    Plan(0o120000, 0, 1, 0, 0, 3, Some(Kind::Indexed)), // Si exp,Ah
    Plan(0o130000, 0, 0, 0, 0, 0, Some(Kind::Leading)), // exp,Ah Si
    Plan(0o140000, 0, 1, 4, 7, 8, None), // Vi Sj&Vk
    Plan(0o141000, 0, 1, 4, 7, 8, None), // Vi Vj&Vk
    Plan(0o142000, 0, 1, 4, 7, 8, None), // Vi Sj!Vk
    Plan(0o143000, 0, 1, 4, 7, 8, None), // Vi Vj!Vk
    Plan(0o144000, 0, 1, 4, 7, 8, None), // Vi Sj\Vk
    Plan(0o145000, 0, 1, 4, 7, 8, None), // Vi Vj\Vk
    Plan(0o146000, 0, 1, 4, 7, 11, None), // Vi Sj!Vk&VM
    Plan(0o147000, 0, 1, 4, 7, 11, None), // Vi Vj!Vk&VM
    Plan(0o150000, 0, 1, 4, 7, 8, None), // Vi Vj<Ak
    Plan(0o151000, 0, 1, 4, 7, 8, None), // Vi Vj>Ak
    Plan(0o152000, 0, 1, 4, 10, 11, None), // Vi Vj,Vj<Ak
    Plan(0o153000, 0, 1, 4, 10, 11, None), // Vi Vj,Vj>Ak
    Plan(0o154000, 0, 1, 4, 7, 8, None), // Vi Sj+Vk
    Plan(0o155000, 0, 1, 4, 7, 8, None), // Vi Vj+Vk
    Plan(0o156000, 0, 1, 4, 7, 8, None), // Vi Sj-Vk
    Plan(0o157000, 0, 1, 4, 7, 8, None), // Vi Vj-Vk
    Plan(0o174001, 0, 1, 5, 0, 6, None), // Vi PVj
    Plan(0o174002, 0, 1, 5, 0, 6, None), // Vi QVj
    Plan(0o175000, 0, 0, 4, 0, 7, None), // VM Vj,Z
    Plan(0o175001, 0, 0, 4, 0, 7, None), // VM Vj,N
    Plan(0o175002, 0, 0, 4, 0, 7, None), // VM Vj,P
    Plan(0o175003, 0, 0, 4, 0, 7, None), // VM Vj,M
    Plan(0o176000, 0, 1, 0, 8, 9, None), // Vi ,A0,Ak
    Plan(0o177000, 0, 0, 8, 5, 9, None), // ,A0,Ak Vj
    Plan(0o000000, 0, 0, 0, 0, 5, Some(Kind::Jk)), // data=
];

// A number read, and the place after it.
#[derive(Clone, Copy)]
struct Numeral {
    value: u64,
    end: usize,
}

// From here on a function to each tree of the definitions. They have one shape, and each asks of other signs.

// Ai and an A register: a sum, a difference or a product.
fn line_aa(line: &[u8; 32]) -> usize
    ensures { (result ≡ told line_aa (bytes_of line.now)) × (result < 108) }
{
    match line[5] {
        b'+' => 46,
        b'-' => 47,
        _ => 48,
    }
}

// Ai: by what stands behind the blank.
fn line_a(line: &[u8; 32]) -> usize
    ensures { (result ≡ told line_a (bytes_of line.now)) × (result < 108) }
{
    match line[3] {
        b'A' => line_aa(line),
        b'S' => 39,
        b'V' => 40,
        b'B' => 41,
        b'P' => 43,
        b'Q' => 44,
        b'Z' => 45,
        _ => 79,
    }
}

// Si and an S register: by the sign after it.
fn line_ss(line: &[u8; 32]) -> usize
    ensures { (result ≡ told line_ss (bytes_of line.now)) × (result < 108) }
{
    match line[5] {
        b'&' => 57,
        b'\\' => 59,
        b'!' => if line[8] == b'&' { 61 } else { 62 },
        b',' => if line[8] == b'<' { 67 } else { 68 },
        b'+' => 69,
        b'-' => 70,
        _ => 74,
    }
}

// Si: by what stands behind the blank.
fn line_s(line: &[u8; 32]) -> usize
    ensures { (result ≡ told line_s (bytes_of line.now)) × (result < 108) }
{
    match line[3] {
        b'S' => line_ss(line),
        b'A' => 71,
        b'+' => 72,
        b'V' => if line[4] == b'M' { 73 } else { 77 },
        b'T' => 75,
        b'<' => 55,
        b'>' => 56,
        b'#' => if line[6] == b'&' { 58 } else { 60 },
        _ => 81,
    }
}

// Vi and an S register: by the sign after it.
fn line_vs(line: &[u8; 32]) -> usize
    ensures { (result ≡ told line_vs (bytes_of line.now)) × (result < 108) }
{
    match line[5] {
        b'&' => 83,
        b'!' => if line[8] == b'&' { 89 } else { 85 },
        b'\\' => 87,
        b'+' => 95,
        _ => 97,
    }
}

// Vi and a V register: by the sign after it.
fn line_vv(line: &[u8; 32]) -> usize
    ensures { (result ≡ told line_vv (bytes_of line.now)) × (result < 108) }
{
    match line[5] {
        b'&' => 84,
        b'!' => if line[8] == b'&' { 90 } else { 86 },
        b'\\' => 88,
        b'<' => 91,
        b'>' => 92,
        b',' => if line[8] == b'<' { 93 } else { 94 },
        b'+' => 96,
        _ => 98,
    }
}

// VM: from an S register, or by the test of a V register.
fn line_vm(line: &[u8; 32]) -> usize
    ensures { (result ≡ told line_vm (bytes_of line.now)) × (result < 108) }
{
    if line[3] == b'S' {
        return 22;
    }
    match line[6] {
        b'Z' => 101,
        b'N' => 102,
        b'P' => 103,
        _ => 104,
    }
}

// Vi: by what stands behind the blank, or a comma if an element is stored.
fn line_vi(line: &[u8; 32]) -> usize
    ensures { (result ≡ told line_vi (bytes_of line.now)) × (result < 108) }
{
    match line[3] {
        b'S' => line_vs(line),
        b'V' => line_vv(line),
        b'P' => 99,
        b'Q' => 100,
        b',' => 105,
        _ => 78,
    }
}

// VL, VM, or Vi.
fn line_v(line: &[u8; 32]) -> usize
    ensures { (result ≡ told line_v (bytes_of line.now)) × (result < 108) }
{
    match line[1] {
        b'L' => 16,
        b'M' => line_vm(line),
        _ => line_vi(line),
    }
}

// ERR, ERI, ECI, EBM, EX.
fn line_e(line: &[u8; 32]) -> usize
    ensures { (result ≡ told line_e (bytes_of line.now)) × (result < 108) }
{
    match line[1] {
        b'R' => if line[2] == b'R' { 1 } else { 17 },
        b'C' => 14,
        b'B' => 20,
        _ => 23,
    }
}

// CA, CL, CLN, CI, CCI, CMR.
fn line_c(line: &[u8; 32]) -> usize
    ensures { (result ≡ told line_c (bytes_of line.now)) × (result < 108) }
{
    match line[1] {
        b'A' => 3,
        b'L' => if line[2] == b',' { 4 } else { 11 },
        b'I' => 5,
        b'C' => 13,
        _ => 21,
    }
}

// A branch by what A0 or S0 is: zero, not zero, plus, minus.
fn jump(line: &[u8; 32], first: usize) -> usize
    requires { first < 100 }
    ensures { (result ≡ told (jumps first) (bytes_of line.now)) × (result < 108) }
{
    match line[2] {
        b'Z' => first,
        b'N' => first + 1,
        b'P' => first + 2,
        _ => first + 3,
    }
}

// Branches: on A0, on S0, always.
fn line_j(line: &[u8; 32]) -> usize
    ensures { (result ≡ told line_j (bytes_of line.now)) × (result < 108) }
{
    match line[1] {
        b'A' => jump(line, 27),
        b'S' => jump(line, 31),
        _ => if line[2] == b'B' { 24 } else { 25 },
    }
}

// DCI, DRI, DBM.
fn line_d(line: &[u8; 32]) -> usize
    ensures { (result ≡ told line_d (bytes_of line.now)) × (result < 108) }
{
    match line[1] {
        b'C' => 15,
        b'R' => 18,
        _ => 19,
    }
}

// ,A0: a vector or a block stored.
fn line_comma(line: &[u8; 32]) -> usize
    ensures { (result ≡ told line_comma (bytes_of line.now)) × (result < 108) }
{
    if line[3] == b',' {
        return 106;
    }
    if line[4] == b'B' { 50 } else { 52 }
}

// Lines that begin with a sign, by it; what begins with none of these is taken for data.
fn line_sign(line: &[u8; 32]) -> usize
    ensures { (result ≡ told line_sign (bytes_of line.now)) × (result < 108) }
{
    match line[0] {
        b'A' => line_a(line),
        b'S' => line_s(line),
        b'V' => line_v(line),
        b'J' => line_j(line),
        b'B' => if line[3] == b',' { 49 } else { 42 },
        b'T' => if line[3] == b',' { 51 } else { 76 },
        b',' => line_comma(line),
        b'C' => line_c(line),
        b'D' => line_d(line),
        b'E' => line_e(line),
        b'I' => if line[3] == b'1' { 9 } else { 10 },
        b'M' => 6,
        b'P' => if line[1] == b'A' { 2 } else { 12 },
        b'R' => if line[1] == b'T' { 8 } else { 26 },
        b'X' => 7,
        _ => 107,
    }
}

// Reads octal digits from a place on.
fn number(line: &[u8; 32], start: usize) -> Numeral
    requires { start ≤ 16 }
    ensures number { (result.value ≡ (number_at (bytes_of line.now) start).value) × (result.value < 2 ^ 32) }
    ensures after { (result.end ≡ (number_at (bytes_of line.now) start).end) × (result.end ≤ 16) }
{
    let mut value: u64 = 0;
    for p in start..16 {
        let b = line[p];
        if b < b'0' || b'8' <= b {
            return Numeral { value, end: p };
        }
        value = (value * 8 + b as u64 % 8) % 4294967296;
    }
    Numeral { value, end: 16 }
}

// The row of a line's code.
#[tactic(auto, using(crate::proofs::Told::seen_rules), unfolding(spelling::specs::Candidate::code_row))]
fn code_row(code: u64) -> usize
    ensures { (result ≡ code_row code) × (result < 108) }
{
    match code {
        0o20 => 36,
        0o21 => 37,
        0o22 => 38,
        0o40 => 53,
        0o41 => 54,
        0o52 => 63,
        0o53 => 64,
        0o54 => 65,
        0o55 => 66,
        _ => 35,
    }
}

// Lines that begin with a digit: a code and a blank, or an indexed place.
#[tactic(auto, using(crate::proofs::Told::seen_rules), unfolding(spelling::specs::Candidate::digit_row))]
fn digit_row(line: &[u8; 32]) -> usize
    ensures { (result ≡ digit_row (bytes_of line.now)) × (result < 108) }
{
    if line[3] == b' ' {
        return code_row(line[1] as u64 % 8 * 8 + line[2] as u64 % 8);
    }
    let n = number(line, 0);
    if line[n.end + 4] == b'A' { 80 } else { 82 }
}

// The row of a line.
#[tactic(auto, using(crate::proofs::Told::seen_rules), unfolding(spelling::specs::Candidate::row_seen))]
fn row_seen(line: &[u8; 32]) -> usize
    ensures { (result ≡ row_seen (bytes_of line.now)) × (result < 108) }
{
    let b = line[0];
    if b'0' <= b && b < b'8' {
        return digit_row(line);
    }
    line_sign(line)
}

// The digit at a place, 0 for none.
#[tactic(auto, using(crate::proofs::Told::seen_rules))]
fn digit(line: &[u8; 32], p: u8) -> u64
    requires { p < 32 }
    ensures { (result ≡ digit_at (bytes_of line.now) p) × (result < 8) }
{
    if p == 0 {
        0
    } else {
        line[p as usize] as u64 % 8
    }
}

// What a line may stand for: one parcel or two; and how many bytes it has.
#[derive(Clone, Copy)]
pub struct Guess {
    pub first: u16,
    pub second: Option<u16>,
    pub length: u8,
}

fn one(first: u64, length: usize) -> Guess
    requires { length ≤ 255 }
    ensures { result ≡ meant (one_parcel first length) }
{
    Guess {
        first: (first % 65536) as u16,
        second: None,
        length: length as u8,
    }
}

fn two(first: u64, second: u64, length: usize) -> Guess
    requires { length ≤ 255 }
    ensures { result ≡ meant (both first second length) }
{
    Guess {
        first: (first % 65536) as u16,
        second: Some((second % 65536) as u16),
        length: length as u8,
    }
}

// The guess of a line with a number, x being the parcel without it.
#[tactic(auto, using(crate::proofs::Told::seen_rules), unfolding(spelling::specs::Candidate::with_number))]
fn with_number(line: &[u8; 32], kind: Kind, x: u64, n: Numeral) -> Guess
    requires { (x < 2 ^ 32) × (n.value < 2 ^ 32) × (n.end ≤ 16) }
    ensures { result ≡ meant (with_number (bytes_of line.now) (kind_of kind) x (record { value = n.value; end = n.end })) }
{
    let v = n.value;
    let e = n.end;
    match kind {
        Kind::Jk => one(x + v, e + 1),
        Kind::Jkm => two(x + v / 65536, v, e + 1),
        Kind::Rest => one(x + 65600 - v % 65536, e + 1),
        Kind::Indexed => {
            let h = line[e + 2] as u64 % 8;
            two(x + v / 65536 + h * 512, v, e + 4)
        }
        Kind::Leading => {
            let h = line[e + 2] as u64 % 8;
            let i = line[e + 5] as u64 % 8;
            two(x + v / 65536 + h * 512 + i * 64, v, e + 7)
        }
    }
}

// The plans of all rows. A constant table is made anew wherever it is read, so they are made once for a text and lent.
#[derive(Drop)]
pub struct Plans {
    plans: [Plan; 108],
    ghost are_plans: { numbers_of plans ≡ plan_table },
}

impl Plans {
    pub fn new() -> Plans
        ensures { numbers_of result.plans ≡ plan_table }
    {
        Plans { plans: PLANS }
    }

    // The guess of a line of a row.
    #[tactic(auto, using(crate::proofs::Laws::places_found))]
    fn guess_with(&self, line: &[u8; 32], row: usize) -> Guess
        requires { row < 108 }
        ensures { result ≡ meant (guess_with (bytes_of line.now) (plan_of row)) }
    {
        let Plan(parcel, h, i, j, k, end, kind) = self.plans[row];
        let high = parcel as u64 + digit(line, h) * 512 + digit(line, i) * 64;
        let x = high + digit(line, j) * 8 + digit(line, k);
        let Some(kind) = kind else {
            return one(x, end as usize + 1);
        };
        with_number(line, kind, x, number(line, end as usize))
    }

    // The guess of the line that 32 bytes begin with, whatever follows them.
    pub fn guess(&self, line: &[u8; 32]) -> Guess
        ensures { (rest : List ℕ) → result ≡ meant (guess_of (line.now ++ rest)) }
    {
        self.guess_with(line, row_seen(line))
    }
}
