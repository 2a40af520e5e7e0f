// The line of an instruction: its row in the table of forms, its operands, its text.
#![tactic(auto)]

ghost use Rattle.std.specs.Prelude.{◌≡◌, ◌++◌, ◌+◌, ◌%◌, ◌≤◌, ◌<◌, length, get_or, drop};
ghost use Rattle.text.specs.Digits.{glyph_of, digits, shown};
ghost use Rattle.text.specs.Report.{Wrote};
ghost use Rattle.spelling.specs.Words.{fields_of, operand_by, operand_text};
ghost use Rattle.spelling.specs.Spelling.{second};
ghost use Rattle.spelling.specs.Listing.{data_line, line_of};
ghost use Rattle.spelling.specs.Rows.{within, row0014, row001, row002, row023, plain_rows, row_by, row_of, code_at, form_table};
ghost use Rattle.spelling.specs.Rows.{operand_table, instruction_by, signs_of, after_signs, Ends, spelled_of, Small, Ready};
ghost use Rattle.spelling.specs.declared.Operand.TheVariants.{Register, Indexed};
ghost use Rattle.line.specs.Joined.{joined, codes_of};

use spelling::{Instruction, Operand};

// Rows 1 to 106 are the instructions in the manual's order; row 0 has no spelling.

// The form of each row, twelve bytes: its signs, 0 where an operand stands, and a newline.
const FORMS: [[u8; 12]; 107] = [
    *b"\n\n\n\n\n\n\n\n\n\n\n\n", // no spelling
    *b"ERR\n\n\n\n\n\n\n\n\n", // ERR
    *b"PASS\n\n\n\n\n\n\n\n", // PASS
    *b"CA,\0 \0\n\n\n\n\n\n", // CA,Aj Ak
    *b"CL,\0 \0\n\n\n\n\n\n", // CL,Aj Ak
    *b"CI,\0\n\n\n\n\n\n\n\n", // CI,Aj
    *b"MC,\0\n\n\n\n\n\n\n\n", // MC,Aj
    *b"XA \0\n\n\n\n\n\n\n\n", // XA Aj
    *b"RT \0\n\n\n\n\n\n\n\n", // RT Sj
    *b"IP 1\n\n\n\n\n\n\n\n", // IP 1
    *b"IP 0\n\n\n\n\n\n\n\n", // IP 0
    *b"CLN \0\n\n\n\n\n\n\n", // CLN j
    *b"PCI \0\n\n\n\n\n\n\n", // PCI Sj
    *b"CCI\n\n\n\n\n\n\n\n\n", // CCI
    *b"ECI\n\n\n\n\n\n\n\n\n", // ECI
    *b"DCI\n\n\n\n\n\n\n\n\n", // DCI
    *b"VL \0\n\n\n\n\n\n\n\n", // VL Ak
    *b"ERI\n\n\n\n\n\n\n\n\n", // ERI
    *b"DRI\n\n\n\n\n\n\n\n\n", // DRI
    *b"DBM\n\n\n\n\n\n\n\n\n", // DBM
    *b"EBM\n\n\n\n\n\n\n\n\n", // EBM
    *b"CMR\n\n\n\n\n\n\n\n\n", // CMR
    *b"VM \0\n\n\n\n\n\n\n\n", // VM Sj
    *b"EX\n\n\n\n\n\n\n\n\n\n", // EX
    *b"J \0\n\n\n\n\n\n\n\n\n", // J Bjk
    *b"J \0\n\n\n\n\n\n\n\n\n", // J exp
    *b"R \0\n\n\n\n\n\n\n\n\n", // R exp
    *b"JAZ \0\n\n\n\n\n\n\n", // JAZ exp
    *b"JAN \0\n\n\n\n\n\n\n", // JAN exp
    *b"JAP \0\n\n\n\n\n\n\n", // JAP exp
    *b"JAM \0\n\n\n\n\n\n\n", // JAM exp
    *b"JSZ \0\n\n\n\n\n\n\n", // JSZ exp
    *b"JSN \0\n\n\n\n\n\n\n", // JSN exp
    *b"JSP \0\n\n\n\n\n\n\n", // JSP exp
    *b"JSM \0\n\n\n\n\n\n\n", // JSM exp
    *b"01\0 \0 \0\n\n\n\n\n", // 01h Ah exp
    *b"020 \0 \0\n\n\n\n\n", // 020 Ai exp
    *b"021 \0 \0\n\n\n\n\n", // 021 Ai exp
    *b"022 \0 \0\n\n\n\n\n", // 022 Ai exp
    *b"\0 \0\n\n\n\n\n\n\n\n\n", // Ai Sj
    *b"\0 VL\n\n\n\n\n\n\n\n", // Ai VL
    *b"\0 \0\n\n\n\n\n\n\n\n\n", // Ai Bjk
    *b"\0 \0\n\n\n\n\n\n\n\n\n", // Bjk Ai
    *b"\0 P\0\n\n\n\n\n\n\n\n", // Ai PSj
    *b"\0 Q\0\n\n\n\n\n\n\n\n", // Ai QSj
    *b"\0 Z\0\n\n\n\n\n\n\n\n", // Ai ZSj
    *b"\0 \0+\0\n\n\n\n\n\n\n", // Ai Aj+Ak
    *b"\0 \0-\0\n\n\n\n\n\n\n", // Ai Aj-Ak
    *b"\0 \0*\0\n\n\n\n\n\n\n", // Ai Aj*Ak
    *b"\0,\0 ,A0\n\n\n\n\n", // Bjk,Ai ,A0
    *b",A0 \0,\0\n\n\n\n\n", // ,A0 Bjk,Ai
    *b"\0,\0 ,A0\n\n\n\n\n", // Tjk,Ai ,A0
    *b",A0 \0,\0\n\n\n\n\n", // ,A0 Tjk,Ai
    *b"040 \0 \0\n\n\n\n\n", // 040 Si exp
    *b"041 \0 \0\n\n\n\n\n", // 041 Si exp
    *b"\0 <\0\n\n\n\n\n\n\n\n", // Si <exp
    *b"\0 >\0\n\n\n\n\n\n\n\n", // Si >exp
    *b"\0 \0&\0\n\n\n\n\n\n\n", // Si Sj&Sk
    *b"\0 #\0&\0\n\n\n\n\n\n", // Si #Sk&Sj
    *b"\0 \0\\\0\n\n\n\n\n\n\n", // Si Sj\Sk
    *b"\0 #\0\\\0\n\n\n\n\n\n", // Si #Sj\Sk
    *b"\0 \0!\0&\0\n\n\n\n\n", // Si Sj!Si&Sk
    *b"\0 \0!\0\n\n\n\n\n\n\n", // Si Sj!Sk
    *b"052 S0 \0<\0\n\n", // 052 S0 Si<exp
    *b"053 S0 \0>\0\n\n", // 053 S0 Si>exp
    *b"054 \0 \0<\0\n\n\n", // 054 Si Si<exp
    *b"055 \0 \0>\0\n\n\n", // 055 Si Si>exp
    *b"\0 \0,\0<\0\n\n\n\n\n", // Si Si,Sj<Ak
    *b"\0 \0,\0>\0\n\n\n\n\n", // Si Sj,Si>Ak
    *b"\0 \0+\0\n\n\n\n\n\n\n", // Si Sj+Sk
    *b"\0 \0-\0\n\n\n\n\n\n\n", // Si Sj-Sk
    *b"\0 \0\n\n\n\n\n\n\n\n\n", // Si Ak
    *b"\0 +\0\n\n\n\n\n\n\n\n", // Si +Ak
    *b"\0 VM\n\n\n\n\n\n\n\n", // Si VM
    *b"\0 SR0\n\n\n\n\n\n\n", // Si SR0
    *b"\0 \0\n\n\n\n\n\n\n\n\n", // Si Tjk
    *b"\0 \0\n\n\n\n\n\n\n\n\n", // Tjk Si
    *b"\0 \0,\0\n\n\n\n\n\n\n", // Si Vj,Ak
    *b"\0,\0 \0\n\n\n\n\n\n\n", // Vi,Ak Sj
    *b"\0 \0\n\n\n\n\n\n\n\n\n", // Ai exp,Ah
    *b"\0 \0\n\n\n\n\n\n\n\n\n", // exp,Ah Ai
    *b"\0 \0\n\n\n\n\n\n\n\n\n", // Si exp,Ah
    *b"\0 \0\n\n\n\n\n\n\n\n\n", // exp,Ah Si
    *b"\0 \0&\0\n\n\n\n\n\n\n", // Vi Sj&Vk
    *b"\0 \0&\0\n\n\n\n\n\n\n", // Vi Vj&Vk
    *b"\0 \0!\0\n\n\n\n\n\n\n", // Vi Sj!Vk
    *b"\0 \0!\0\n\n\n\n\n\n\n", // Vi Vj!Vk
    *b"\0 \0\\\0\n\n\n\n\n\n\n", // Vi Sj\Vk
    *b"\0 \0\\\0\n\n\n\n\n\n\n", // Vi Vj\Vk
    *b"\0 \0!\0&VM\n\n\n\n", // Vi Sj!Vk&VM
    *b"\0 \0!\0&VM\n\n\n\n", // Vi Vj!Vk&VM
    *b"\0 \0<\0\n\n\n\n\n\n\n", // Vi Vj<Ak
    *b"\0 \0>\0\n\n\n\n\n\n\n", // Vi Vj>Ak
    *b"\0 \0,\0<\0\n\n\n\n\n", // Vi Vj,Vj<Ak
    *b"\0 \0,\0>\0\n\n\n\n\n", // Vi Vj,Vj>Ak
    *b"\0 \0+\0\n\n\n\n\n\n\n", // Vi Sj+Vk
    *b"\0 \0+\0\n\n\n\n\n\n\n", // Vi Vj+Vk
    *b"\0 \0-\0\n\n\n\n\n\n\n", // Vi Sj-Vk
    *b"\0 \0-\0\n\n\n\n\n\n\n", // Vi Vj-Vk
    *b"\0 P\0\n\n\n\n\n\n\n\n", // Vi PVj
    *b"\0 Q\0\n\n\n\n\n\n\n\n", // Vi QVj
    *b"VM \0,Z\n\n\n\n\n\n", // VM Vj,Z
    *b"VM \0,N\n\n\n\n\n\n", // VM Vj,N
    *b"VM \0,P\n\n\n\n\n\n", // VM Vj,P
    *b"VM \0,M\n\n\n\n\n\n", // VM Vj,M
    *b"\0 ,A0,\0\n\n\n\n\n", // Vi ,A0,Ak
    *b",A0,\0 \0\n\n\n\n\n", // ,A0,Ak Vj
];

// The codes of operands, as the definition's words have them: a register's letter, or 0 for a constant, 1 for an indexed place, 2
// for 64 less a constant, times 8; and the field that it is made of.
const A_H: u16 = 8 * b'A' as u16 + 1;

const A_I: u16 = 8 * b'A' as u16 + 2;

const A_J: u16 = 8 * b'A' as u16 + 3;

const A_K: u16 = 8 * b'A' as u16 + 4;

const S_I: u16 = 8 * b'S' as u16 + 2;

const S_J: u16 = 8 * b'S' as u16 + 3;

const S_K: u16 = 8 * b'S' as u16 + 4;

const V_I: u16 = 8 * b'V' as u16 + 2;

const V_J: u16 = 8 * b'V' as u16 + 3;

const V_K: u16 = 8 * b'V' as u16 + 4;

const B_JK: u16 = 8 * b'B' as u16 + 5;

const T_JK: u16 = 8 * b'T' as u16 + 5;

const H: u16 = 1;

const J: u16 = 3;

const JK: u16 = 5;

const JKM: u16 = 6;

const IJKM: u16 = 7;

const JKM_A_H: u16 = 8 + 6;

const LESS_JK: u16 = 16 + 5;

// The operands of a row, in the order of its line, 0 past the last.
#[derive(Clone, Copy)]
struct Codes(u16, u16, u16, u16);

const OPERANDS: [Codes; 107] = [
    Codes(0, 0, 0, 0), // no spelling
    Codes(0, 0, 0, 0), // ERR
    Codes(0, 0, 0, 0), // PASS
    Codes(A_J, A_K, 0, 0), // CA,Aj Ak
    Codes(A_J, A_K, 0, 0), // CL,Aj Ak
    Codes(A_J, 0, 0, 0), // CI,Aj
    Codes(A_J, 0, 0, 0), // MC,Aj
    Codes(A_J, 0, 0, 0), // XA Aj
    Codes(S_J, 0, 0, 0), // RT Sj
    Codes(0, 0, 0, 0), // IP 1
    Codes(0, 0, 0, 0), // IP 0
    Codes(J, 0, 0, 0), // CLN j
    Codes(S_J, 0, 0, 0), // PCI Sj
    Codes(0, 0, 0, 0), // CCI
    Codes(0, 0, 0, 0), // ECI
    Codes(0, 0, 0, 0), // DCI
    Codes(A_K, 0, 0, 0), // VL Ak
    Codes(0, 0, 0, 0), // ERI
    Codes(0, 0, 0, 0), // DRI
    Codes(0, 0, 0, 0), // DBM
    Codes(0, 0, 0, 0), // EBM
    Codes(0, 0, 0, 0), // CMR
    Codes(S_J, 0, 0, 0), // VM Sj
    Codes(0, 0, 0, 0), // EX
    Codes(B_JK, 0, 0, 0), // J Bjk
    Codes(IJKM, 0, 0, 0), // J exp
    Codes(IJKM, 0, 0, 0), // R exp
    Codes(IJKM, 0, 0, 0), // JAZ exp
    Codes(IJKM, 0, 0, 0), // JAN exp
    Codes(IJKM, 0, 0, 0), // JAP exp
    Codes(IJKM, 0, 0, 0), // JAM exp
    Codes(IJKM, 0, 0, 0), // JSZ exp
    Codes(IJKM, 0, 0, 0), // JSN exp
    Codes(IJKM, 0, 0, 0), // JSP exp
    Codes(IJKM, 0, 0, 0), // JSM exp
    Codes(H, A_H, IJKM, 0), // 01h Ah exp
    Codes(A_I, JKM, 0, 0), // 020 Ai exp
    Codes(A_I, JKM, 0, 0), // 021 Ai exp
    Codes(A_I, JK, 0, 0), // 022 Ai exp
    Codes(A_I, S_J, 0, 0), // Ai Sj
    Codes(A_I, 0, 0, 0), // Ai VL
    Codes(A_I, B_JK, 0, 0), // Ai Bjk
    Codes(B_JK, A_I, 0, 0), // Bjk Ai
    Codes(A_I, S_J, 0, 0), // Ai PSj
    Codes(A_I, S_J, 0, 0), // Ai QSj
    Codes(A_I, S_J, 0, 0), // Ai ZSj
    Codes(A_I, A_J, A_K, 0), // Ai Aj+Ak
    Codes(A_I, A_J, A_K, 0), // Ai Aj-Ak
    Codes(A_I, A_J, A_K, 0), // Ai Aj*Ak
    Codes(B_JK, A_I, 0, 0), // Bjk,Ai ,A0
    Codes(B_JK, A_I, 0, 0), // ,A0 Bjk,Ai
    Codes(T_JK, A_I, 0, 0), // Tjk,Ai ,A0
    Codes(T_JK, A_I, 0, 0), // ,A0 Tjk,Ai
    Codes(S_I, JKM, 0, 0), // 040 Si exp
    Codes(S_I, JKM, 0, 0), // 041 Si exp
    Codes(S_I, LESS_JK, 0, 0), // Si <exp
    Codes(S_I, JK, 0, 0), // Si >exp
    Codes(S_I, S_J, S_K, 0), // Si Sj&Sk
    Codes(S_I, S_K, S_J, 0), // Si #Sk&Sj
    Codes(S_I, S_J, S_K, 0), // Si Sj\Sk
    Codes(S_I, S_J, S_K, 0), // Si #Sj\Sk
    Codes(S_I, S_J, S_I, S_K), // Si Sj!Si&Sk
    Codes(S_I, S_J, S_K, 0), // Si Sj!Sk
    Codes(S_I, JK, 0, 0), // 052 S0 Si<exp
    Codes(S_I, JK, 0, 0), // 053 S0 Si>exp
    Codes(S_I, S_I, JK, 0), // 054 Si Si<exp
    Codes(S_I, S_I, JK, 0), // 055 Si Si>exp
    Codes(S_I, S_I, S_J, A_K), // Si Si,Sj<Ak
    Codes(S_I, S_J, S_I, A_K), // Si Sj,Si>Ak
    Codes(S_I, S_J, S_K, 0), // Si Sj+Sk
    Codes(S_I, S_J, S_K, 0), // Si Sj-Sk
    Codes(S_I, A_K, 0, 0), // Si Ak
    Codes(S_I, A_K, 0, 0), // Si +Ak
    Codes(S_I, 0, 0, 0), // Si VM
    Codes(S_I, 0, 0, 0), // Si SR0
    Codes(S_I, T_JK, 0, 0), // Si Tjk
    Codes(T_JK, S_I, 0, 0), // Tjk Si
    Codes(S_I, V_J, A_K, 0), // Si Vj,Ak
    Codes(V_I, A_K, S_J, 0), // Vi,Ak Sj
    Codes(A_I, JKM_A_H, 0, 0), // Ai exp,Ah
    Codes(JKM_A_H, A_I, 0, 0), // exp,Ah Ai
    Codes(S_I, JKM_A_H, 0, 0), // Si exp,Ah
    Codes(JKM_A_H, S_I, 0, 0), // exp,Ah Si
    Codes(V_I, S_J, V_K, 0), // Vi Sj&Vk
    Codes(V_I, V_J, V_K, 0), // Vi Vj&Vk
    Codes(V_I, S_J, V_K, 0), // Vi Sj!Vk
    Codes(V_I, V_J, V_K, 0), // Vi Vj!Vk
    Codes(V_I, S_J, V_K, 0), // Vi Sj\Vk
    Codes(V_I, V_J, V_K, 0), // Vi Vj\Vk
    Codes(V_I, S_J, V_K, 0), // Vi Sj!Vk&VM
    Codes(V_I, V_J, V_K, 0), // Vi Vj!Vk&VM
    Codes(V_I, V_J, A_K, 0), // Vi Vj<Ak
    Codes(V_I, V_J, A_K, 0), // Vi Vj>Ak
    Codes(V_I, V_J, V_J, A_K), // Vi Vj,Vj<Ak
    Codes(V_I, V_J, V_J, A_K), // Vi Vj,Vj>Ak
    Codes(V_I, S_J, V_K, 0), // Vi Sj+Vk
    Codes(V_I, V_J, V_K, 0), // Vi Vj+Vk
    Codes(V_I, S_J, V_K, 0), // Vi Sj-Vk
    Codes(V_I, V_J, V_K, 0), // Vi Vj-Vk
    Codes(V_I, V_J, 0, 0), // Vi PVj
    Codes(V_I, V_J, 0, 0), // Vi QVj
    Codes(V_J, 0, 0, 0), // VM Vj,Z
    Codes(V_J, 0, 0, 0), // VM Vj,N
    Codes(V_J, 0, 0, 0), // VM Vj,P
    Codes(V_J, 0, 0, 0), // VM Vj,M
    Codes(V_I, A_K, 0, 0), // Vi ,A0,Ak
    Codes(A_K, V_J, 0, 0), // ,A0,Ak Vj
];

// The row of a code whose other digits are all free. A constant table would be made anew at every look; runs of codes as ranges, each a
// sum, cost a line listed or assembled 6 host instructions more.
fn plain_row(c: u64) -> u64
    requires { (16 ≤ c) × (c < 128) }
    ensures { result ≡ get_or plain_rows c 0 }
{
    match c {
        0o020 => 36,
        0o021 => 37,
        0o022 => 38,
        0o024 => 41,
        0o025 => 42,
        0o030 => 46,
        0o031 => 47,
        0o032 => 48,
        0o034 => 49,
        0o035 => 50,
        0o036 => 51,
        0o037 => 52,
        0o040 => 53,
        0o041 => 54,
        0o042 => 55,
        0o043 => 56,
        0o044 => 57,
        0o045 => 58,
        0o046 => 59,
        0o047 => 60,
        0o050 => 61,
        0o051 => 62,
        0o052 => 63,
        0o053 => 64,
        0o054 => 65,
        0o055 => 66,
        0o056 => 67,
        0o057 => 68,
        0o060 => 69,
        0o061 => 70,
        0o074 => 75,
        0o075 => 76,
        0o076 => 77,
        0o077 => 78,
        0o100 => 79,
        0o101 => 79,
        0o102 => 79,
        0o103 => 79,
        0o104 => 79,
        0o105 => 79,
        0o106 => 79,
        0o107 => 79,
        0o110 => 80,
        0o111 => 80,
        0o112 => 80,
        0o113 => 80,
        0o114 => 80,
        0o115 => 80,
        0o116 => 80,
        0o117 => 80,
        0o120 => 81,
        0o121 => 81,
        0o122 => 81,
        0o123 => 81,
        0o124 => 81,
        0o125 => 81,
        0o126 => 81,
        0o127 => 81,
        0o130 => 82,
        0o131 => 82,
        0o132 => 82,
        0o133 => 82,
        0o134 => 82,
        0o135 => 82,
        0o136 => 82,
        0o137 => 82,
        0o140 => 83,
        0o141 => 84,
        0o142 => 85,
        0o143 => 86,
        0o144 => 87,
        0o145 => 88,
        0o146 => 89,
        0o147 => 90,
        0o150 => 91,
        0o151 => 92,
        0o152 => 93,
        0o153 => 94,
        0o154 => 95,
        0o155 => 96,
        0o156 => 97,
        0o157 => 98,
        _ => 0,
    }
}

// Rows that go by a digit below n. Here and below 0 is no row, as in the definition: the tables have a row 0, and an Option in each of
// these would say no more.
#[tactic(auto, using(crate::proofs::Tests::tests), unfolding(spelling::specs::Rows::within))]
fn within(n: u64, first: u64, digit: u64) -> u64
    requires { (n < 100) × (first < 1000) }
    ensures { result ≡ within n first digit }
{
    if digit < n { first + digit } else { 0 }
}

// 0014jk.
#[tactic(auto, using(crate::proofs::Tests::tests), unfolding(spelling::specs::Rows::row0014))]
fn row_0014(j: u64, k: u64) -> u64
    ensures { result ≡ row0014 j k }
{
    if k == 0 {
        return 8;
    }
    if k == 3 {
        return if j < 4 { 11 } else { 0 };
    }
    if k == 4 {
        return 12;
    }
    if j != 0 {
        return 0;
    }
    match k {
        1 => 9,
        2 => 10,
        5 => 13,
        6 => 14,
        7 => 15,
        _ => 0,
    }
}

// 001ijk.
#[tactic(auto, using(crate::proofs::Tests::tests), unfolding(spelling::specs::Rows::row001))]
fn row_001(i: u64, j: u64, k: u64) -> u64
    requires { (j < 8) × (k < 8) }
    ensures { result ≡ row001 i j k }
{
    match i {
        0 => if j * 8 + k == 0 { 2 } else { 3 },
        1 => 4,
        2 => within(2, 5, k),
        3 => within(1, 7, k),
        4 => row_0014(j, k),
        _ => 0,
    }
}

// 002ijk.
#[tactic(auto, using(crate::proofs::Tests::tests), unfolding(spelling::specs::Rows::row002))]
fn row_002(i: u64, j: u64, k: u64) -> u64
    requires { i < 8 }
    ensures { result ≡ row002 i j k }
{
    if j != 0 {
        return 0;
    }
    if i == 0 {
        return 16;
    }
    if k != 0 {
        return 0;
    }
    if 3 <= i { 14 + i } else { 0 }
}

// 000 to 017, where the digit i tells branches from constants.
#[tactic(auto, using(crate::proofs::Tests::tests), unfolding(spelling::specs::Rows::row_by))]
fn low_row(c: u64, i: u64, j: u64, k: u64) -> u64
    requires { (c < 16) × (i < 8) × (j < 8) × (k < 8) }
    ensures { result ≡ row_by c i j k }
{
    match c {
        0 => within(1, 1, i * 64 + j * 8 + k),
        1 => row_001(i, j, k),
        2 => row_002(i, j, k),
        3 => if i == 0 { within(1, 22, k) } else { 0 },
        4 => within(1, 23, i * 64 + j * 8 + k),
        5 => within(1, 24, i),
        6 => if i < 4 { 25 } else { 0 },
        7 => if i < 4 { 26 } else { 0 },
        _ => if i < 4 { 19 + c } else { 35 },
    }
}

// 020 to 177. Most codes have one row whatever the other digits are.
#[tactic(auto, using(crate::proofs::Tests::tests), unfolding(spelling::specs::Rows::row_by))]
fn high_row(c: u64, i: u64, j: u64, k: u64) -> u64
    requires { (16 ≤ c) × (c < 128) × (i < 8) × (j < 8) × (k < 8) }
    ensures { result ≡ row_by c i j k }
{
    match c {
        0o023 => row_023(j, k),
        0o026 => within(2, 43, k),
        0o027 => within(1, 45, k),
        0o071 => within(2, 71, j),
        0o073 => within(2, 73, j * 8 + k),
        0o174 => if k == 0 { 0 } else { within(3, 98, k) },
        0o175 => if i == 0 { within(4, 101, k) } else { 0 },
        0o176 => within(1, 105, j),
        0o177 => within(1, 106, i),
        _ => plain_row(c),
    }
}

// 023ij0 and 023i01.
#[tactic(auto, using(crate::proofs::Tests::tests), unfolding(spelling::specs::Rows::row023))]
fn row_023(j: u64, k: u64) -> u64
    requires { (j < 8) × (k < 8) }
    ensures { result ≡ row023 j k }
{
    if k == 0 {
        return 39;
    }
    if j * 8 + k == 1 { 40 } else { 0 }
}

// The row of a first parcel.
#[tactic(auto, using(spelling::proofs::Table::row_small), unfolding(spelling::specs::Rows::row_of))]
fn row_of(x: u16) -> u64
    ensures { (result ≡ row_of x) × (result < 107) }
{
    let c = x as u64 / 512;
    let i = x as u64 / 64 % 8;
    let j = x as u64 / 8 % 8;
    let k = x as u64 % 8;
    if c < 16 {
        low_row(c, i, j, k)
    } else {
        high_row(c, i, j, k)
    }
}

// A first parcel, and its row, 0 if it has no spelling: looked up once, since the row tells whether a second parcel is to come, and
// then the line.
#[derive(Clone, Copy)]
pub struct First {
    pub parcel: u16,
    row: usize,
    ghost is_row: { (row ≡ row_of parcel) × (row < 107) },
}

impl First {
    pub fn new(parcel: u16) -> First
        ensures { result.parcel ≡ parcel }
    {
        First {
            parcel,
            row: row_of(parcel) as usize,
        }
    }

    // Whether the instruction has a second parcel, by the rows that do. As `matches!` of the three ranges it costs a line listed or
    // assembled 5 host instructions more.
    #[tactic(auto, using(crate::proofs::Tests::by_row), unfolding(spelling::specs::Rows::second_row))]
    pub fn has_second(self) -> bool
        ensures { result ≡ second self.parcel }
    {
        if self.row < 38 {
            return 25 <= self.row;
        }
        if self.row < 55 {
            return 53 <= self.row;
        }
        79 <= self.row && self.row < 83
    }
}

// The fields of an instruction's parcels, made once for all its operands.
fn fields(first: u16, second: u16) -> [u64; 8]
    ensures { result ≡ fields_of first second }
{
    let x = first as u64;
    let m = second as u64;
    [
        0,
        x / 512 % 8,
        x / 64 % 8,
        x / 8 % 8,
        x % 8,
        x % 64,
        x % 64 * 65536 + m,
        x % 256 * 65536 + m,
    ]
}

// The operand of a code. Registers, the most common, come first.
#[tactic(auto, using(crate::proofs::Tests::tests))]
fn operand(code: u16, fields: &[u64; 8]) -> Operand
    requires { code < 1024 }
    ensures { result ≡ operand_by code fields.now }
{
    let letter = code / 8;
    let f = code % 8;
    let v = fields[f as usize];
    if 2 < letter {
        return Operand::Register {
            letter: letter as u8,
            number: v,
            wide: f == 5,
        };
    }
    if letter == 0 {
        return Operand::Constant(v);
    }
    if letter == 1 {
        return Operand::Indexed {
            offset: v,
            register: fields[1],
        };
    }
    Operand::Constant(if v < 64 { 64 - v } else { 0 })
}

// The tables. A constant table is made anew wherever it is read, so they are made once for a text and lent to what reads them.
#[derive(Drop)]
pub struct Tables {
    forms: [[u8; 12]; 107],
    operands: [Codes; 107],
    ghost are_forms: { joined forms ≡ form_table },
    ghost are_operands: { codes_of operands ≡ operand_table },
}

impl Tables {
    pub fn new() -> Tables
        ensures forms { joined result.forms ≡ form_table }
        ensures operands { codes_of result.operands ≡ operand_table }
    {
        Tables {
            forms: FORMS,
            operands: OPERANDS,
        }
    }

    // The instruction of a row, from the fields of its parcels.
    #[tactic(auto, using(crate::proofs::Laws::decode_rules), unfolding(spelling::specs::Rows::with_codes, spelling::specs::Rows::instruction_by))]
    fn decode(&self, row: usize, fields: &[u64; 8]) -> Instruction
        requires { row < 107 }
        ensures { result ≡ instruction_by row fields.now }
    {
        let Codes(a, b, c, d) = self.operands[row];
        if a == 0 {
            return Instruction::Bare(row);
        }
        let first = operand(a, fields);
        if b == 0 {
            return Instruction::OfOne(row, first);
        }
        let second = operand(b, fields);
        if c == 0 {
            return Instruction::OfTwo(row, first, second);
        }
        let third = operand(c, fields);
        if d == 0 {
            return Instruction::OfThree(row, first, second, third);
        }
        Instruction::OfFour(row, first, second, third, operand(d, fields))
    }

    // The signs of a form from a place on, up to an operand or with the newline.
    fn put_signs(&self, line: &mut [u8], at: usize, from: usize) -> Cut
        requires { Ends (drop from (joined self.now.forms)) × (at + length (signs_of (drop from (joined self.now.forms))) ≤ length line.old) }
        ensures wrote { Wrote line.old at (signs_of (drop from (joined self.now.forms))) line.new result.at }
        ensures rest { drop result.from (joined self.now.forms) ≡ after_signs (drop from (joined self.now.forms)) }
    {
        // Each form ends with its newline, so the table's end is never met; a `for` over the rest of it would have to answer there too.
        let forms = self.forms.as_flattened();
        let mut to = at;
        let mut p = from;
        loop {
            let b = forms[p];
            p += 1;
            if b == 0 {
                return Cut { at: to, from: p };
            }
            line[to] = b;
            to += 1;
            if b == b'\n' {
                return Cut { at: to, from: p };
            }
        }
    }

    // An operand, and the signs after it.
    #[tactic(auto, using(crate::proofs::Written::part_rules))]
    fn put_part(&self, line: &mut [u8], cut: Cut, op: Operand) -> Cut
        requires { Ends (drop cut.from (joined self.now.forms)) × Small op ×
            (cut.at + length (operand_text op ++ signs_of (drop cut.from (joined self.now.forms))) ≤ length line.old) }
        ensures wrote { Wrote line.old cut.at (operand_text op ++ signs_of (drop cut.from (joined self.now.forms))) line.new result.at }
        ensures rest { drop result.from (joined self.now.forms) ≡ after_signs (drop cut.from (joined self.now.forms)) }
    {
        let end = put_operand(line, cut.at, op);
        self.put_signs(line, end, cut.from)
    }

    // An instruction's line.
    fn put_instruction(&self, line: &mut [u8], start: usize, ins: Instruction) -> usize
        requires { Ready line.old start (joined self.now.forms) ins }
        ensures { Wrote line.old start (spelled_of (joined self.now.forms) ins) line.new result }
    {
        match ins {
            Instruction::Bare(row) => self.put_signs(line, start, row * 12).at,
            Instruction::OfOne(row, a) => {
                let head = self.put_signs(line, start, row * 12);
                self.put_part(line, head, a).at
            }
            Instruction::OfTwo(row, a, b) => {
                let head = self.put_signs(line, start, row * 12);
                let after_a = self.put_part(line, head, a);
                self.put_part(line, after_a, b).at
            }
            Instruction::OfThree(row, a, b, c) => {
                let head = self.put_signs(line, start, row * 12);
                let after_a = self.put_part(line, head, a);
                let after_b = self.put_part(line, after_a, b);
                self.put_part(line, after_b, c).at
            }
            Instruction::OfFour(row, a, b, c, d) => {
                let head = self.put_signs(line, start, row * 12);
                let after_a = self.put_part(line, head, a);
                let after_b = self.put_part(line, after_a, b);
                let after_c = self.put_part(line, after_b, c);
                self.put_part(line, after_c, d).at
            }
        }
    }

    // The line of an instruction whose second parcel is m, or 0: at most 16 bytes.
    pub fn put_line(&self, line: &mut [u8], at: usize, first: First, m: u16) -> usize
        requires { at + length (line_of first.parcel m) ≤ length line.old }
        ensures { Wrote line.old at (line_of first.parcel m) line.new result × (at + 2 ≤ result) × (result ≤ at + 16) }
    {
        if first.row == 0 {
            return put_data(line, at, first.parcel);
        }
        let fs = fields(first.parcel, m);
        let ins = self.decode(first.row, &fs);
        self.put_instruction(line, at, ins)
    }
}

// From here on text is written where the caller has seen that there is room for it, so no place is tested. Numbers are written by
// hand, since the library's `{:o}` promises nothing of what it writes.

// The last octal digit of a number.
fn digit(n: u64) -> u8
    ensures { result ≡ glyph_of (n % 8) }
{
    48 + (n % 8) as u8
}

// The last two.
fn put_two_digits(line: &mut [u8], at: usize, n: u64)
    requires { at + 2 ≤ length line.old }
    ensures { Wrote line.old at (digits 8 2 n) line.new (at + 2) }
{
    line[at] = digit(n / 8);
    line[at + 1] = digit(n);
}

// An octal number of at most four digits, without needless zeros.
#[tactic(auto, using(crate::proofs::Octal::long_rules))]
fn put_few(line: &mut [u8], at: usize, n: u64) -> usize
    requires { (n < 4096) × (at + length (shown 8 1 n) ≤ length line.old) }
    ensures { Wrote line.old at (shown 8 1 n) line.new result }
{
    if n < 64 {
        if n < 8 {
            line[at] = digit(n);
            return at + 1;
        }
        put_two_digits(line, at, n);
        return at + 2;
    }
    if n < 512 {
        line[at] = digit(n / 64);
        put_two_digits(line, at + 1, n);
        return at + 3;
    }
    put_two_digits(line, at, n / 64);
    put_two_digits(line, at + 2, n);
    at + 4
}

// One of at most eight.
#[tactic(auto, using(crate::proofs::Octal::long_rules))]
fn put_octal(line: &mut [u8], at: usize, n: u64) -> usize
    requires { (n < 16777216) × (at + length (shown 8 1 n) ≤ length line.old) }
    ensures { Wrote line.old at (shown 8 1 n) line.new result }
{
    if n < 4096 {
        return put_few(line, at, n);
    }
    let end = put_few(line, at, n / 4096);
    put_two_digits(line, end, n / 64);
    put_two_digits(line, end + 2, n);
    end + 4
}

// A register's name.
fn put_register(line: &mut [u8], at: usize, letter: u8, number: u64, wide: bool) -> usize
    requires { at + length (operand_text (Register letter number wide)) ≤ length line.old }
    ensures { Wrote line.old at (operand_text (Register letter number wide)) line.new result }
{
    line[at] = letter;
    if wide {
        line[at + 1] = digit(number / 8);
        line[at + 2] = digit(number);
        return at + 3;
    }
    line[at + 1] = digit(number);
    at + 2
}

// An indexed memory place.
#[tactic(auto, using(crate::proofs::Octal::long_rules))]
fn put_place(line: &mut [u8], at: usize, offset: u64, register: u64) -> usize
    requires { Small (Indexed offset register) × (at + length (operand_text (Indexed offset register)) ≤ length line.old) }
    ensures { Wrote line.old at (operand_text (Indexed offset register)) line.new result }
{
    let comma = put_octal(line, at, offset);
    line[comma] = b',';
    line[comma + 1] = b'A';
    line[comma + 2] = digit(register);
    comma + 3
}

// An operand's text.
#[tactic(auto, unfolding(spelling::specs::Words::operand_text))]
fn put_operand(line: &mut [u8], at: usize, op: Operand) -> usize
    requires { Small op × (at + length (operand_text op) ≤ length line.old) }
    ensures { Wrote line.old at (operand_text op) line.new result }
{
    match op {
        Operand::Register {
            letter,
            number,
            wide,
        } => put_register(line, at, letter, number, wide),
        Operand::Constant(n) => put_octal(line, at, n),
        Operand::Indexed { offset, register } => put_place(line, at, offset, register),
    }
}

// Where a line is cut to take an operand: the next place of the line, and of the table of forms.
#[derive(Clone, Copy)]
struct Cut {
    at: usize,
    from: usize,
}

// A parcel as a line of data.
pub fn put_data(line: &mut [u8], at: usize, x: u16) -> usize
    requires { at + 12 ≤ length line.old }
    ensures { Wrote line.old at (data_line x) line.new result × (result ≡ at + 12) }
{
    let n = x as u64;
    line[at..at + 5].copy_from_slice(b"data=");
    put_two_digits(line, at + 5, n / 4096);
    put_two_digits(line, at + 7, n / 64);
    put_two_digits(line, at + 9, n);
    line[at + 11] = b'\n';
    at + 12
}
