// CAL: the operands of an instruction, and why a text or a listing is refused.
#![tactic(auto)]

ghost use Rattle.std.specs.Prelude.{◌≡◌};
ghost use Rattle.spelling.specs.Assembling.{refusal_number};

// An operand: a register by its letter and its number, wide if its name has two octal digits; a constant; or an indexed memory
// place, `exp,Ah`.
#[derive(Clone, Copy)]
pub enum Operand {
    Register { letter: u8, number: u64, wide: bool },
    Constant(u64),
    Indexed { offset: u64, register: u64 },
}

// An instruction: the row of the table that spells it, and its operands in the order of its line.
#[derive(Clone, Copy)]
pub enum Instruction {
    Bare(usize),
    OfOne(usize, Operand),
    OfTwo(usize, Operand, Operand),
    OfThree(usize, Operand, Operand, Operand),
    OfFour(usize, Operand, Operand, Operand, Operand),
}

// Why a text stands for no parcels: its first bad line, counted from 1; or there are more than there is room for.
#[derive(Clone, Copy, Debug, PartialEq, Eq)]
pub enum ReadError {
    BadLine(usize),
    Overfull,
}

impl ReadError {
    // The number of its refusal.
    pub fn number(self) -> u64
        ensures { result ≡ refusal_number self }
    {
        match self {
            ReadError::BadLine(_) => 10,
            ReadError::Overfull => 18,
        }
    }
}

// The listing of parcels is longer than the room for it.
#[derive(Clone, Copy, Debug, PartialEq, Eq)]
pub struct TooLong;
