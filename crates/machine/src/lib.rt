// The types of the machine; the word that a parcel lies in; the numbers of causes and of refusals.
#![tactic(auto)]

ghost use Rattle.std.specs.Prelude.{◌≡◌};
ghost use Rattle.machine.specs.Parcel.{word_of};
ghost use Rattle.machine.specs.Call.{cause_number, refusal_number};

// A parcel address, 24 bits. That it has no more stands in contracts and not in the type: the definitions make one of any lent word, also
// of one that is then refused.
#[derive(Clone, Copy, Debug, PartialEq, Eq)]
pub struct ParcelAddr(pub u64);

// A word address, 22 bits.
#[derive(Clone, Copy, Debug, PartialEq, Eq)]
pub struct WordAddr(pub u64);

// Why a word lies outside its field: the first of these that holds.
#[derive(Clone, Copy, Debug, PartialEq, Eq)]
pub enum Cause {
    BelowBase,
    OverLimit,
    BeyondMemory,
}

// An operand of a step that lay outside: why, and its number from 0.
#[derive(Clone, Copy, Debug, PartialEq, Eq)]
pub struct Stray {
    pub cause: Cause,
    pub element: u64,
}

// How the work of a step ends: P goes past the one parcel or the two of the instruction, of which an operand may have lain outside, or to
// a parcel; an exchange follows; or nothing was done.
#[derive(Clone, Copy)]
pub enum Work {
    PastOne,
    PastTwo,
    To(ParcelAddr),
    NormalExit,
    ErrorExit,
    StrayedOne,
    StrayedTwo,
    ProgramRange,
    NotHeld,
    MonitorFetch,
}

// What a step answers: the flags of an exchange, or the P at which it stopped.
#[derive(Clone, Copy, Debug, PartialEq, Eq)]
pub enum Answer {
    Stepped,
    Exchanged(u64),
    NotHeld(ParcelAddr),
    MonitorFetch(ParcelAddr),
}

// How a run ended: its budget was spent, or it stopped at a P.
#[derive(Clone, Copy, Debug, PartialEq, Eq)]
pub enum Ending {
    Budget,
    NotHeld(ParcelAddr),
    MonitorFetch(ParcelAddr),
}

// Why a call is refused, in the order of the numbers.
#[derive(Clone, Copy, Debug, PartialEq, Eq)]
pub enum Refusal {
    MemorySize,
    PackageNumber,
    Budget,
    ProcessorNumber,
    ScheduleLength,
    ScheduleByte,
    RegisterWidth,
}

// A processor: its registers and what only an exchange changes, in the places that specs/Layout.antt gives. An array and no struct with an
// invariant: C lends it with whatever numbers, and a call that finds them unfit leaves them. What was tested of it has a name in contracts:
// `Fitting`, `Ready`, `Vector`.
pub type Words = [u64; 672];

// A window of memory: so many words from the first on.
#[derive(Clone, Copy)]
pub struct Window {
    pub first: usize,
    pub words: u64,
}

// What a processor reaches: its two fields, the instruction field and the data field, as windows of memory.
#[derive(Clone, Copy)]
pub struct Reach {
    pub code: Window,
    pub operands: Window,
}

// The word that a parcel lies in.
impl From<ParcelAddr> for WordAddr {
    ghost from_gives = { λ p w. w.0 ≡ word_of p.0 };

    fn from(p: ParcelAddr) -> WordAddr {
        WordAddr(p.0 / 4)
    }
}

// The number of a cause.
impl From<Cause> for u64 {
    ghost from_gives = { λ cause n. n ≡ cause_number cause };

    fn from(cause: Cause) -> u64 {
        match cause {
            Cause::BelowBase => 1,
            Cause::OverLimit => 2,
            Cause::BeyondMemory => 3,
        }
    }
}

// The number of a refusal.
impl From<Refusal> for u64 {
    ghost from_gives = { λ refusal n. n ≡ refusal_number refusal };

    fn from(refusal: Refusal) -> u64 {
        match refusal {
            Refusal::MemorySize => 1,
            Refusal::PackageNumber => 2,
            Refusal::Budget => 3,
            Refusal::ProcessorNumber => 4,
            Refusal::ScheduleLength => 5,
            Refusal::ScheduleByte => 6,
            Refusal::RegisterWidth => 7,
        }
    }
}
