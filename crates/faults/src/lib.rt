// Why a block record is refused: the faults, and a refusal's place.
#![tactic(auto)]

ghost use Rattle.std.specs.Prelude.{◌≡◌};
ghost use Rattle.faults.specs.Faults.{fault_number};

// The faults, each with its number.
#[derive(Clone, Copy, Debug, PartialEq, Eq)]
pub enum Fault {
    // header or payload cut, or a field that is due is missing
    Cut = 1,
    // a tag that is not due, or a length that is not its own
    Field = 2,
    // a kind above 49
    Kind = 3,
    // a flag or an operand out of range, or a group of registers longer than RAM or XIP
    Operand = 4,
    // an offset in the processor record, or regs plus 60, of 16384 or more
    Offset = 5,
    // a region's length below 4, its base not a multiple of 4, or its end above 2^32
    Region = 6,
    // the block starts neither in flash nor inside RAM
    Start = 7,
    // a 33rd operation
    TooMany = 8,
    // an operation after a jump
    AfterJump = 9,
    // more words needed than lent
    Room = 10,
    // an offset in the processor record that is not a multiple of 4
    Unaligned = 14,
    // two places in the processor record that overlap
    Overlap = 15,
    // tag 06 next after a flash start, or not next after a RAM start
    Guard = 16,
    // an operation that reaches past RAM's end
    RamEnd = 17,
}

impl From<Fault> for u32 {
    ghost from_gives = { λ f n. n ≡ fault_number f };

    fn from(f: Fault) -> u32 {
        f as u32
    }
}

// A record's first fault, and the offset in the record of the field that has it.
#[derive(Clone, Copy, Debug, PartialEq, Eq)]
pub struct Refusal {
    pub fault: Fault,
    pub place: usize,
}
