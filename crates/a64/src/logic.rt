// Logic by registers, and the order and number of bits.
ghost use Rattle.std.specs.Prelude.{◌≡◌};
ghost use Rattle.arm.specs.declared.Size.TheVariants.{W, X};
ghost use Rattle.arm.specs.declared.Shift.TheVariants.{Lsl, Lsr};
ghost use Rattle.arm.specs.declared.Logic.TheVariants.{And, Orr, Eor, Ands};
ghost use Rattle.arm.specs.declared.Second.TheVariants.{Plain, Inverted};
ghost use Rattle.arm.specs.declared.One.TheVariants.{Rev16, Rev, Clz};
ghost use Rattle.arm.specs.declared.Instr.TheVariants.{LogicalShifted, OneSource};
ghost use Rattle.words.specs.Answers.{answer, told};

use arm::{Instr, Logic, One, Second, Shift, Size};
use words::{EncodeError, encode};

pub fn and(rd: u32, rn: u32, rm: u32) -> Result<u32, EncodeError>
    ensures { told result ≡ told (answer (LogicalShifted W And Plain Lsl rm 0 rn rd)) }
{
    encode(Instr::LogicalShifted(
        Size::W,
        Logic::And,
        Second::Plain,
        Shift::Lsl,
        rm,
        0,
        rn,
        rd,
    ))
}

pub fn orr(rd: u32, rn: u32, rm: u32) -> Result<u32, EncodeError>
    ensures { told result ≡ told (answer (LogicalShifted W Orr Plain Lsl rm 0 rn rd)) }
{
    encode(Instr::LogicalShifted(
        Size::W,
        Logic::Orr,
        Second::Plain,
        Shift::Lsl,
        rm,
        0,
        rn,
        rd,
    ))
}

pub fn orr_lsl(rd: u32, rn: u32, rm: u32, sh: u32) -> Result<u32, EncodeError>
    ensures { told result ≡ told (answer (LogicalShifted W Orr Plain Lsl rm sh rn rd)) }
{
    encode(Instr::LogicalShifted(
        Size::W,
        Logic::Orr,
        Second::Plain,
        Shift::Lsl,
        rm,
        sh,
        rn,
        rd,
    ))
}

pub fn orr_x(rd: u32, rn: u32, rm: u32) -> Result<u32, EncodeError>
    ensures { told result ≡ told (answer (LogicalShifted X Orr Plain Lsl rm 0 rn rd)) }
{
    encode(Instr::LogicalShifted(
        Size::X,
        Logic::Orr,
        Second::Plain,
        Shift::Lsl,
        rm,
        0,
        rn,
        rd,
    ))
}

pub fn eor(rd: u32, rn: u32, rm: u32) -> Result<u32, EncodeError>
    ensures { told result ≡ told (answer (LogicalShifted W Eor Plain Lsl rm 0 rn rd)) }
{
    encode(Instr::LogicalShifted(
        Size::W,
        Logic::Eor,
        Second::Plain,
        Shift::Lsl,
        rm,
        0,
        rn,
        rd,
    ))
}

pub fn eor_lsr(rd: u32, rn: u32, rm: u32, sh: u32) -> Result<u32, EncodeError>
    ensures { told result ≡ told (answer (LogicalShifted W Eor Plain Lsr rm sh rn rd)) }
{
    encode(Instr::LogicalShifted(
        Size::W,
        Logic::Eor,
        Second::Plain,
        Shift::Lsr,
        rm,
        sh,
        rn,
        rd,
    ))
}

pub fn bic(rd: u32, rn: u32, rm: u32) -> Result<u32, EncodeError>
    ensures { told result ≡ told (answer (LogicalShifted W And Inverted Lsl rm 0 rn rd)) }
{
    encode(Instr::LogicalShifted(
        Size::W,
        Logic::And,
        Second::Inverted,
        Shift::Lsl,
        rm,
        0,
        rn,
        rd,
    ))
}

pub fn ands(rd: u32, rn: u32, rm: u32) -> Result<u32, EncodeError>
    ensures { told result ≡ told (answer (LogicalShifted W Ands Plain Lsl rm 0 rn rd)) }
{
    encode(Instr::LogicalShifted(
        Size::W,
        Logic::Ands,
        Second::Plain,
        Shift::Lsl,
        rm,
        0,
        rn,
        rd,
    ))
}

pub fn tst(rn: u32, rm: u32) -> Result<u32, EncodeError>
    ensures { told result ≡ told (answer (LogicalShifted W Ands Plain Lsl rm 0 rn 31)) }
{
    encode(Instr::LogicalShifted(
        Size::W,
        Logic::Ands,
        Second::Plain,
        Shift::Lsl,
        rm,
        0,
        rn,
        31,
    ))
}

pub fn rev(rd: u32, rn: u32) -> Result<u32, EncodeError>
    ensures { told result ≡ told (answer (OneSource Rev rn rd)) }
{
    encode(Instr::OneSource(One::Rev, rn, rd))
}

pub fn rev16(rd: u32, rn: u32) -> Result<u32, EncodeError>
    ensures { told result ≡ told (answer (OneSource Rev16 rn rd)) }
{
    encode(Instr::OneSource(One::Rev16, rn, rd))
}

pub fn clz(rd: u32, rn: u32) -> Result<u32, EncodeError>
    ensures { told result ≡ told (answer (OneSource Clz rn rd)) }
{
    encode(Instr::OneSource(One::Clz, rn, rd))
}
