// Moves. The Rust masks a move's number to 16 bits; its shift is a multiple of 16.
ghost use Rattle.std.specs.Prelude.{◌≡◌, ◌/◌, ◌%◌, eqb};
ghost use Rattle.arm.specs.declared.Size.TheVariants.{W, X};
ghost use Rattle.arm.specs.declared.Shift.TheVariants.{Lsl};
ghost use Rattle.arm.specs.declared.Move.TheVariants.{Movn, Movz, Movk};
ghost use Rattle.arm.specs.declared.Logic.TheVariants.{Orr};
ghost use Rattle.arm.specs.declared.Second.TheVariants.{Plain, Inverted};
ghost use Rattle.arm.specs.declared.Instr.TheVariants.{MoveWide, LogicalShifted};
ghost use Rattle.words.specs.Answers.{answer, answer_if, told};

use arm::{Instr, Logic, Move, Second, Shift, Size};
use words::{EncodeError, encode, encode_if};

fn wide(z: Size, m: Move, rd: u32, imm16: u32, shift: u32) -> Result<u32, EncodeError>
    ensures { told result ≡ told (answer_if (eqb (shift % 16) 0) (MoveWide z m (shift / 16) (imm16 % 65536) rd)) }
{
    encode_if(
        shift % 16 == 0,
        Instr::MoveWide(z, m, shift / 16, imm16 % 65536, rd),
    )
}

pub fn movz(rd: u32, imm16: u32, shift: u32) -> Result<u32, EncodeError>
    ensures { told result ≡ told (answer_if (eqb (shift % 16) 0) (MoveWide W Movz (shift / 16) (imm16 % 65536) rd)) }
{
    wide(Size::W, Move::Movz, rd, imm16, shift)
}

pub fn movk(rd: u32, imm16: u32, shift: u32) -> Result<u32, EncodeError>
    ensures { told result ≡ told (answer_if (eqb (shift % 16) 0) (MoveWide W Movk (shift / 16) (imm16 % 65536) rd)) }
{
    wide(Size::W, Move::Movk, rd, imm16, shift)
}

pub fn movn(rd: u32, imm16: u32, shift: u32) -> Result<u32, EncodeError>
    ensures { told result ≡ told (answer_if (eqb (shift % 16) 0) (MoveWide W Movn (shift / 16) (imm16 % 65536) rd)) }
{
    wide(Size::W, Move::Movn, rd, imm16, shift)
}

pub fn movz_x(rd: u32, imm16: u32, shift: u32) -> Result<u32, EncodeError>
    ensures { told result ≡ told (answer_if (eqb (shift % 16) 0) (MoveWide X Movz (shift / 16) (imm16 % 65536) rd)) }
{
    wide(Size::X, Move::Movz, rd, imm16, shift)
}

pub fn movk_x(rd: u32, imm16: u32, shift: u32) -> Result<u32, EncodeError>
    ensures { told result ≡ told (answer_if (eqb (shift % 16) 0) (MoveWide X Movk (shift / 16) (imm16 % 65536) rd)) }
{
    wide(Size::X, Move::Movk, rd, imm16, shift)
}

pub fn mov(rd: u32, rm: u32) -> Result<u32, EncodeError>
    ensures { told result ≡ told (answer (LogicalShifted W Orr Plain Lsl rm 0 31 rd)) }
{
    encode(Instr::LogicalShifted(
        Size::W,
        Logic::Orr,
        Second::Plain,
        Shift::Lsl,
        rm,
        0,
        31,
        rd,
    ))
}

pub fn mov_x(rd: u32, rm: u32) -> Result<u32, EncodeError>
    ensures { told result ≡ told (answer (LogicalShifted X Orr Plain Lsl rm 0 31 rd)) }
{
    encode(Instr::LogicalShifted(
        Size::X,
        Logic::Orr,
        Second::Plain,
        Shift::Lsl,
        rm,
        0,
        31,
        rd,
    ))
}

pub fn mvn(rd: u32, rm: u32) -> Result<u32, EncodeError>
    ensures { told result ≡ told (answer (LogicalShifted W Orr Inverted Lsl rm 0 31 rd)) }
{
    encode(Instr::LogicalShifted(
        Size::W,
        Logic::Orr,
        Second::Inverted,
        Shift::Lsl,
        rm,
        0,
        31,
        rd,
    ))
}
