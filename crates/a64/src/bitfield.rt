// Masks, shifts and bit fields. The Rust masks the 32-bit forms' shift to 5 bits.
ghost use Rattle.std.specs.Prelude.{◌≡◌, ◌+◌, ◌-◌, ◌%◌, ltb};
ghost use Rattle.arm.specs.declared.Size.TheVariants.{W, X};
ghost use Rattle.arm.specs.declared.Extract.TheVariants.{Sbfm, Ubfm};
ghost use Rattle.arm.specs.declared.Two.TheVariants.{Lslv, Lsrv, Asrv};
ghost use Rattle.arm.specs.declared.Logic.TheVariants.{And, Ands};
ghost use Rattle.arm.specs.declared.Instr.TheVariants.{LogicalImm, Bitfield, TwoSource};
ghost use Rattle.words.specs.Answers.{answer, answer_if, told};
ghost use Rattle.a64.specs.Ranges.{is_mask, is_field};

use arm::{Extract, Instr, Logic, Size, Two};
use words::{EncodeError, encode};

#[tactic(auto, unfolding(words::specs::Answers::answer, words::specs::Answers::answer_if, crate::specs::Ranges::is_mask))]
fn mask(o: Logic, ones: u32, shift: u32, rn: u32, rd: u32) -> Result<u32, EncodeError>
    ensures { told result ≡ told (answer_if (is_mask ones shift) (LogicalImm o ((32 - shift) % 32) (ones - 1) rn rd)) }
{
    if ones < 1 || 31 < ones || 32 - ones < shift {
        return Err(EncodeError::Operand);
    }
    encode(Instr::LogicalImm(o, (32 - shift) % 32, ones - 1, rn, rd))
}

pub fn and_mask(rd: u32, rn: u32, ones: u32, shift: u32) -> Result<u32, EncodeError>
    ensures { told result ≡ told (answer_if (is_mask ones shift) (LogicalImm And ((32 - shift) % 32) (ones - 1) rn rd)) }
{
    mask(Logic::And, ones, shift, rn, rd)
}

pub fn tst_mask(rn: u32, ones: u32, shift: u32) -> Result<u32, EncodeError>
    ensures { told result ≡ told (answer_if (is_mask ones shift) (LogicalImm Ands ((32 - shift) % 32) (ones - 1) rn 31)) }
{
    mask(Logic::Ands, ones, shift, rn, 31)
}

#[tactic(auto, unfolding(words::specs::Answers::answer, words::specs::Answers::answer_if, crate::specs::Ranges::is_field))]
fn field(o: Extract, lsb: u32, width: u32, rn: u32, rd: u32) -> Result<u32, EncodeError>
    ensures { told result ≡ told (answer_if (is_field lsb width) (Bitfield W o lsb (lsb + width - 1) rn rd)) }
{
    if width < 1 || 32 < width || 32 - width < lsb {
        return Err(EncodeError::Operand);
    }
    encode(Instr::Bitfield(Size::W, o, lsb, lsb + width - 1, rn, rd))
}

pub fn ubfx(rd: u32, rn: u32, lsb: u32, width: u32) -> Result<u32, EncodeError>
    ensures { told result ≡ told (answer_if (is_field lsb width) (Bitfield W Ubfm lsb (lsb + width - 1) rn rd)) }
{
    field(Extract::Ubfm, lsb, width, rn, rd)
}

pub fn sbfx(rd: u32, rn: u32, lsb: u32, width: u32) -> Result<u32, EncodeError>
    ensures { told result ≡ told (answer_if (is_field lsb width) (Bitfield W Sbfm lsb (lsb + width - 1) rn rd)) }
{
    field(Extract::Sbfm, lsb, width, rn, rd)
}

#[tactic(auto, unfolding(words::specs::Answers::answer, words::specs::Answers::answer_if))]
pub fn lsl_imm_x(rd: u32, rn: u32, sh: u32) -> Result<u32, EncodeError>
    ensures { told result ≡ told (answer_if (ltb sh 64) (Bitfield X Ubfm ((64 - sh) % 64) (63 - sh) rn rd)) }
{
    if 63 < sh {
        return Err(EncodeError::Operand);
    }
    encode(Instr::Bitfield(Size::X, Extract::Ubfm, (64 - sh) % 64, 63 - sh, rn, rd))
}

pub fn lsl_imm(rd: u32, rn: u32, sh: u32) -> Result<u32, EncodeError>
    ensures { told result ≡ told (answer (Bitfield W Ubfm ((32 - sh % 32) % 32) (31 - sh % 32) rn rd)) }
{
    encode(Instr::Bitfield(
        Size::W,
        Extract::Ubfm,
        (32 - sh % 32) % 32,
        31 - sh % 32,
        rn,
        rd,
    ))
}

pub fn lsr_imm(rd: u32, rn: u32, sh: u32) -> Result<u32, EncodeError>
    ensures { told result ≡ told (answer (Bitfield W Ubfm (sh % 32) 31 rn rd)) }
{
    encode(Instr::Bitfield(Size::W, Extract::Ubfm, sh % 32, 31, rn, rd))
}

pub fn asr_imm(rd: u32, rn: u32, sh: u32) -> Result<u32, EncodeError>
    ensures { told result ≡ told (answer (Bitfield W Sbfm (sh % 32) 31 rn rd)) }
{
    encode(Instr::Bitfield(Size::W, Extract::Sbfm, sh % 32, 31, rn, rd))
}

pub fn lsr_imm_x(rd: u32, rn: u32, sh: u32) -> Result<u32, EncodeError>
    ensures { told result ≡ told (answer (Bitfield X Ubfm sh 63 rn rd)) }
{
    encode(Instr::Bitfield(Size::X, Extract::Ubfm, sh, 63, rn, rd))
}

pub fn asr_imm_x(rd: u32, rn: u32, sh: u32) -> Result<u32, EncodeError>
    ensures { told result ≡ told (answer (Bitfield X Sbfm sh 63 rn rd)) }
{
    encode(Instr::Bitfield(Size::X, Extract::Sbfm, sh, 63, rn, rd))
}

pub fn sxth(rd: u32, rn: u32) -> Result<u32, EncodeError>
    ensures { told result ≡ told (answer (Bitfield W Sbfm 0 15 rn rd)) }
{
    encode(Instr::Bitfield(Size::W, Extract::Sbfm, 0, 15, rn, rd))
}

pub fn uxth(rd: u32, rn: u32) -> Result<u32, EncodeError>
    ensures { told result ≡ told (answer (Bitfield W Ubfm 0 15 rn rd)) }
{
    encode(Instr::Bitfield(Size::W, Extract::Ubfm, 0, 15, rn, rd))
}

pub fn lslv(rd: u32, rn: u32, rm: u32) -> Result<u32, EncodeError>
    ensures { told result ≡ told (answer (TwoSource W Lslv rm rn rd)) }
{
    encode(Instr::TwoSource(Size::W, Two::Lslv, rm, rn, rd))
}

pub fn lsrv(rd: u32, rn: u32, rm: u32) -> Result<u32, EncodeError>
    ensures { told result ≡ told (answer (TwoSource W Lsrv rm rn rd)) }
{
    encode(Instr::TwoSource(Size::W, Two::Lsrv, rm, rn, rd))
}

pub fn asrv(rd: u32, rn: u32, rm: u32) -> Result<u32, EncodeError>
    ensures { told result ≡ told (answer (TwoSource W Asrv rm rn rd)) }
{
    encode(Instr::TwoSource(Size::W, Two::Asrv, rm, rn, rd))
}

pub fn lsrv_x(rd: u32, rn: u32, rm: u32) -> Result<u32, EncodeError>
    ensures { told result ≡ told (answer (TwoSource X Lsrv rm rn rd)) }
{
    encode(Instr::TwoSource(Size::X, Two::Lsrv, rm, rn, rd))
}
