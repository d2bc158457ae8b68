// The encoders of jit_a64.rs that use the float registers: single-precision numbers. Each is a public function of the Rust, by its name.
#![tactic(auto)]

ghost use Rattle.std.specs.Prelude.{◌≡◌};
ghost use Rattle.arm.specs.declared.Convert.TheVariants.{Scvtf, Ucvtf, FmovWS, FmovSW, Fcvtzs, Fcvtzu};
ghost use Rattle.arm.specs.declared.Instr.TheVariants.{FloatCompare, FloatConvert};
ghost use Rattle.words.specs.Answers.{answer, told};
ghost use Rattle.floats.specs.Fop.{fop_of};

use arm::{Convert, Float, Instr};
use words::{EncodeError, encode};

pub fn fmov_s_w(sd: u32, wn: u32) -> Result<u32, EncodeError>
    ensures { told result ≡ told (answer (FloatConvert FmovSW wn sd)) }
{
    encode(Instr::FloatConvert(Convert::FmovSW, wn, sd))
}

pub fn fmov_w_s(wd: u32, sn: u32) -> Result<u32, EncodeError>
    ensures { told result ≡ told (answer (FloatConvert FmovWS sn wd)) }
{
    encode(Instr::FloatConvert(Convert::FmovWS, sn, wd))
}

pub fn fcmp(sn: u32, sm: u32) -> Result<u32, EncodeError>
    ensures { told result ≡ told (answer (FloatCompare sm sn)) }
{
    encode(Instr::FloatCompare(sm, sn))
}

pub fn fcvtzs(wd: u32, sn: u32) -> Result<u32, EncodeError>
    ensures { told result ≡ told (answer (FloatConvert Fcvtzs sn wd)) }
{
    encode(Instr::FloatConvert(Convert::Fcvtzs, sn, wd))
}

pub fn fcvtzu(wd: u32, sn: u32) -> Result<u32, EncodeError>
    ensures { told result ≡ told (answer (FloatConvert Fcvtzu sn wd)) }
{
    encode(Instr::FloatConvert(Convert::Fcvtzu, sn, wd))
}

pub fn scvtf(sd: u32, wn: u32) -> Result<u32, EncodeError>
    ensures { told result ≡ told (answer (FloatConvert Scvtf wn sd)) }
{
    encode(Instr::FloatConvert(Convert::Scvtf, wn, sd))
}

pub fn ucvtf(sd: u32, wn: u32) -> Result<u32, EncodeError>
    ensures { told result ≡ told (answer (FloatConvert Ucvtf wn sd)) }
{
    encode(Instr::FloatConvert(Convert::Ucvtf, wn, sd))
}

// The Rust gives the operation as the word without its registers.
#[tactic(auto, unfolding(crate::specs::Fop::fop_of))]
pub fn fop(opc: u32, sd: u32, sn: u32, sm: u32) -> Result<u32, EncodeError>
    ensures { told result ≡ told (fop_of opc sd sn sm) }
{
    match opc {
        0x1e20_2800 => encode(Instr::FloatTwo(Float::Fadd, sm, sn, sd)),
        0x1e20_3800 => encode(Instr::FloatTwo(Float::Fsub, sm, sn, sd)),
        0x1e20_0800 => encode(Instr::FloatTwo(Float::Fmul, sm, sn, sd)),
        0x1e20_1800 => encode(Instr::FloatTwo(Float::Fdiv, sm, sn, sd)),
        0x1e20_7800 => encode(Instr::FloatTwo(Float::Fminnm, sm, sn, sd)),
        0x1e20_6800 => encode(Instr::FloatTwo(Float::Fmaxnm, sm, sn, sd)),
        _ => Err(EncodeError::Operand),
    }
}
