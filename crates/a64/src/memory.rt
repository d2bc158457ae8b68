// Loads and stores. An offset is a multiple of the access's size.
ghost use Rattle.std.specs.Prelude.{◌≡◌, ◌/◌, ◌%◌, eqb};
ghost use Rattle.arm.specs.declared.Access.TheVariants.{Strb, Ldrb, Ldrsb, Strh, Ldrh, Ldrsh, StrW, LdrW, StrX, LdrX};
ghost use Rattle.arm.specs.declared.Scale.TheVariants.{Unscaled, Scaled};
ghost use Rattle.arm.specs.declared.Instr.TheVariants.{MemoryImm, MemoryReg, MemoryPair};
ghost use Rattle.arm.specs.declared.Mode.TheVariants.{Post, Offset, Pre};
ghost use Rattle.arm.specs.declared.Pair.TheVariants.{Stp, Ldp};
ghost use Rattle.a64.specs.Ranges.{is_pair_offset};
ghost use Rattle.words.specs.Signed.{twos};
ghost use Rattle.words.specs.Answers.{answer, answer_if, told};

use arm::{Access, Instr, Mode, Pair, Scale};
use words::{EncodeError, encode, encode_if, reaches, twos};

pub fn ldr(rt: u32, rn: u32, off: u32) -> Result<u32, EncodeError>
    ensures { told result ≡ told (answer_if (eqb (off % 4) 0) (MemoryImm LdrW (off / 4) rn rt)) }
{
    encode_if(
        off % 4 == 0,
        Instr::MemoryImm(Access::LdrW, off / 4, rn, rt),
    )
}

pub fn str(rt: u32, rn: u32, off: u32) -> Result<u32, EncodeError>
    ensures { told result ≡ told (answer_if (eqb (off % 4) 0) (MemoryImm StrW (off / 4) rn rt)) }
{
    encode_if(
        off % 4 == 0,
        Instr::MemoryImm(Access::StrW, off / 4, rn, rt),
    )
}

pub fn ldrh(rt: u32, rn: u32, off: u32) -> Result<u32, EncodeError>
    ensures { told result ≡ told (answer_if (eqb (off % 2) 0) (MemoryImm Ldrh (off / 2) rn rt)) }
{
    encode_if(
        off % 2 == 0,
        Instr::MemoryImm(Access::Ldrh, off / 2, rn, rt),
    )
}

pub fn ldr_x(rt: u32, rn: u32, off: u32) -> Result<u32, EncodeError>
    ensures { told result ≡ told (answer_if (eqb (off % 8) 0) (MemoryImm LdrX (off / 8) rn rt)) }
{
    encode_if(
        off % 8 == 0,
        Instr::MemoryImm(Access::LdrX, off / 8, rn, rt),
    )
}

pub fn str_x(rt: u32, rn: u32, off: u32) -> Result<u32, EncodeError>
    ensures { told result ≡ told (answer_if (eqb (off % 8) 0) (MemoryImm StrX (off / 8) rn rt)) }
{
    encode_if(
        off % 8 == 0,
        Instr::MemoryImm(Access::StrX, off / 8, rn, rt),
    )
}

pub fn strb(rt: u32, rn: u32, off: u32) -> Result<u32, EncodeError>
    ensures { told result ≡ told (answer (MemoryImm Strb off rn rt)) }
{
    encode(Instr::MemoryImm(Access::Strb, off, rn, rt))
}

pub fn ldr_idx(rt: u32, rn: u32, wm: u32) -> Result<u32, EncodeError>
    ensures { told result ≡ told (answer (MemoryReg LdrW Scaled wm rn rt)) }
{
    encode(Instr::MemoryReg(Access::LdrW, Scale::Scaled, wm, rn, rt))
}

pub fn str_idx(rt: u32, rn: u32, wm: u32) -> Result<u32, EncodeError>
    ensures { told result ≡ told (answer (MemoryReg StrW Scaled wm rn rt)) }
{
    encode(Instr::MemoryReg(Access::StrW, Scale::Scaled, wm, rn, rt))
}

pub fn ldr_u(rt: u32, rn: u32, wm: u32) -> Result<u32, EncodeError>
    ensures { told result ≡ told (answer (MemoryReg LdrW Unscaled wm rn rt)) }
{
    encode(Instr::MemoryReg(Access::LdrW, Scale::Unscaled, wm, rn, rt))
}

pub fn ldrh_u(rt: u32, rn: u32, wm: u32) -> Result<u32, EncodeError>
    ensures { told result ≡ told (answer (MemoryReg Ldrh Unscaled wm rn rt)) }
{
    encode(Instr::MemoryReg(Access::Ldrh, Scale::Unscaled, wm, rn, rt))
}

pub fn ldrb_u(rt: u32, rn: u32, wm: u32) -> Result<u32, EncodeError>
    ensures { told result ≡ told (answer (MemoryReg Ldrb Unscaled wm rn rt)) }
{
    encode(Instr::MemoryReg(Access::Ldrb, Scale::Unscaled, wm, rn, rt))
}

pub fn ldrsb_u(rt: u32, rn: u32, wm: u32) -> Result<u32, EncodeError>
    ensures { told result ≡ told (answer (MemoryReg Ldrsb Unscaled wm rn rt)) }
{
    encode(Instr::MemoryReg(Access::Ldrsb, Scale::Unscaled, wm, rn, rt))
}

pub fn ldrsh_u(rt: u32, rn: u32, wm: u32) -> Result<u32, EncodeError>
    ensures { told result ≡ told (answer (MemoryReg Ldrsh Unscaled wm rn rt)) }
{
    encode(Instr::MemoryReg(Access::Ldrsh, Scale::Unscaled, wm, rn, rt))
}

pub fn str_u(rt: u32, rn: u32, wm: u32) -> Result<u32, EncodeError>
    ensures { told result ≡ told (answer (MemoryReg StrW Unscaled wm rn rt)) }
{
    encode(Instr::MemoryReg(Access::StrW, Scale::Unscaled, wm, rn, rt))
}

pub fn strh_u(rt: u32, rn: u32, wm: u32) -> Result<u32, EncodeError>
    ensures { told result ≡ told (answer (MemoryReg Strh Unscaled wm rn rt)) }
{
    encode(Instr::MemoryReg(Access::Strh, Scale::Unscaled, wm, rn, rt))
}

pub fn strb_u(rt: u32, rn: u32, wm: u32) -> Result<u32, EncodeError>
    ensures { told result ≡ told (answer (MemoryReg Strb Unscaled wm rn rt)) }
{
    encode(Instr::MemoryReg(Access::Strb, Scale::Unscaled, wm, rn, rt))
}

fn is_pair_offset(off: i32) -> bool
    ensures { result ≡ is_pair_offset off }
{
    let x = off as i64;
    reaches(512, x) && twos(512, x) % 8 == 0
}

fn pair(m: Mode, p: Pair, rt1: u32, rt2: u32, rn: u32, off: i32) -> Result<u32, EncodeError>
    ensures { told result ≡ told (answer_if (is_pair_offset off) (MemoryPair m p (twos 512 off / 8) rt2 rn rt1)) }
{
    encode_if(
        is_pair_offset(off),
        Instr::MemoryPair(m, p, twos(512, off as i64) / 8, rt2, rn, rt1),
    )
}

pub fn stp_pre(rt1: u32, rt2: u32, rn: u32, off: i32) -> Result<u32, EncodeError>
    ensures { told result ≡ told (answer_if (is_pair_offset off) (MemoryPair Pre Stp (twos 512 off / 8) rt2 rn rt1)) }
{
    pair(Mode::Pre, Pair::Stp, rt1, rt2, rn, off)
}

pub fn stp(rt1: u32, rt2: u32, rn: u32, off: i32) -> Result<u32, EncodeError>
    ensures { told result ≡ told (answer_if (is_pair_offset off) (MemoryPair Offset Stp (twos 512 off / 8) rt2 rn rt1)) }
{
    pair(Mode::Offset, Pair::Stp, rt1, rt2, rn, off)
}

pub fn ldp(rt1: u32, rt2: u32, rn: u32, off: i32) -> Result<u32, EncodeError>
    ensures { told result ≡ told (answer_if (is_pair_offset off) (MemoryPair Offset Ldp (twos 512 off / 8) rt2 rn rt1)) }
{
    pair(Mode::Offset, Pair::Ldp, rt1, rt2, rn, off)
}

pub fn ldp_post(rt1: u32, rt2: u32, rn: u32, off: i32) -> Result<u32, EncodeError>
    ensures { told result ≡ told (answer_if (is_pair_offset off) (MemoryPair Post Ldp (twos 512 off / 8) rt2 rn rt1)) }
{
    pair(Mode::Post, Pair::Ldp, rt1, rt2, rn, off)
}
