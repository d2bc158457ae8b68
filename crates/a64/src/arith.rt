// Sums, products and quotients.
ghost use Rattle.std.specs.Prelude.{◌≡◌};
ghost use Rattle.arm.specs.declared.Size.TheVariants.{W, X};
ghost use Rattle.arm.specs.declared.AddSub.TheVariants.{Add, Sub};
ghost use Rattle.arm.specs.declared.Flags.TheVariants.{Keeps, Sets};
ghost use Rattle.arm.specs.declared.Shift.TheVariants.{Lsl, Lsr};
ghost use Rattle.arm.specs.declared.Two.TheVariants.{Udiv, Sdiv};
ghost use Rattle.arm.specs.declared.Three.TheVariants.{Madd, Msub, Smaddl, Umaddl};
ghost use Rattle.arm.specs.declared.Instr.TheVariants.{AddSubImm, AddSubShifted, TwoSource, ThreeSource};
ghost use Rattle.words.specs.Answers.{answer, told};

use arm::{AddSub, Flags, Instr, Shift, Size, Three, Two};
use words::{EncodeError, encode};

pub fn add_imm(rd: u32, rn: u32, imm: u32) -> Result<u32, EncodeError>
    ensures { told result ≡ told (answer (AddSubImm W Add Keeps imm rn rd)) }
{
    encode(Instr::AddSubImm(Size::W, AddSub::Add, Flags::Keeps, imm, rn, rd))
}

pub fn sub_imm(rd: u32, rn: u32, imm: u32) -> Result<u32, EncodeError>
    ensures { told result ≡ told (answer (AddSubImm W Sub Keeps imm rn rd)) }
{
    encode(Instr::AddSubImm(Size::W, AddSub::Sub, Flags::Keeps, imm, rn, rd))
}

pub fn subs_imm(rd: u32, rn: u32, imm: u32) -> Result<u32, EncodeError>
    ensures { told result ≡ told (answer (AddSubImm W Sub Sets imm rn rd)) }
{
    encode(Instr::AddSubImm(Size::W, AddSub::Sub, Flags::Sets, imm, rn, rd))
}

pub fn add_imm_x(rd: u32, rn: u32, imm: u32) -> Result<u32, EncodeError>
    ensures { told result ≡ told (answer (AddSubImm X Add Keeps imm rn rd)) }
{
    encode(Instr::AddSubImm(Size::X, AddSub::Add, Flags::Keeps, imm, rn, rd))
}

pub fn cmp_imm(rn: u32, imm: u32) -> Result<u32, EncodeError>
    ensures { told result ≡ told (answer (AddSubImm W Sub Sets imm rn 31)) }
{
    encode(Instr::AddSubImm(Size::W, AddSub::Sub, Flags::Sets, imm, rn, 31))
}

pub fn add(rd: u32, rn: u32, rm: u32) -> Result<u32, EncodeError>
    ensures { told result ≡ told (answer (AddSubShifted W Add Keeps Lsl rm 0 rn rd)) }
{
    encode(Instr::AddSubShifted(
        Size::W,
        AddSub::Add,
        Flags::Keeps,
        Shift::Lsl,
        rm,
        0,
        rn,
        rd,
    ))
}

pub fn add_x(rd: u32, rn: u32, rm: u32) -> Result<u32, EncodeError>
    ensures { told result ≡ told (answer (AddSubShifted X Add Keeps Lsl rm 0 rn rd)) }
{
    encode(Instr::AddSubShifted(
        Size::X,
        AddSub::Add,
        Flags::Keeps,
        Shift::Lsl,
        rm,
        0,
        rn,
        rd,
    ))
}

pub fn add_lsl(rd: u32, rn: u32, rm: u32, sh: u32) -> Result<u32, EncodeError>
    ensures { told result ≡ told (answer (AddSubShifted W Add Keeps Lsl rm sh rn rd)) }
{
    encode(Instr::AddSubShifted(
        Size::W,
        AddSub::Add,
        Flags::Keeps,
        Shift::Lsl,
        rm,
        sh,
        rn,
        rd,
    ))
}

pub fn add_lsr(rd: u32, rn: u32, rm: u32, sh: u32) -> Result<u32, EncodeError>
    ensures { told result ≡ told (answer (AddSubShifted W Add Keeps Lsr rm sh rn rd)) }
{
    encode(Instr::AddSubShifted(
        Size::W,
        AddSub::Add,
        Flags::Keeps,
        Shift::Lsr,
        rm,
        sh,
        rn,
        rd,
    ))
}

pub fn add_x_lsl(rd: u32, rn: u32, rm: u32, sh: u32) -> Result<u32, EncodeError>
    ensures { told result ≡ told (answer (AddSubShifted X Add Keeps Lsl rm sh rn rd)) }
{
    encode(Instr::AddSubShifted(
        Size::X,
        AddSub::Add,
        Flags::Keeps,
        Shift::Lsl,
        rm,
        sh,
        rn,
        rd,
    ))
}

pub fn sub(rd: u32, rn: u32, rm: u32) -> Result<u32, EncodeError>
    ensures { told result ≡ told (answer (AddSubShifted W Sub Keeps Lsl rm 0 rn rd)) }
{
    encode(Instr::AddSubShifted(
        Size::W,
        AddSub::Sub,
        Flags::Keeps,
        Shift::Lsl,
        rm,
        0,
        rn,
        rd,
    ))
}

pub fn sub_lsl(rd: u32, rn: u32, rm: u32, sh: u32) -> Result<u32, EncodeError>
    ensures { told result ≡ told (answer (AddSubShifted W Sub Keeps Lsl rm sh rn rd)) }
{
    encode(Instr::AddSubShifted(
        Size::W,
        AddSub::Sub,
        Flags::Keeps,
        Shift::Lsl,
        rm,
        sh,
        rn,
        rd,
    ))
}

pub fn subs(rd: u32, rn: u32, rm: u32) -> Result<u32, EncodeError>
    ensures { told result ≡ told (answer (AddSubShifted W Sub Sets Lsl rm 0 rn rd)) }
{
    encode(Instr::AddSubShifted(Size::W, AddSub::Sub, Flags::Sets, Shift::Lsl, rm, 0, rn, rd))
}

pub fn cmp(rn: u32, rm: u32) -> Result<u32, EncodeError>
    ensures { told result ≡ told (answer (AddSubShifted W Sub Sets Lsl rm 0 rn 31)) }
{
    encode(Instr::AddSubShifted(Size::W, AddSub::Sub, Flags::Sets, Shift::Lsl, rm, 0, rn, 31))
}

pub fn cmp_x(rn: u32, rm: u32) -> Result<u32, EncodeError>
    ensures { told result ≡ told (answer (AddSubShifted X Sub Sets Lsl rm 0 rn 31)) }
{
    encode(Instr::AddSubShifted(Size::X, AddSub::Sub, Flags::Sets, Shift::Lsl, rm, 0, rn, 31))
}

pub fn neg(rd: u32, rm: u32) -> Result<u32, EncodeError>
    ensures { told result ≡ told (answer (AddSubShifted W Sub Keeps Lsl rm 0 31 rd)) }
{
    encode(Instr::AddSubShifted(
        Size::W,
        AddSub::Sub,
        Flags::Keeps,
        Shift::Lsl,
        rm,
        0,
        31,
        rd,
    ))
}

pub fn sdiv(rd: u32, rn: u32, rm: u32) -> Result<u32, EncodeError>
    ensures { told result ≡ told (answer (TwoSource W Sdiv rm rn rd)) }
{
    encode(Instr::TwoSource(Size::W, Two::Sdiv, rm, rn, rd))
}

pub fn udiv(rd: u32, rn: u32, rm: u32) -> Result<u32, EncodeError>
    ensures { told result ≡ told (answer (TwoSource W Udiv rm rn rd)) }
{
    encode(Instr::TwoSource(Size::W, Two::Udiv, rm, rn, rd))
}

pub fn msub(rd: u32, rn: u32, rm: u32, ra: u32) -> Result<u32, EncodeError>
    ensures { told result ≡ told (answer (ThreeSource Msub rm ra rn rd)) }
{
    encode(Instr::ThreeSource(Three::Msub, rm, ra, rn, rd))
}

pub fn mul(rd: u32, rn: u32, rm: u32) -> Result<u32, EncodeError>
    ensures { told result ≡ told (answer (ThreeSource Madd rm 31 rn rd)) }
{
    encode(Instr::ThreeSource(Three::Madd, rm, 31, rn, rd))
}

pub fn umull(rd: u32, rn: u32, rm: u32) -> Result<u32, EncodeError>
    ensures { told result ≡ told (answer (ThreeSource Umaddl rm 31 rn rd)) }
{
    encode(Instr::ThreeSource(Three::Umaddl, rm, 31, rn, rd))
}

pub fn smull(rd: u32, rn: u32, rm: u32) -> Result<u32, EncodeError>
    ensures { told result ≡ told (answer (ThreeSource Smaddl rm 31 rn rd)) }
{
    encode(Instr::ThreeSource(Three::Smaddl, rm, 31, rn, rd))
}
