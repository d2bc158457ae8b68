// One function a class of the manual: the diagram's pieces from left to right, each shifted to its place.
#![tactic(auto, unfolding(crate::specs::Answers::Answers))]

ghost use Rattle.std.specs.Prelude.{◌≡◌, MatchResult, ◌+◌, ◌*◌, ◌^◌, ◌<◌, ◌≤◌};
ghost use Rattle.arm.specs.declared.Instr.TheVariants.{MoveWide, AddSubImm, AddSubShifted, LogicalShifted, LogicalImm, Bitfield, OneSource, TwoSource, ThreeSource, CondSelect, MemoryImm, MemoryReg, MemoryPair, CompareBranch, TestBranch, CondBranch, Branch, BranchReg, Adr, LoadLiteral, Nop, FloatTwo, FloatCompare, FloatConvert};
ghost use Rattle.words.specs.declared.EncodeError.TheVariants.{Operand};
ghost use Rattle.words.specs.Answers.{Answers};

use super::EncodeError;
use super::numbers::{
    access_opc, access_size, bits, select_op, select_op2, three_o0, three_op31, three_sf,
};
use arm::{
    Access, AddSub, Convert, Extract, Flags, Float, Jump, Logic, Mode, Move, One, Pair, Scale,
    Second, Select, Shift, Size, Test, Three, Two,
};

// An operand is below the limit that its field sets, or refused.
pub fn below(x: u32, limit: u32) -> Result<(), EncodeError>
    ensures { MatchResult result (λ _. x < limit) (λ e. (e ≡ Operand) × (limit ≤ x)) }
{
    if x < limit {
        Ok(())
    } else {
        Err(EncodeError::Operand)
    }
}

// The lower 22 bits of four classes: a number or register, a number, and two registers.
fn lower(a: u32, b: u32, rn: u32, rd: u32) -> u32
    requires { (a < 2 ^ 6) × (b < 2 ^ 6) × (rn < 2 ^ 5) × (rd < 2 ^ 5) }
    ensures { (result ≡ a * 2 ^ 16 + (b * 2 ^ 10 + (rn * 2 ^ 5 + rd))) × (result < 2 ^ 22) }
{
    (a << 16) + (b << 10) + (rn << 5) + rd
}

pub fn move_wide(z: Size, m: Move, hw: u32, imm16: u32, rd: u32) -> Result<u32, EncodeError>
    ensures { Answers (MoveWide z m hw imm16 rd) result }
{
    below(rd, 32)?;
    below(imm16, 65536)?;
    below(hw, 4)?;
    below(hw * 16, bits(z))?;
    Ok(((z as u32) << 31) + ((m as u32) << 29) + (0b100101 << 23) + (hw << 21) + (imm16 << 5) + rd)
}

pub fn add_sub_imm(
    z: Size,
    o: AddSub,
    f: Flags,
    imm12: u32,
    rn: u32,
    rd: u32,
) -> Result<u32, EncodeError>
    ensures { Answers (AddSubImm z o f imm12 rn rd) result }
{
    below(rn.max(rd), 32)?;
    below(imm12, 4096)?;
    Ok(
        ((z as u32) << 31)
            + ((o as u32) << 30)
            + ((f as u32) << 29)
            + (0b100010 << 23)
            + (imm12 << 10)
            + (rn << 5)
            + rd,
    )
}

pub fn add_sub_shifted(
    z: Size,
    o: AddSub,
    f: Flags,
    h: Shift,
    rm: u32,
    imm6: u32,
    rn: u32,
    rd: u32,
) -> Result<u32, EncodeError>
    ensures { Answers (AddSubShifted z o f h rm imm6 rn rd) result }
{
    below(rm.max(rn).max(rd), 32)?;
    below(h as u32, 3)?;
    below(imm6, bits(z))?;
    Ok(
        ((z as u32) << 31)
            + ((o as u32) << 30)
            + ((f as u32) << 29)
            + (0b01011 << 24)
            + ((h as u32) << 22)
            + lower(rm, imm6, rn, rd),
    )
}

pub fn logical_shifted(
    z: Size,
    o: Logic,
    v: Second,
    h: Shift,
    rm: u32,
    imm6: u32,
    rn: u32,
    rd: u32,
) -> Result<u32, EncodeError>
    ensures { Answers (LogicalShifted z o v h rm imm6 rn rd) result }
{
    below(rm.max(rn).max(rd), 32)?;
    below(imm6, bits(z))?;
    Ok(
        ((z as u32) << 31)
            + ((o as u32) << 29)
            + (0b01010 << 24)
            + ((h as u32) << 22)
            + ((v as u32) << 21)
            + lower(rm, imm6, rn, rd),
    )
}

pub fn logical_imm(o: Logic, immr: u32, imms: u32, rn: u32, rd: u32) -> Result<u32, EncodeError>
    ensures { Answers (LogicalImm o immr imms rn rd) result }
{
    below(immr.max(rn).max(rd), 32)?;
    below(imms, 31)?;
    Ok(((o as u32) << 29) + (0b100100 << 23) + (immr << 16) + (imms << 10) + (rn << 5) + rd)
}

pub fn bitfield(
    z: Size,
    o: Extract,
    immr: u32,
    imms: u32,
    rn: u32,
    rd: u32,
) -> Result<u32, EncodeError>
    ensures { Answers (Bitfield z o immr imms rn rd) result }
{
    below(rn.max(rd), 32)?;
    below(immr.max(imms), bits(z))?;
    Ok(
        ((z as u32) << 31)
            + ((o as u32) << 29)
            + (0b100110 << 23)
            + ((z as u32) << 22)
            + lower(immr, imms, rn, rd),
    )
}

pub fn one_source(o: One, rn: u32, rd: u32) -> Result<u32, EncodeError>
    ensures { Answers (OneSource o rn rd) result }
{
    below(rn.max(rd), 32)?;
    Ok((0b0101101011000000 << 16) + ((o as u32) << 10) + (rn << 5) + rd)
}

pub fn two_source(z: Size, o: Two, rm: u32, rn: u32, rd: u32) -> Result<u32, EncodeError>
    ensures { Answers (TwoSource z o rm rn rd) result }
{
    below(rm.max(rn).max(rd), 32)?;
    Ok(((z as u32) << 31) + (0b0011010110 << 21) + (rm << 16) + ((o as u32) << 10) + (rn << 5) + rd)
}

pub fn three_source(o: Three, rm: u32, ra: u32, rn: u32, rd: u32) -> Result<u32, EncodeError>
    ensures { Answers (ThreeSource o rm ra rn rd) result }
{
    below(rm.max(ra).max(rn).max(rd), 32)?;
    Ok(
        (three_sf(o) << 31)
            + (0b0011011 << 24)
            + (three_op31(o) << 21)
            + (rm << 16)
            + (three_o0(o) << 15)
            + (ra << 10)
            + (rn << 5)
            + rd,
    )
}

pub fn cond_select(
    z: Size,
    o: Select,
    rm: u32,
    cond: u32,
    rn: u32,
    rd: u32,
) -> Result<u32, EncodeError>
    ensures { Answers (CondSelect z o rm cond rn rd) result }
{
    below(rm.max(rn).max(rd), 32)?;
    below(cond, 16)?;
    Ok(
        ((z as u32) << 31)
            + (select_op(o) << 30)
            + (0b011010100 << 21)
            + (rm << 16)
            + (cond << 12)
            + (select_op2(o) << 10)
            + (rn << 5)
            + rd,
    )
}

pub fn memory_imm(a: Access, imm12: u32, rn: u32, rt: u32) -> Result<u32, EncodeError>
    ensures { Answers (MemoryImm a imm12 rn rt) result }
{
    below(rn.max(rt), 32)?;
    below(imm12, 4096)?;
    Ok(
        (access_size(a) << 30)
            + (0b111001 << 24)
            + (access_opc(a) << 22)
            + (imm12 << 10)
            + (rn << 5)
            + rt,
    )
}

pub fn memory_reg(a: Access, c: Scale, rm: u32, rn: u32, rt: u32) -> Result<u32, EncodeError>
    ensures { Answers (MemoryReg a c rm rn rt) result }
{
    below(rm.max(rn).max(rt), 32)?;
    Ok(
        (access_size(a) << 30)
            + (0b111000 << 24)
            + (access_opc(a) << 22)
            + (1 << 21)
            + (rm << 16)
            + (0b010 << 13)
            + ((c as u32) << 12)
            + (0b10 << 10)
            + (rn << 5)
            + rt,
    )
}

pub fn memory_pair(
    m: Mode,
    p: Pair,
    imm7: u32,
    rt2: u32,
    rn: u32,
    rt: u32,
) -> Result<u32, EncodeError>
    ensures { Answers (MemoryPair m p imm7 rt2 rn rt) result }
{
    below(rt2.max(rn).max(rt), 32)?;
    below(imm7, 128)?;
    Ok(
        (0b1010100 << 25)
            + ((m as u32) << 23)
            + ((p as u32) << 22)
            + (imm7 << 15)
            + (rt2 << 10)
            + (rn << 5)
            + rt,
    )
}

pub fn compare_branch(z: Size, t: Test, imm19: u32, rt: u32) -> Result<u32, EncodeError>
    ensures { Answers (CompareBranch z t imm19 rt) result }
{
    below(rt, 32)?;
    below(imm19, 0x8_0000)?;
    Ok(((z as u32) << 31) + (0b011010 << 25) + ((t as u32) << 24) + (imm19 << 5) + rt)
}

pub fn test_branch(t: Test, bit: u32, imm14: u32, rt: u32) -> Result<u32, EncodeError>
    ensures { Answers (TestBranch t bit imm14 rt) result }
{
    below(rt, 32)?;
    below(bit, 64)?;
    below(imm14, 0x4000)?;
    Ok(
        ((bit / 32) << 31)
            + (0b011011 << 25)
            + ((t as u32) << 24)
            + ((bit % 32) << 19)
            + (imm14 << 5)
            + rt,
    )
}

pub fn cond_branch(imm19: u32, cond: u32) -> Result<u32, EncodeError>
    ensures { Answers (CondBranch imm19 cond) result }
{
    below(cond, 16)?;
    below(imm19, 0x8_0000)?;
    Ok((0b01010100 << 24) + (imm19 << 5) + cond)
}

pub fn branch(imm26: u32) -> Result<u32, EncodeError>
    ensures { Answers (Branch imm26) result }
{
    below(imm26, 0x400_0000)?;
    Ok((0b000101 << 26) + imm26)
}

pub fn branch_reg(j: Jump, rn: u32) -> Result<u32, EncodeError>
    ensures { Answers (BranchReg j rn) result }
{
    below(rn, 32)?;
    Ok((0b110101100 << 23) + ((j as u32) << 21) + (0b11111000000 << 10) + (rn << 5))
}

pub fn adr(imm: u32, rd: u32) -> Result<u32, EncodeError>
    ensures { Answers (Adr imm rd) result }
{
    below(rd, 32)?;
    below(imm, 0x20_0000)?;
    Ok(((imm % 4) << 29) + (0b10000 << 24) + ((imm / 4) << 5) + rd)
}

pub fn load_literal(imm19: u32, rt: u32) -> Result<u32, EncodeError>
    ensures { Answers (LoadLiteral imm19 rt) result }
{
    below(rt, 32)?;
    below(imm19, 0x8_0000)?;
    Ok((0b01011000 << 24) + (imm19 << 5) + rt)
}

pub fn nop() -> Result<u32, EncodeError>
    ensures { Answers Nop result }
{
    Ok(0xd503_201f)
}

pub fn float_two(o: Float, rm: u32, rn: u32, rd: u32) -> Result<u32, EncodeError>
    ensures { Answers (FloatTwo o rm rn rd) result }
{
    below(rm.max(rn).max(rd), 32)?;
    Ok((0b00011110001 << 21) + (rm << 16) + ((o as u32) << 12) + (0b10 << 10) + (rn << 5) + rd)
}

pub fn float_compare(rm: u32, rn: u32) -> Result<u32, EncodeError>
    ensures { Answers (FloatCompare rm rn) result }
{
    below(rm.max(rn), 32)?;
    Ok((0b00011110001 << 21) + (rm << 16) + (0b001000 << 10) + (rn << 5))
}

pub fn float_convert(o: Convert, rn: u32, rd: u32) -> Result<u32, EncodeError>
    ensures { Answers (FloatConvert o rn rd) result }
{
    below(rn.max(rd), 32)?;
    Ok((0b00011110001 << 21) + ((o as u32) << 16) + (rn << 5) + rd)
}
