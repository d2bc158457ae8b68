// The word of an instruction by its class, and 0 where it is refused. No instruction is built, so that constant operands give a constant word.
#![tactic(auto, using(crate::proofs::Answers::answers_is))]

ghost use Rattle.std.specs.Prelude.{◌≡◌};
ghost use Rattle.arm.specs.declared.Instr.TheVariants.{MoveWide, AddSubImm, AddSubShifted, LogicalShifted, Bitfield, OneSource, TwoSource, ThreeSource, CondSelect, MemoryImm, MemoryReg, MemoryPair, BranchReg};
ghost use Rattle.words.specs.Answers.{answer, word_of};

use super::{classes, word_of};
use arm::{
    Access, AddSub, Extract, Flags, Jump, Logic, Mode, Move, One, Pair, Scale, Second, Select,
    Shift, Size, Three, Two,
};

pub fn move_wide(z: Size, m: Move, hw: u32, imm16: u32, rd: u32) -> u32
    ensures { result ≡ word_of (answer (MoveWide z m hw imm16 rd)) }
{
    word_of(classes::move_wide(z, m, hw, imm16, rd))
}

pub fn add_sub_imm(z: Size, o: AddSub, f: Flags, imm12: u32, rn: u32, rd: u32) -> u32
    ensures { result ≡ word_of (answer (AddSubImm z o f imm12 rn rd)) }
{
    word_of(classes::add_sub_imm(z, o, f, imm12, rn, rd))
}

pub fn add_sub_shifted(
    z: Size,
    o: AddSub,
    f: Flags,
    h: Shift,
    rm: u32,
    imm6: u32,
    rn: u32,
    rd: u32,
) -> u32
    ensures { result ≡ word_of (answer (AddSubShifted z o f h rm imm6 rn rd)) }
{
    word_of(classes::add_sub_shifted(z, o, f, h, rm, imm6, rn, rd))
}

pub fn logical_shifted(
    z: Size,
    o: Logic,
    v: Second,
    h: Shift,
    rm: u32,
    imm6: u32,
    rn: u32,
    rd: u32,
) -> u32
    ensures { result ≡ word_of (answer (LogicalShifted z o v h rm imm6 rn rd)) }
{
    word_of(classes::logical_shifted(z, o, v, h, rm, imm6, rn, rd))
}

pub fn bitfield(z: Size, o: Extract, immr: u32, imms: u32, rn: u32, rd: u32) -> u32
    ensures { result ≡ word_of (answer (Bitfield z o immr imms rn rd)) }
{
    word_of(classes::bitfield(z, o, immr, imms, rn, rd))
}

pub fn one_source(o: One, rn: u32, rd: u32) -> u32
    ensures { result ≡ word_of (answer (OneSource o rn rd)) }
{
    word_of(classes::one_source(o, rn, rd))
}

pub fn two_source(z: Size, o: Two, rm: u32, rn: u32, rd: u32) -> u32
    ensures { result ≡ word_of (answer (TwoSource z o rm rn rd)) }
{
    word_of(classes::two_source(z, o, rm, rn, rd))
}

pub fn three_source(o: Three, rm: u32, ra: u32, rn: u32, rd: u32) -> u32
    ensures { result ≡ word_of (answer (ThreeSource o rm ra rn rd)) }
{
    word_of(classes::three_source(o, rm, ra, rn, rd))
}

pub fn cond_select(z: Size, o: Select, rm: u32, cond: u32, rn: u32, rd: u32) -> u32
    ensures { result ≡ word_of (answer (CondSelect z o rm cond rn rd)) }
{
    word_of(classes::cond_select(z, o, rm, cond, rn, rd))
}

pub fn memory_imm(a: Access, imm12: u32, rn: u32, rt: u32) -> u32
    ensures { result ≡ word_of (answer (MemoryImm a imm12 rn rt)) }
{
    word_of(classes::memory_imm(a, imm12, rn, rt))
}

pub fn memory_reg(a: Access, c: Scale, rm: u32, rn: u32, rt: u32) -> u32
    ensures { result ≡ word_of (answer (MemoryReg a c rm rn rt)) }
{
    word_of(classes::memory_reg(a, c, rm, rn, rt))
}

pub fn memory_pair(m: Mode, p: Pair, imm7: u32, rt2: u32, rn: u32, rt: u32) -> u32
    ensures { result ≡ word_of (answer (MemoryPair m p imm7 rt2 rn rt)) }
{
    word_of(classes::memory_pair(m, p, imm7, rt2, rn, rt))
}

pub fn branch_reg(j: Jump, rn: u32) -> u32
    ensures { result ≡ word_of (answer (BranchReg j rn)) }
{
    word_of(classes::branch_reg(j, rn))
}
