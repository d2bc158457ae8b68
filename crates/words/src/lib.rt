// An instruction's word, or why it is refused.
#![tactic(auto)]

ghost use Rattle.std.specs.Prelude.{◌≡◌};
ghost use Rattle.words.specs.Answers.{answer, answer_if, number, told, word_of};

use arm::Instr;

mod classes;
mod numbers;
mod signed;
mod single;

pub use classes::below;
pub use signed::{reaches, twos};
pub use single::{
    add_sub_imm, add_sub_shifted, bitfield, branch_reg, cond_select, logical_shifted, memory_imm,
    memory_pair, memory_reg, move_wide, one_source, three_source, two_source,
};

// Why an encoder or link refuses, by document 01's number of the fault.
#[derive(Clone, Copy, Debug, PartialEq, Eq)]
pub enum EncodeError {
    // link: the distance is out of reach
    Reach = 11,
    // link: an address is not a multiple of 4
    Unaligned = 12,
    // an encoder: a register above 31, or a number that the instruction cannot carry
    Operand = 13,
}

impl From<EncodeError> for u32 {
    ghost from_gives = { λ e n. n ≡ number e };

    fn from(e: EncodeError) -> u32 {
        e as u32
    }
}

// The instruction's word, where each operand fits its field.
#[tactic(auto, using(crate::proofs::Answers::answers_is))]
pub fn encode(i: Instr) -> Result<u32, EncodeError>
    ensures { told result ≡ told (answer i) }
{
    match i {
        Instr::MoveWide(z, m, hw, imm16, rd) => classes::move_wide(z, m, hw, imm16, rd),
        Instr::AddSubImm(z, o, f, imm12, rn, rd) => classes::add_sub_imm(z, o, f, imm12, rn, rd),
        Instr::AddSubShifted(z, o, f, h, rm, imm6, rn, rd) => classes::add_sub_shifted(
            z, o, f, h, rm, imm6, rn, rd,
        ),
        Instr::LogicalShifted(z, o, v, h, rm, imm6, rn, rd) => classes::logical_shifted(
            z, o, v, h, rm, imm6, rn, rd,
        ),
        Instr::LogicalImm(o, immr, imms, rn, rd) => classes::logical_imm(o, immr, imms, rn, rd),
        Instr::Bitfield(z, o, immr, imms, rn, rd) => classes::bitfield(z, o, immr, imms, rn, rd),
        Instr::OneSource(o, rn, rd) => classes::one_source(o, rn, rd),
        Instr::TwoSource(z, o, rm, rn, rd) => classes::two_source(z, o, rm, rn, rd),
        Instr::ThreeSource(o, rm, ra, rn, rd) => classes::three_source(o, rm, ra, rn, rd),
        Instr::CondSelect(z, o, rm, cond, rn, rd) => classes::cond_select(z, o, rm, cond, rn, rd),
        Instr::MemoryImm(a, imm12, rn, rt) => classes::memory_imm(a, imm12, rn, rt),
        Instr::MemoryReg(a, c, rm, rn, rt) => classes::memory_reg(a, c, rm, rn, rt),
        Instr::MemoryPair(m, p, imm7, rt2, rn, rt) => classes::memory_pair(m, p, imm7, rt2, rn, rt),
        Instr::CompareBranch(z, t, imm19, rt) => classes::compare_branch(z, t, imm19, rt),
        Instr::TestBranch(t, bit, imm14, rt) => classes::test_branch(t, bit, imm14, rt),
        Instr::CondBranch(imm19, cond) => classes::cond_branch(imm19, cond),
        Instr::Branch(imm26) => classes::branch(imm26),
        Instr::BranchReg(j, rn) => classes::branch_reg(j, rn),
        Instr::Adr(imm, rd) => classes::adr(imm, rd),
        Instr::LoadLiteral(imm19, rt) => classes::load_literal(imm19, rt),
        Instr::Nop => classes::nop(),
        Instr::FloatTwo(o, rm, rn, rd) => classes::float_two(o, rm, rn, rd),
        Instr::FloatCompare(rm, rn) => classes::float_compare(rm, rn),
        Instr::FloatConvert(o, rn, rd) => classes::float_convert(o, rn, rd),
    }
}

// The same under a condition that stands beside the fields.
#[tactic(auto, unfolding(crate::specs::Answers::answer, crate::specs::Answers::answer_if))]
pub fn encode_if(ok: bool, i: Instr) -> Result<u32, EncodeError>
    ensures { told result ≡ told (answer_if ok i) }
{
    if !ok {
        return Err(EncodeError::Operand);
    }
    encode(i)
}

// The word alone, and 0 where there is none.
fn word_of(e: Result<u32, EncodeError>) -> u32
    ensures { result ≡ word_of e }
{
    e.unwrap_or(0)
}

pub fn word(i: Instr) -> u32
    ensures { result ≡ word_of (answer i) }
{
    word_of(encode(i))
}
