// What a step chooses: the word of an instruction, a number or a condition.
#![tactic(auto)]

ghost use Rattle.std.specs.Prelude.{◌≡◌, ◌%◌, ◌<◌};
ghost use Rattle.block.specs.Block.{kind_of, may_jump, uses_bus};
ghost use Rattle.code.specs.Items.{pick};
ghost use Rattle.lowering.specs.Instrs.{add_lsl, csel as csel_of, ubfx, sbfx, lsl_i, lsr_i, asr_i};
ghost use Rattle.lowering.specs.Steps.{alu as alu_of, acond as acond_of, ext as ext_of, choice, ones as ones_of, hole as hole_of};
ghost use Rattle.lowering.specs.Steps.{sign as sign_of};
ghost use Rattle.words.specs.Answers.{answer, word_of};
ghost use Rattle.choices.specs.Meaning.{instr_of, number_of};

use arm::{
    AddSub, Extract, Flags, Instr, Logic, Move, One, Second, Select, Shift, Size, Three, Two,
};
use block::{Choice, Cond, Fast, Op, Part, jumps, on_bus};

const KEEP: u32 = 23;

const KEEP2: u32 = 24;

const ZR: u32 = 31;

// A condition of the Arm manual (C1.2.4): each case has its number.
#[derive(Clone, Copy)]
enum Condition {
    Eq = 0,
    Ne = 1,
    Hs = 2,
    Lo = 3,
    Hi = 8,
    Ls = 9,
    Ge = 10,
    Lt = 11,
    Gt = 12,
    Le = 13,
}

// An instruction with no operand to choose: its name and its registers. A case, and no closure: the definition (`instr_of`) names it.
#[derive(Clone, Copy)]
pub enum Fixed {
    Movz11,
    Lslv112,
    Cmp01,
    CmpI00,
    CmpI10,
    Tst01,
    Mvn00,
    Neg00,
    CnegLt00,
    Rev00,
    Clz00,
    Csel010Gt,
    Csel010Lt,
    Csel0z0Lt,
    Csel2z2Eq,
    Sdiv201,
    Udiv201,
    Msub2210,
    And002,
    And112,
    And102,
    Orr001,
    Orr102,
    Eor102,
    Add102,
    Sub102,
    AddI004,
    SubI004,
    SubI001,
    Mov0Keep,
    MovKeep0,
    Add00Keep,
    MovKeep21,
    Mov1Keep2,
    Mov10,
}

// ---- classes of instructions on registers, in 32 bits
fn sum(o: AddSub, f: Flags, rd: u32, rn: u32, rm: u32) -> u32
    ensures { result ≡ word_of (answer (Instr.AddSubShifted Size.W o f Shift.Lsl rm 0 rn rd)) }
{
    words::add_sub_shifted(Size::W, o, f, Shift::Lsl, rm, 0, rn, rd)
}

fn logic(o: Logic, n: Second, rd: u32, rn: u32, rm: u32) -> u32
    ensures { result ≡ word_of (answer (Instr.LogicalShifted Size.W o n Shift.Lsl rm 0 rn rd)) }
{
    words::logical_shifted(Size::W, o, n, Shift::Lsl, rm, 0, rn, rd)
}

fn csel(rd: u32, rn: u32, rm: u32, cond: Condition) -> u32
    ensures { result ≡ word_of (answer (csel_of rd rn rm (number_of cond))) }
{
    words::cond_select(Size::W, Select::Csel, rm, cond as u32, rn, rd)
}

// Bits lsb to last of w0, to w0.
fn field(signed: bool, lsb: u32, last: u32) -> u32
    ensures { result ≡ word_of (answer (pick signed (Instr.Bitfield Size.W Extract.Sbfm lsb last 0 0) (Instr.Bitfield Size.W Extract.Ubfm lsb last 0 0))) }
{
    if signed {
        words::bitfield(Size::W, Extract::Sbfm, lsb, last, 0, 0)
    } else {
        words::bitfield(Size::W, Extract::Ubfm, lsb, last, 0, 0)
    }
}

// ---- instructions
pub fn named(f: Fixed) -> u32
    ensures { result ≡ word_of (answer (instr_of f)) }
{
    match f {
        Fixed::Movz11 => words::move_wide(Size::W, Move::Movz, 0, 1, 1),
        Fixed::Lslv112 => words::two_source(Size::W, Two::Lslv, 2, 1, 1),
        Fixed::Cmp01 => sum(AddSub::Sub, Flags::Sets, ZR, 0, 1),
        Fixed::CmpI00 => words::add_sub_imm(Size::W, AddSub::Sub, Flags::Sets, 0, 0, ZR),
        Fixed::CmpI10 => words::add_sub_imm(Size::W, AddSub::Sub, Flags::Sets, 0, 1, ZR),
        Fixed::Tst01 => logic(Logic::Ands, Second::Plain, ZR, 0, 1),
        Fixed::Mvn00 => logic(Logic::Orr, Second::Inverted, 0, ZR, 0),
        Fixed::Neg00 => sum(AddSub::Sub, Flags::Keeps, 0, ZR, 0),
        Fixed::CnegLt00 => words::cond_select(
            Size::W,
            Select::Csneg,
            0,
            Condition::Ge as u32,
            0,
            0,
        ),
        Fixed::Rev00 => words::one_source(One::Rev, 0, 0),
        Fixed::Clz00 => words::one_source(One::Clz, 0, 0),
        Fixed::Csel010Gt => csel(0, 1, 0, Condition::Gt),
        Fixed::Csel010Lt => csel(0, 1, 0, Condition::Lt),
        Fixed::Csel0z0Lt => csel(0, ZR, 0, Condition::Lt),
        Fixed::Csel2z2Eq => csel(2, ZR, 2, Condition::Eq),
        Fixed::Sdiv201 => words::two_source(Size::W, Two::Sdiv, 1, 0, 2),
        Fixed::Udiv201 => words::two_source(Size::W, Two::Udiv, 1, 0, 2),
        Fixed::Msub2210 => words::three_source(Three::Msub, 1, 0, 2, 2),
        Fixed::And002 => logic(Logic::And, Second::Plain, 0, 0, 2),
        Fixed::And112 => logic(Logic::And, Second::Plain, 1, 1, 2),
        Fixed::And102 => logic(Logic::And, Second::Plain, 1, 0, 2),
        Fixed::Orr001 => logic(Logic::Orr, Second::Plain, 0, 0, 1),
        Fixed::Orr102 => logic(Logic::Orr, Second::Plain, 1, 0, 2),
        Fixed::Eor102 => logic(Logic::Eor, Second::Plain, 1, 0, 2),
        Fixed::Add102 => sum(AddSub::Add, Flags::Keeps, 1, 0, 2),
        Fixed::Sub102 => sum(AddSub::Sub, Flags::Keeps, 1, 0, 2),
        Fixed::AddI004 => words::add_sub_imm(Size::W, AddSub::Add, Flags::Keeps, 4, 0, 0),
        Fixed::SubI004 => words::add_sub_imm(Size::W, AddSub::Sub, Flags::Keeps, 4, 0, 0),
        Fixed::SubI001 => words::add_sub_imm(Size::W, AddSub::Sub, Flags::Keeps, 1, 0, 0),
        Fixed::Mov0Keep => logic(Logic::Orr, Second::Plain, 0, ZR, KEEP),
        Fixed::MovKeep0 => logic(Logic::Orr, Second::Plain, KEEP, ZR, 0),
        Fixed::Add00Keep => sum(AddSub::Add, Flags::Keeps, 0, 0, KEEP),
        Fixed::MovKeep21 => logic(Logic::Orr, Second::Plain, KEEP2, ZR, 1),
        Fixed::Mov1Keep2 => logic(Logic::Orr, Second::Plain, 1, ZR, KEEP2),
        Fixed::Mov10 => logic(Logic::Orr, Second::Plain, 1, ZR, 0),
    }
}

// w0 = op(w0, w1)
pub fn alu(op: Op) -> u32
    ensures { result ≡ word_of (answer (alu_of op)) }
{
    match op {
        Op::Add => sum(AddSub::Add, Flags::Keeps, 0, 0, 1),
        Op::Sub => sum(AddSub::Sub, Flags::Keeps, 0, 0, 1),
        Op::RSub => sum(AddSub::Sub, Flags::Keeps, 0, 1, 0),
        Op::And => logic(Logic::And, Second::Plain, 0, 0, 1),
        Op::AndNot => logic(Logic::And, Second::Inverted, 0, 0, 1),
        Op::Or => logic(Logic::Orr, Second::Plain, 0, 0, 1),
        Op::Xor => logic(Logic::Eor, Second::Plain, 0, 0, 1),
        Op::Mul => words::three_source(Three::Madd, 1, ZR, 0, 0),
        Op::Shl => words::two_source(Size::W, Two::Lslv, 1, 0, 0),
        Op::Shr => words::two_source(Size::W, Two::Lsrv, 1, 0, 0),
        Op::Sar => words::two_source(Size::W, Two::Asrv, 1, 0, 0),
    }
}

// A part of w0, with its sign or without.
pub fn ext(part: Part, signed: bool) -> u32
    ensures { result ≡ word_of (answer (ext_of part signed)) }
{
    match part {
        Part::Byte => field(signed, 0, 7),
        Part::Half => field(signed, 0, 15),
        Part::Upper => field(signed, 16, 31),
    }
}

// w0 or w1, by the flags
pub fn select(kind: Choice) -> u32
    ensures { result ≡ word_of (answer (csel_of 0 0 1 (choice kind))) }
{
    match kind {
        Choice::MinS => csel(0, 0, 1, Condition::Lt),
        Choice::MaxS => csel(0, 0, 1, Condition::Gt),
        Choice::MinU => csel(0, 0, 1, Condition::Lo),
        Choice::MaxU => csel(0, 0, 1, Condition::Hi),
    }
}

// w0 shifted
pub fn lsl(n: u8) -> u32
    ensures { result ≡ word_of (answer (lsl_i 0 0 (n % 32))) }
{
    let sh = u32::from(n) % 32;
    words::bitfield(Size::W, Extract::Ubfm, (32 - sh) % 32, 31 - sh, 0, 0)
}

pub fn lsr(n: u8) -> u32
    ensures { result ≡ word_of (answer (lsr_i 0 0 (n % 32))) }
{
    field(false, u32::from(n) % 32, 31)
}

pub fn asr(n: u8) -> u32
    ensures { result ≡ word_of (answer (asr_i 0 0 (n % 32))) }
{
    field(true, u32::from(n) % 32, 31)
}

// w0 = w0 + w1 shifted
pub fn add_lsl(n: u8) -> u32
    ensures { result ≡ word_of (answer (add_lsl 0 0 1 (n % 32))) }
{
    words::add_sub_shifted(
        Size::W,
        AddSub::Add,
        Flags::Keeps,
        Shift::Lsl,
        1,
        u32::from(n) % 32,
        0,
        0,
    )
}

// The l lowest bits of w0, l not 0 in 5 bits.
pub fn low(l: u8, signed: bool) -> u32
    ensures { result ≡ word_of (answer (pick signed (sbfx 0 0 0 (l % 32)) (ubfx 0 0 0 (l % 32)))) }
{
    let n = u32::from(l) % 32;
    if n == 0 {
        return field(signed, 0, 0);
    }
    field(signed, 0, n - 1)
}

// ---- numbers
// l ones, or for 0 every bit
pub fn ones(l: u8) -> u32
    ensures { result ≡ ones_of (l % 32) }
{
    let n = u32::from(l) % 32;
    if n == 0 {
        return 0xffff_ffff;
    }
    (1 << n) - 1
}

// Every bit but l, from p on.
pub fn hole(p: u8, l: u8) -> u32
    ensures { result ≡ hole_of (p % 32) (l % 32) }
{
    0xffff_ffff - (ones(l) << (u32::from(p) % 32))
}

// The sign of v in every bit.
pub fn sign(v: u32) -> u32
    ensures { result ≡ sign_of v }
{
    if v < 0x8000_0000 { 0 } else { 0xffff_ffff }
}

// ---- conditions
pub fn acond(c: Cond) -> u32
    ensures { (result ≡ acond_of c) × (result < 16) }
{
    let condition = match c {
        Cond::Eq => Condition::Eq,
        Cond::Ne => Condition::Ne,
        Cond::LtU => Condition::Lo,
        Cond::GtU => Condition::Hi,
        Cond::LeU => Condition::Ls,
        Cond::GeU => Condition::Hs,
        Cond::LtS => Condition::Lt,
        Cond::GtS => Condition::Gt,
        Cond::LeS => Condition::Le,
        Cond::GeS => Condition::Ge,
    };
    condition as u32
}

// The number of a kind, as a record has it: a case that holds values has no discriminant of its own.
pub fn kind(f: Fast) -> u8
    ensures { result ≡ kind_of f }
{
    match f {
        Fast::Nop => 0,
        Fast::MovI { .. } => 1,
        Fast::Mov { .. } => 2,
        Fast::AddRI { .. } => 3,
        Fast::ShlI { .. } => 4,
        Fast::SarI { .. } => 5,
        Fast::Alu3 { .. } => 6,
        Fast::Alu3I { .. } => 7,
        Fast::Alu2 { .. } => 8,
        Fast::Alu2I { .. } => 9,
        Fast::A4 { .. } => 10,
        Fast::Ext { .. } => 11,
        Fast::MinMax { .. } => 12,
        Fast::Un { .. } => 13,
        Fast::Div { .. } => 14,
        Fast::Mov2 { .. } => 15,
        Fast::Mov2I { .. } => 16,
        Fast::BitExt { .. } => 17,
        Fast::BitIns { .. } => 18,
        Fast::SpAdd { .. } => 19,
        Fast::RFromSp { .. } => 20,
        Fast::Ld { .. } => 21,
        Fast::St { .. } => 22,
        Fast::LdIdx { .. } => 23,
        Fast::StIdx { .. } => 24,
        Fast::LdPost { .. } => 25,
        Fast::StPost { .. } => 26,
        Fast::Rmw { .. } => 27,
        Fast::PushRet => 28,
        Fast::PopRets => 29,
        Fast::BrI { .. } => 30,
        Fast::BrR { .. } => 31,
        Fast::DecBr { .. } => 32,
        Fast::BitBr { .. } => 33,
        Fast::Goto { .. } => 34,
        Fast::Call { .. } => 35,
        Fast::Rts => 36,
        Fast::GotoR { .. } => 37,
        Fast::CallR { .. } => 38,
        Fast::PopRet => 39,
        Fast::BlockMove { .. } => 40,
        Fast::PushRets { .. } => 41,
        Fast::PopPc { .. } => 42,
        Fast::LdPair { .. } => 43,
        Fast::StPair { .. } => 44,
        Fast::LdPre { .. } => 45,
        Fast::StPre { .. } => 46,
        Fast::LdPostR { .. } => 47,
        Fast::MemA4 { .. } => 48,
        Fast::Tb { .. } => 49,
    }
}

pub fn uses_bus(f: Fast) -> bool
    ensures { result ≡ uses_bus f }
{
    on_bus(kind(f))
}

pub fn may_jump(f: Fast) -> bool
    ensures { result ≡ may_jump f }
{
    jumps(kind(f))
}
