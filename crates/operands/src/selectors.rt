// The operands that choose: a number to a case. A number above the cases is the last: functions, since a
// `From` promises that nothing is lost, and a `TryFrom` would refuse what a record may hold.
ghost use Rattle.std.specs.Prelude.{◌≡◌};
ghost use Rattle.operands.specs.Kinds.{op_of, rmw_op_of, cond_of, base_of, amount_of, width_of, rk_of, part_of, choice_of};
ghost use Rattle.operands.specs.Kinds.{un_kind_of, div_kind_of};

use crate::numbers::low;
use block::{Amount, Base, Choice, Cond, DivKind, Op, Part, Rk, RmwOp, UnKind, Width};

pub fn op_of(x: u32) -> Op
    ensures { result ≡ op_of x }
{
    match x {
        0 => Op::Add,
        1 => Op::Sub,
        2 => Op::RSub,
        3 => Op::And,
        4 => Op::AndNot,
        5 => Op::Or,
        6 => Op::Xor,
        7 => Op::Mul,
        8 => Op::Shl,
        9 => Op::Shr,
        _ => Op::Sar,
    }
}

pub fn rmw_op_of(x: u32) -> RmwOp
    ensures { result ≡ rmw_op_of x }
{
    match x {
        0 => RmwOp::Or,
        1 => RmwOp::And,
        2 => RmwOp::Xor,
        3 => RmwOp::Add,
        4 => RmwOp::Sub,
        _ => RmwOp::Mov,
    }
}

pub fn cond_of(x: u32) -> Cond
    ensures { result ≡ cond_of x }
{
    match x {
        0 => Cond::Eq,
        1 => Cond::Ne,
        2 => Cond::LtU,
        3 => Cond::GtU,
        4 => Cond::LeU,
        5 => Cond::GeU,
        6 => Cond::LtS,
        7 => Cond::GtS,
        8 => Cond::LeS,
        _ => Cond::GeS,
    }
}

pub fn base_of(x: u32) -> Base
    ensures { result ≡ base_of x }
{
    if x < 16 { Base::Reg(low(x)) } else { Base::Sp }
}

// Above the registers i chooses the increment, whatever it is.
pub fn amount_of(i: u32, inc: u32) -> Amount
    ensures { result ≡ amount_of i inc }
{
    if i < 16 {
        Amount::Reg(low(i))
    } else {
        Amount::Inc(inc)
    }
}

pub fn width_of(x: u32) -> Width
    ensures { result ≡ width_of x }
{
    match x {
        0 | 1 => Width::Byte,
        2 => Width::Half,
        _ => Width::Word,
    }
}

pub fn rk_of(x: u32) -> Rk
    ensures { result ≡ rk_of x }
{
    match x {
        0 => Rk::Reg,
        1 => Rk::Imm,
        _ => Rk::Bit,
    }
}

pub fn part_of(x: u32) -> Part
    ensures { result ≡ part_of x }
{
    match x {
        0 => Part::Byte,
        1 => Part::Half,
        _ => Part::Upper,
    }
}

pub fn choice_of(x: u32) -> Choice
    ensures { result ≡ choice_of x }
{
    match x {
        0 => Choice::MinS,
        1 => Choice::MaxS,
        2 => Choice::MinU,
        _ => Choice::MaxU,
    }
}

pub fn un_kind_of(x: u32) -> UnKind
    ensures { result ≡ un_kind_of x }
{
    match x {
        0 => UnKind::Not,
        1 => UnKind::Neg,
        2 => UnKind::Abs,
        3 => UnKind::Rev,
        4 => UnKind::Clz,
        5 => UnKind::SatS,
        _ => UnKind::SatU,
    }
}

pub fn div_kind_of(x: u32) -> DivKind
    ensures { result ≡ div_kind_of x }
{
    match x {
        0 => DivKind::QuoS,
        1 => DivKind::QuoU,
        2 => DivKind::RemS,
        _ => DivKind::RemU,
    }
}
