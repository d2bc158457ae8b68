// Operations that stay in the registers (kinds 0 to 20), each as the steps of the definition's line for it.
#![tactic(auto, using(stepping::proofs::Steps::steps_append), unfolding(stepping::specs::Done::steps_done, lowering::specs::Steps::lowered))]

ghost use Rattle.std.specs.Prelude.{ℕ, ◌∷◌};
ghost use Rattle.choices.specs.Meaning.{instr_of};
ghost use Rattle.lowering.specs.Steps.{Step as Meant, lowered, un, div, remainder as remainder_of};
ghost use Rattle.lower.specs.Lowers.{Lowers};

use asm::Asm;
use block::{Choice, DivKind, Fast, Op, Part, Rk, UnKind};
use choices::Fixed;
use emission::Gen;

// w0 = |w0|
fn abs(asm: &mut Asm)
    ensures { (g : Gen) → Lowers (un UnKind.Abs) asm.old g asm.new g }
{
    lower::named(asm, Fixed::CmpI00);
    lower::named(asm, Fixed::CnegLt00);
}

// w0 in 16 bits with a sign
fn saturate_s(asm: &mut Asm)
    ensures { (g : Gen) → Lowers (un UnKind.SatS) asm.old g asm.new g }
{
    lower::mov32(asm, 1, 32767);
    lower::named(asm, Fixed::Cmp01);
    lower::named(asm, Fixed::Csel010Gt);
    lower::mov32(asm, 1, 0xffff_8000);
    lower::named(asm, Fixed::Cmp01);
    lower::named(asm, Fixed::Csel010Lt);
}

// w0 in 16 bits without
fn saturate_u(asm: &mut Asm)
    ensures { (g : Gen) → Lowers (un UnKind.SatU) asm.old g asm.new g }
{
    lower::named(asm, Fixed::CmpI00);
    lower::named(asm, Fixed::Csel0z0Lt);
    lower::mov32(asm, 1, 65535);
    lower::named(asm, Fixed::Cmp01);
    lower::named(asm, Fixed::Csel010Gt);
}

// w2 = what a quotient, taken by an instruction to w2, leaves: w0 - w2 * w1, and 0 for a divisor of 0
fn remainder(asm: &mut Asm, quotient: Fixed)
    ensures { (g : Gen) → Lowers (Meant.ins (instr_of quotient) ∷ remainder_of) asm.old g asm.new g }
{
    lower::named(asm, quotient);
    lower::named(asm, Fixed::Msub2210);
    lower::named(asm, Fixed::CmpI10);
    lower::named(asm, Fixed::Csel2z2Eq);
}

// w0 = k(w0)
fn unary(asm: &mut Asm, k: UnKind)
    ensures { (g : Gen) → Lowers (un k) asm.old g asm.new g }
{
    match k {
        UnKind::Not => lower::named(asm, Fixed::Mvn00),
        UnKind::Neg => lower::named(asm, Fixed::Neg00),
        UnKind::Abs => abs(asm),
        UnKind::Rev => lower::named(asm, Fixed::Rev00),
        UnKind::Clz => lower::named(asm, Fixed::Clz00),
        UnKind::SatS => saturate_s(asm),
        UnKind::SatU => saturate_u(asm),
    }
}

// w2 = k(w0, w1)
fn divide(asm: &mut Asm, k: DivKind)
    ensures { (g : Gen) → Lowers (div k) asm.old g asm.new g }
{
    match k {
        DivKind::QuoS => lower::named(asm, Fixed::Sdiv201),
        DivKind::QuoU => lower::named(asm, Fixed::Udiv201),
        DivKind::RemS => remainder(asm, Fixed::Sdiv201),
        DivKind::RemU => remainder(asm, Fixed::Udiv201),
    }
}

// d = v
pub fn mov_i(asm: &mut Asm, g: &mut Gen, d: u8, v: u32)
    ensures { (i next : ℕ) → Lowers (lowered (Fast.MovI d v) i next) asm.old g.old asm.new g.new }
{
    lower::mov32(asm, 0, v);
    lower::st_reg(asm, g, 0, d);
}

// d = s
pub fn mov(asm: &mut Asm, g: &mut Gen, d: u8, s: u8)
    ensures { (i next : ℕ) → Lowers (lowered (Fast.Mov d s) i next) asm.old g.old asm.new g.new }
{
    lower::ld_reg(asm, g, 0, s);
    lower::st_reg(asm, g, 0, d);
}

// d = s + v
pub fn add_ri(asm: &mut Asm, g: &mut Gen, d: u8, s: u8, v: u32)
    ensures { (i next : ℕ) → Lowers (lowered (Fast.AddRI d s v) i next) asm.old g.old asm.new g.new }
{
    lower::ld_reg(asm, g, 0, s);
    lower::add_imm(asm, 0, 0, v);
    lower::st_reg(asm, g, 0, d);
}

// d = s shifted left
pub fn shl_i(asm: &mut Asm, g: &mut Gen, d: u8, s: u8, n: u8)
    ensures { (i next : ℕ) → Lowers (lowered (Fast.ShlI d s n) i next) asm.old g.old asm.new g.new }
{
    lower::ld_reg(asm, g, 0, s);
    lower::lsl(asm, n);
    lower::st_reg(asm, g, 0, d);
}

// d = s shifted right, with its sign
pub fn sar_i(asm: &mut Asm, g: &mut Gen, d: u8, s: u8, n: u8)
    ensures { (i next : ℕ) → Lowers (lowered (Fast.SarI d s n) i next) asm.old g.old asm.new g.new }
{
    lower::ld_reg(asm, g, 0, s);
    lower::asr(asm, n);
    lower::st_reg(asm, g, 0, d);
}

// d = op(a, b)
pub fn alu3(asm: &mut Asm, g: &mut Gen, d: u8, a: u8, b: u8, op: Op)
    ensures { (i next : ℕ) → Lowers (lowered (Fast.Alu3 d a b op) i next) asm.old g.old asm.new g.new }
{
    lower::ld_reg(asm, g, 0, a);
    lower::ld_reg(asm, g, 1, b);
    lower::alu(asm, op);
    lower::st_reg(asm, g, 0, d);
}

// d = op(a, v)
pub fn alu3_i(asm: &mut Asm, g: &mut Gen, d: u8, a: u8, v: u32, op: Op)
    ensures { (i next : ℕ) → Lowers (lowered (Fast.Alu3I d a v op) i next) asm.old g.old asm.new g.new }
{
    lower::ld_reg(asm, g, 0, a);
    lower::mov32(asm, 1, v);
    lower::alu(asm, op);
    lower::st_reg(asm, g, 0, d);
}

// d = op(s, a right-hand side)
pub fn a4(asm: &mut Asm, g: &mut Gen, d: u8, s: u8, op: Op, rk: Rk, rv: u32)
    ensures { (i next : ℕ) → Lowers (lowered (Fast.A4 d s op rk rv) i next) asm.old g.old asm.new g.new }
{
    lower::set_rhs(asm, g, rk, rv);
    lower::ld_reg(asm, g, 0, s);
    lower::alu(asm, op);
    lower::st_reg(asm, g, 0, d);
}

// d = a part of s
pub fn ext(asm: &mut Asm, g: &mut Gen, d: u8, s: u8, part: Part, signed: bool)
    ensures { (i next : ℕ) → Lowers (lowered (Fast.Ext d s part signed) i next) asm.old g.old asm.new g.new }
{
    lower::ld_reg(asm, g, 0, s);
    lower::ext(asm, part, signed);
    lower::st_reg(asm, g, 0, d);
}

// d = the lesser or greater of a and b
pub fn min_max(asm: &mut Asm, g: &mut Gen, d: u8, a: u8, b: u8, kind: Choice)
    ensures { (i next : ℕ) → Lowers (lowered (Fast.MinMax d a b kind) i next) asm.old g.old asm.new g.new }
{
    lower::ld_reg(asm, g, 0, a);
    lower::ld_reg(asm, g, 1, b);
    lower::named(asm, Fixed::Cmp01);
    lower::select(asm, kind);
    lower::st_reg(asm, g, 0, d);
}

// d = k(s)
pub fn un(asm: &mut Asm, g: &mut Gen, d: u8, s: u8, k: UnKind)
    ensures { (i next : ℕ) → Lowers (lowered (Fast.Un d s k) i next) asm.old g.old asm.new g.new }
{
    lower::ld_reg(asm, g, 0, s);
    unary(asm, k);
    lower::st_reg(asm, g, 0, d);
}

// d = k(a, b)
pub fn div(asm: &mut Asm, g: &mut Gen, d: u8, a: u8, b: u8, k: DivKind)
    ensures { (i next : ℕ) → Lowers (lowered (Fast.Div d a b k) i next) asm.old g.old asm.new g.new }
{
    lower::ld_reg(asm, g, 0, a);
    lower::ld_reg(asm, g, 1, b);
    divide(asm, k);
    lower::st_reg(asm, g, 2, d);
}

// Two registers.
pub fn mov2(asm: &mut Asm, g: &mut Gen, dh: u8, dl: u8, sh: u8, sl: u8)
    ensures { (i next : ℕ) → Lowers (lowered (Fast.Mov2 dh dl sh sl) i next) asm.old g.old asm.new g.new }
{
    lower::ld_reg(asm, g, 0, sh);
    lower::ld_reg(asm, g, 1, sl);
    lower::st_reg(asm, g, 0, dh);
    lower::st_reg(asm, g, 1, dl);
}

// Two registers: v, and its sign.
pub fn mov2_i(asm: &mut Asm, g: &mut Gen, dh: u8, dl: u8, v: u32)
    ensures { (i next : ℕ) → Lowers (lowered (Fast.Mov2I dh dl v) i next) asm.old g.old asm.new g.new }
{
    lower::mov32(asm, 0, v);
    lower::st_reg(asm, g, 0, dl);
    lower::sign(asm, v);
    lower::st_reg(asm, g, 0, dh);
}

// d = l bits of s, from p on
pub fn bit_ext(asm: &mut Asm, g: &mut Gen, d: u8, s: u8, p: u8, l: u8, signed: bool)
    ensures { (i next : ℕ) → Lowers (lowered (Fast.BitExt d s p l signed) i next) asm.old g.old asm.new g.new }
{
    lower::ld_reg(asm, g, 0, s);
    lower::lsr(asm, p);
    lower::low(asm, l, signed);
    lower::st_reg(asm, g, 0, d);
}

// l bits of d, from p on, are the lowest of s.
pub fn bit_ins(asm: &mut Asm, g: &mut Gen, d: u8, s: u8, p: u8, l: u8)
    ensures { (i next : ℕ) → Lowers (lowered (Fast.BitIns d s p l) i next) asm.old g.old asm.new g.new }
{
    lower::ld_reg(asm, g, 0, s);
    lower::ld_reg(asm, g, 1, d);
    lower::ones(asm, l);
    lower::named(asm, Fixed::And002);
    lower::lsl(asm, p);
    lower::hole(asm, p, l);
    lower::named(asm, Fixed::And112);
    lower::named(asm, Fixed::Orr001);
    lower::st_reg(asm, g, 0, d);
}

// sp = sp + v
pub fn sp_add(asm: &mut Asm, g: &Gen, v: u32)
    ensures { (i next : ℕ) → Lowers (lowered (Fast.SpAdd v) i next) asm.old g.now asm.new g.now }
{
    lower::ld_field(asm, g.lay.sp, 0);
    lower::add_imm(asm, 0, 0, v);
    lower::st_field(asm, g.lay.sp, 0);
}

// d = sp + v
pub fn r_from_sp(asm: &mut Asm, g: &mut Gen, d: u8, v: u32)
    ensures { (i next : ℕ) → Lowers (lowered (Fast.RFromSp d v) i next) asm.old g.old asm.new g.new }
{
    lower::ld_field(asm, g.lay.sp, 0);
    lower::add_imm(asm, 0, 0, v);
    lower::st_reg(asm, g, 0, d);
}
