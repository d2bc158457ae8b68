// Operations that use the bus (kinds 21 to 29), each as the steps of the definition's line for it, and what PushRet has in common with
// PushRets; i is the operation's position.
#![tactic(auto, using(stepping::proofs::Steps::steps_append), unfolding(stepping::specs::Done::steps_done, lowering::specs::Steps::lowered))]

ghost use Rattle.std.specs.Prelude.{ℕ};
ghost use Rattle.lowering.specs.Steps.{Step as Meant, lowered, changed as changed_by, rmw_value, push, rets};
ghost use Rattle.choices.specs.Meaning.{instr_of};
ghost use Rattle.lower.specs.Lowers.{Lowers};

use asm::Asm;
use block::{Base, Fast, RmwOp, Width};
use choices::Fixed;
use emission::Gen;

const KEEP: u32 = 23;

// w1 = the value read at KEEP, changed by an instruction on w0 and w2
fn changed(asm: &mut Asm, g: &Gen, f: Fixed, w: Width, v: u32, i: u32)
    ensures { Lowers (changed_by (instr_of f) w v i) asm.old g.now asm.new g.now }
{
    lower::named(asm, Fixed::Mov0Keep);
    lower::load(asm, g, w, false, i);
    lower::mov32(asm, 2, v);
    lower::named(asm, f);
}

// w1 = what Rmw stores
fn rmw_value(asm: &mut Asm, g: &Gen, op: RmwOp, w: Width, v: u32, i: u32)
    ensures { Lowers (rmw_value op w v i) asm.old g.now asm.new g.now }
{
    match op {
        RmwOp::Or => changed(asm, g, Fixed::Orr102, w, v, i),
        RmwOp::And => changed(asm, g, Fixed::And102, w, v, i),
        RmwOp::Xor => changed(asm, g, Fixed::Eor102, w, v, i),
        RmwOp::Add => changed(asm, g, Fixed::Add102, w, v, i),
        RmwOp::Sub => changed(asm, g, Fixed::Sub102, w, v, i),
        RmwOp::Mov => lower::mov32(asm, 1, v),
    }
}

// d = what is at b + off
pub fn ld(asm: &mut Asm, g: &mut Gen, d: u8, b: Base, off: u32, w: Width, signed: bool, i: u32)
    ensures { (next : ℕ) → Lowers (lowered (Fast.Ld d b off w signed) i next) asm.old g.old asm.new g.new }
{
    lower::ld_base(asm, g, b);
    lower::add_imm(asm, 0, 0, off);
    lower::load(asm, g, w, signed, i);
    lower::st_reg(asm, g, 0, d);
}

// s to b + off
pub fn st(asm: &mut Asm, g: &mut Gen, s: u8, b: Base, off: u32, w: Width, i: u32)
    ensures { (next : ℕ) → Lowers (lowered (Fast.St s b off w) i next) asm.old g.old asm.new g.new }
{
    lower::ld_base(asm, g, b);
    lower::add_imm(asm, 0, 0, off);
    lower::ld_reg(asm, g, 1, s);
    lower::store(asm, g, w, true, i);
}

// d = what is at b + x shifted
pub fn ld_idx(
    asm: &mut Asm,
    g: &mut Gen,
    d: u8,
    b: u8,
    x: u8,
    sh: u8,
    w: Width,
    signed: bool,
    i: u32,
)
    ensures { (next : ℕ) → Lowers (lowered (Fast.LdIdx d b x sh w signed) i next) asm.old g.old asm.new g.new }
{
    lower::ld_reg(asm, g, 0, b);
    lower::ld_reg(asm, g, 1, x);
    lower::add_lsl(asm, sh);
    lower::load(asm, g, w, signed, i);
    lower::st_reg(asm, g, 0, d);
}

// s to b + x shifted
pub fn st_idx(asm: &mut Asm, g: &mut Gen, s: u8, b: u8, x: u8, sh: u8, w: Width, i: u32)
    ensures { (next : ℕ) → Lowers (lowered (Fast.StIdx s b x sh w) i next) asm.old g.old asm.new g.new }
{
    lower::ld_reg(asm, g, 0, b);
    lower::ld_reg(asm, g, 1, x);
    lower::add_lsl(asm, sh);
    lower::ld_reg(asm, g, 1, s);
    lower::store(asm, g, w, true, i);
}

// d = what is at b, then b = b + inc
pub fn ld_post(asm: &mut Asm, g: &mut Gen, d: u8, b: u8, w: Width, signed: bool, inc: u32, i: u32)
    ensures { (next : ℕ) → Lowers (lowered (Fast.LdPost d b w signed inc) i next) asm.old g.old asm.new g.new }
{
    lower::ld_reg(asm, g, 0, b);
    lower::load(asm, g, w, signed, i);
    lower::st_reg(asm, g, 0, d);
    lower::ld_reg(asm, g, 0, b);
    lower::add_imm(asm, 0, 0, inc);
    lower::st_reg(asm, g, 0, b);
}

// s to b, then b = b + inc
pub fn st_post(asm: &mut Asm, g: &mut Gen, s: u8, b: u8, w: Width, inc: u32, i: u32)
    ensures { (next : ℕ) → Lowers (lowered (Fast.StPost s b w inc) i next) asm.old g.old asm.new g.new }
{
    lower::ld_reg(asm, g, 0, b);
    lower::ld_reg(asm, g, 1, s);
    lower::store(asm, g, w, true, i);
    lower::ld_reg(asm, g, 0, b);
    lower::add_imm(asm, 0, 0, inc);
    lower::st_reg(asm, g, 0, b);
}

// op(what is at b + off, v) back to it; Mov stores v.
pub fn rmw(asm: &mut Asm, g: &mut Gen, b: u8, w: Width, op: RmwOp, off: u32, v: u32, i: u32)
    ensures { (next : ℕ) → Lowers (lowered (Fast.Rmw b w op off v) i next) asm.old g.old asm.new g.new }
{
    lower::ld_reg(asm, g, 0, b);
    lower::add_imm(asm, KEEP, 0, off);
    rmw_value(asm, g, op, w, v, i);
    lower::named(asm, Fixed::Mov0Keep);
    lower::store(asm, g, w, true, i);
}

// rets to the stack, alone or as a word of a group
pub fn rets_to_stack(asm: &mut Asm, g: &Gen, alone: bool, i: u32)
    ensures { Lowers (push alone i (Meant.ld_field rets 1)) asm.old g.now asm.new g.now }
{
    lower::ld_field(asm, g.lay.sp, 0);
    lower::named(asm, Fixed::SubI004);
    lower::st_field(asm, g.lay.sp, 0);
    lower::ld_field(asm, g.lay.rets, 1);
    lower::store(asm, g, Width::Word, alone, i);
}

// PushRet: rets to the stack, alone
pub fn push_ret(asm: &mut Asm, g: &Gen, i: u32)
    ensures { (next : ℕ) → Lowers (lowered (Fast.PushRet) i next) asm.old g.now asm.new g.now }
{
    rets_to_stack(asm, g, true, i);
}

// rets from the stack
pub fn pop_rets(asm: &mut Asm, g: &Gen, i: u32)
    ensures { (next : ℕ) → Lowers (lowered (Fast.PopRets) i next) asm.old g.now asm.new g.now }
{
    lower::ld_field(asm, g.lay.sp, 0);
    lower::load(asm, g, Width::Word, false, i);
    lower::st_field(asm, g.lay.rets, 0);
    lower::ld_field(asm, g.lay.sp, 0);
    lower::named(asm, Fixed::AddI004);
    lower::st_field(asm, g.lay.sp, 0);
}
