// Each step that `emit_op` takes, to words: the words behind, the register cache and the chain sites.
#![tactic(auto, unfolding(stepping::specs::Done::steps_done))]

mod sites;
mod steps;

ghost use Rattle.std.specs.Prelude.{◌≡◌, [], ◌∷◌, ◌%◌};
ghost use Rattle.code.specs.Items.{pick};
ghost use Rattle.lowering.specs.Instrs.{add_lsl, csel as csel_of, lsl_i, lsr_i, asr_i};
ghost use Rattle.lowering.specs.Steps.{Step as Meant, rhs, base as base_of, low as low_of, alu as alu_of, ext as ext_of, choice, ones as ones_of, hole as hole_of, sign as sign_of};
ghost use Rattle.choices.specs.Meaning.{instr_of};
ghost use Rattle.lower.specs.Lowers.{Lowers};

use asm::Asm;
use block::{Base, Choice, Cond, Op, Part, Rk};
use choices::Fixed;
use emission::Gen;
pub use emission::Sites;
pub use sites::{chain, fork_if};
use steps::ins;
pub use steps::{
    add_imm, check_brk_hold, guard, ind, ld_field, ld_reg, limit, load, mov32, st_field, st_reg,
    store,
};

// An instruction by its name.
pub fn named(asm: &mut Asm, f: Fixed)
    ensures { (g : Gen) → Lowers (Meant.ins (instr_of f) ∷ []) asm.old g asm.new g }
{
    ins(asm, choices::named(f));
}

// w0 = op(w0, w1)
pub fn alu(asm: &mut Asm, op: Op)
    ensures { (g : Gen) → Lowers (Meant.ins (alu_of op) ∷ []) asm.old g asm.new g }
{
    ins(asm, choices::alu(op));
}

// A part of w0, with its sign or without.
pub fn ext(asm: &mut Asm, part: Part, signed: bool)
    ensures { (g : Gen) → Lowers (Meant.ins (ext_of part signed) ∷ []) asm.old g asm.new g }
{
    ins(asm, choices::ext(part, signed));
}

// w0 or w1, by the flags
pub fn select(asm: &mut Asm, kind: Choice)
    ensures { (g : Gen) → Lowers (Meant.ins (csel_of 0 0 1 (choice kind)) ∷ []) asm.old g asm.new g }
{
    ins(asm, choices::select(kind));
}

// w0 shifted
pub fn lsl(asm: &mut Asm, n: u8)
    ensures { (g : Gen) → Lowers (Meant.ins (lsl_i 0 0 (n % 32)) ∷ []) asm.old g asm.new g }
{
    ins(asm, choices::lsl(n));
}

// The same to the right, and with the sign.
pub fn lsr(asm: &mut Asm, n: u8)
    ensures { (g : Gen) → Lowers (Meant.ins (lsr_i 0 0 (n % 32)) ∷ []) asm.old g asm.new g }
{
    ins(asm, choices::lsr(n));
}

pub fn asr(asm: &mut Asm, n: u8)
    ensures { (g : Gen) → Lowers (Meant.ins (asr_i 0 0 (n % 32)) ∷ []) asm.old g asm.new g }
{
    ins(asm, choices::asr(n));
}

// w0 = w0 + w1 shifted
pub fn add_lsl(asm: &mut Asm, n: u8)
    ensures { (g : Gen) → Lowers (Meant.ins (add_lsl 0 0 1 (n % 32)) ∷ []) asm.old g asm.new g }
{
    ins(asm, choices::add_lsl(n));
}

// w2 = so many ones
pub fn ones(asm: &mut Asm, l: u8)
    ensures { (g : Gen) → Lowers (Meant.mov32 2 (ones_of (l % 32)) ∷ []) asm.old g asm.new g }
{
    mov32(asm, 2, choices::ones(l));
}

// w2 = all bits but so many, from p on
pub fn hole(asm: &mut Asm, p: u8, l: u8)
    ensures { (g : Gen) → Lowers (Meant.mov32 2 (hole_of (p % 32) (l % 32)) ∷ []) asm.old g asm.new g }
{
    mov32(asm, 2, choices::hole(p, l));
}

// w0 = the sign of v in every bit
pub fn sign(asm: &mut Asm, v: u32)
    ensures { (g : Gen) → Lowers (Meant.mov32 0 (sign_of v) ∷ []) asm.old g asm.new g }
{
    mov32(asm, 0, choices::sign(v));
}

// w0 = a base
pub fn ld_base(asm: &mut Asm, g: &mut Gen, b: Base)
    ensures { Lowers (base_of b ∷ []) asm.old g.old asm.new g.new }
{
    match b {
        Base::Reg(r) => ld_reg(asm, g, 0, r),
        Base::Sp => ld_field(asm, g.lay.sp, 0),
    }
}

// The low four bits: a guest register.
fn nibble(v: u32) -> u8
    ensures { result ≡ v % 16 }
{
    (v % 16) as u8
}

// w1 = a right-hand side: a register, a number, or `1 << register`
pub fn set_rhs(asm: &mut Asm, g: &mut Gen, rk: Rk, rv: u32)
    ensures { Lowers (rhs rk rv) asm.old g.old asm.new g.new }
{
    match rk {
        Rk::Reg => ld_reg(asm, g, 1, nibble(rv)),
        Rk::Imm => mov32(asm, 1, rv),
        Rk::Bit => {
            ld_reg(asm, g, 2, nibble(rv));
            named(asm, Fixed::Movz11);
            named(asm, Fixed::Lslv112);
        }
    }
}

// The l lowest bits of w0, every bit where l is 0.
pub fn low(asm: &mut Asm, l: u8, signed: bool)
    ensures { (g : Gen) → Lowers (low_of (l % 32) signed) asm.old g asm.new g }
{
    if l % 32 != 0 {
        ins(asm, choices::low(l, signed));
    }
}

// The same as `fork_if` by the Z flag: not equal, or equal.
pub fn fork_test(asm: &mut Asm, g: &mut Gen, ne: bool, pc: u32, target: u32, count: u32)
    ensures { Lowers (Meant.fork (pick ne 1 0) pc target count ∷ []) asm.old g.old asm.new g.new }
{
    let cond = if ne { Cond::Ne } else { Cond::Eq };
    fork_if(asm, g, cond, pc, target, count);
}
