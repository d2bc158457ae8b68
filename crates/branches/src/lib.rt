// Operations that jump (kinds 30 to 39), each as the steps of the definition's line for it; count is the operations done with it.
// Position and count stay numbers that each clause ties: a struct with i + 1 for its invariant takes fewer counts than these functions.
#![tactic(auto, using(stepping::proofs::Steps::steps_append), unfolding(stepping::specs::Done::steps_done, lowering::specs::Steps::lowered))]

ghost use Rattle.std.specs.Prelude.{◌≡◌, ℕ, ◌+◌};
ghost use Rattle.lowering.specs.Steps.{lowered};
ghost use Rattle.lower.specs.Lowers.{Lowers};

use asm::Asm;
use block::{Cond, Fast, Rk, Width};
use choices::Fixed;
use emission::Gen;

const KEEP: u32 = 23;

// To target if a condition of a and v holds.
pub fn br_i(
    asm: &mut Asm,
    g: &mut Gen,
    a: u8,
    v: u32,
    cond: Cond,
    target: u32,
    next: u32,
    count: u32,
)
    ensures { (i : ℕ) → i + 1 ≡ count → Lowers (lowered (Fast.BrI a v cond target) i next) asm.old g.old asm.new g.new }
{
    lower::ld_reg(asm, g, 0, a);
    lower::mov32(asm, 1, v);
    lower::named(asm, Fixed::Cmp01);
    lower::fork_if(asm, g, cond, next, target, count);
}

// To target if a condition of a and b holds.
pub fn br_r(
    asm: &mut Asm,
    g: &mut Gen,
    a: u8,
    b: u8,
    cond: Cond,
    target: u32,
    next: u32,
    count: u32,
)
    ensures { (i : ℕ) → i + 1 ≡ count → Lowers (lowered (Fast.BrR a b cond target) i next) asm.old g.old asm.new g.new }
{
    lower::ld_reg(asm, g, 0, a);
    lower::ld_reg(asm, g, 1, b);
    lower::named(asm, Fixed::Cmp01);
    lower::fork_if(asm, g, cond, next, target, count);
}

// r = r - 1, then to target if a condition of r and v holds.
pub fn dec_br(
    asm: &mut Asm,
    g: &mut Gen,
    r: u8,
    cond: Cond,
    v: u32,
    target: u32,
    next: u32,
    count: u32,
)
    ensures { (i : ℕ) → i + 1 ≡ count → Lowers (lowered (Fast.DecBr r cond v target) i next) asm.old g.old asm.new g.new }
{
    lower::ld_reg(asm, g, 0, r);
    lower::named(asm, Fixed::SubI001);
    lower::st_reg(asm, g, 0, r);
    lower::mov32(asm, 1, v);
    lower::named(asm, Fixed::Cmp01);
    lower::fork_if(asm, g, cond, next, target, count);
}

// To target by the bits of r under a mask.
pub fn bit_br(
    asm: &mut Asm,
    g: &mut Gen,
    r: u8,
    mk: Rk,
    ne: bool,
    mv: u32,
    target: u32,
    next: u32,
    count: u32,
)
    ensures { (i : ℕ) → i + 1 ≡ count → Lowers (lowered (Fast.BitBr r mk ne mv target) i next) asm.old g.old asm.new g.new }
{
    lower::set_rhs(asm, g, mk, mv);
    lower::ld_reg(asm, g, 0, r);
    lower::named(asm, Fixed::Tst01);
    lower::fork_test(asm, g, ne, next, target, count);
}

// To target.
pub fn goto(asm: &mut Asm, g: &mut Gen, target: u32, count: u32)
    ensures { (i next : ℕ) → i + 1 ≡ count → Lowers (lowered (Fast.Goto target) i next) asm.old g.old asm.new g.new }
{
    lower::chain(asm, g, target, count);
}

// rets = next, then to target
pub fn call(asm: &mut Asm, g: &mut Gen, target: u32, next: u32, count: u32)
    ensures { (i : ℕ) → i + 1 ≡ count → Lowers (lowered (Fast.Call target) i next) asm.old g.old asm.new g.new }
{
    lower::mov32(asm, 0, next);
    lower::st_field(asm, g.lay.rets, 0);
    lower::chain(asm, g, target, count);
}

// To rets.
pub fn rts(asm: &mut Asm, g: &Gen, count: u32)
    ensures { (i next : ℕ) → i + 1 ≡ count → Lowers (lowered (Fast.Rts) i next) asm.old g.now asm.new g.now }
{
    lower::ld_field(asm, g.lay.rets, 9);
    lower::ind(asm, g, 9, count, false);
}

// To r.
pub fn goto_r(asm: &mut Asm, g: &mut Gen, r: u8, count: u32)
    ensures { (i next : ℕ) → i + 1 ≡ count → Lowers (lowered (Fast.GotoR r) i next) asm.old g.old asm.new g.new }
{
    lower::ld_reg(asm, g, 9, r);
    lower::ind(asm, g, 9, count, false);
}

// rets = next, then to r
pub fn call_r(asm: &mut Asm, g: &mut Gen, r: u8, next: u32, count: u32)
    ensures { (i : ℕ) → i + 1 ≡ count → Lowers (lowered (Fast.CallR r) i next) asm.old g.old asm.new g.new }
{
    lower::mov32(asm, 0, next);
    lower::st_field(asm, g.lay.rets, 0);
    lower::ld_reg(asm, g, 9, r);
    lower::ind(asm, g, 9, count, false);
}

// To the address on the stack.
pub fn pop_ret(asm: &mut Asm, g: &Gen, i: u32, count: u32)
    ensures { (next : ℕ) → i + 1 ≡ count → Lowers (lowered (Fast.PopRet) i next) asm.old g.now asm.new g.now }
{
    lower::ld_field(asm, g.lay.sp, 0);
    lower::load(asm, g, Width::Word, false, i);
    lower::named(asm, Fixed::MovKeep0);
    lower::ld_field(asm, g.lay.sp, 0);
    lower::named(asm, Fixed::AddI004);
    lower::st_field(asm, g.lay.sp, 0);
    lower::ind(asm, g, KEEP, count, true);
}
