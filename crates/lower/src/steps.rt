// The steps that leave the chain sites as they are, each by the method that emits its code.
#![tactic(auto, using(stepping::proofs::Steps::still_done), unfolding(stepping::specs::Done::steps_done, crate::specs::Lowers::generated, lowering::specs::Fragments::step_code, lowering::specs::Fragments::step_cache, emission::specs::Total::emitted, emission::specs::Total::after_t, code::specs::Calls::calls))]

ghost use Rattle.std.specs.Prelude.{◌≡◌, [], ◌∷◌};
ghost use Rattle.arm.specs.declared.Instr.{Instr};
ghost use Rattle.lowering.specs.Fragments.{field_at};
ghost use Rattle.lowering.specs.Steps.{Step as Meant, Field};
ghost use Rattle.words.specs.Answers.{answer, word_of};
ghost use Rattle.lower.specs.Lowers.{Lowers};

use asm::Asm;
use block::{Guard, Width};
use emission::Gen;

// One instruction by its word.
pub fn ins(asm: &mut Asm, w: u32)
    ensures { (g : Gen) (i : Instr) → w ≡ word_of (answer i) → Lowers (Meant.ins i ∷ []) asm.old g asm.new g }
{
    emission::ins(asm, w);
}

// w(t) = v
pub fn mov32(asm: &mut Asm, t: u32, v: u32)
    ensures { (g : Gen) → Lowers (Meant.mov32 t v ∷ []) asm.old g asm.new g }
{
    moves::mov32(asm, t, v);
}

// w(d) = w(s) + v
pub fn add_imm(asm: &mut Asm, d: u32, s: u32, v: u32)
    ensures { (g : Gen) → Lowers (Meant.add_imm d s v ∷ []) asm.old g asm.new g }
{
    moves::add_imm(asm, d, s, v);
}

// w(t) = the field at an offset of the processor record, and back. Any offset may be asked for, so it is a number and no case of `Field`.
pub fn ld_field(asm: &mut Asm, off: u32, t: u32)
    ensures { (g : Gen) (f : Field) → field_at g.lay f ≡ off → Lowers (Meant.ld_field f t ∷ []) asm.old g asm.new g }
{
    emission::ins(asm, cache::ldr(t, off / 4));
}

pub fn st_field(asm: &mut Asm, off: u32, t: u32)
    ensures { (g : Gen) (f : Field) → field_at g.lay f ≡ off → Lowers (Meant.st_field f t ∷ []) asm.old g asm.new g }
{
    emission::ins(asm, cache::str(t, off / 4));
}

// w(t) = guest register r, and back
pub fn ld_reg(asm: &mut Asm, g: &mut Gen, t: u32, r: u8)
    ensures { Lowers (Meant.ld_reg t r ∷ []) asm.old g.old asm.new g.new }
{
    emission::ld_reg(asm, g, t, r);
}

pub fn st_reg(asm: &mut Asm, g: &mut Gen, t: u32, r: u8)
    ensures { Lowers (Meant.st_reg t r ∷ []) asm.old g.old asm.new g.new }
{
    emission::st_reg(asm, g, t, r);
}

pub fn load(asm: &mut Asm, g: &Gen, w: Width, signed: bool, i: u32)
    ensures { Lowers (Meant.load w signed i ∷ []) asm.old g.now asm.new g.now }
{
    memops::load(asm, g, w, signed, i);
}

pub fn store(asm: &mut Asm, g: &Gen, w: Width, alone: bool, i: u32)
    ensures { Lowers (Meant.store w alone i ∷ []) asm.old g.now asm.new g.now }
{
    memops::store(asm, g, w, alone, i);
}

pub fn ind(asm: &mut Asm, g: &Gen, t: u32, count: u32, brk: bool)
    ensures { Lowers (Meant.ind t count brk ∷ []) asm.old g.now asm.new g.now }
{
    jumps::ind(asm, g, t, count, brk);
}

pub fn check_brk_hold(asm: &mut Asm, g: &Gen, glue: bool, pc: u32, count: u32)
    ensures { Lowers (Meant.check_brk glue pc count ∷ []) asm.old g.now asm.new g.now }
{
    jumps::check_brk_hold(asm, g, glue, pc, count);
}

// Leave for pc unless so many operations fit.
pub fn limit(asm: &mut Asm, g: &Gen, pc: u32, count: u32)
    ensures { Lowers (Meant.limit pc count ∷ []) asm.old g.now asm.new g.now }
{
    jumps::limit(asm, g, pc, count);
}

// Leave for pc if the versions differ and the helper answers 0.
pub fn guard(asm: &mut Asm, g: &Gen, guard: Guard, pc: u32)
    ensures { Lowers (Meant.guard guard.at guard.h_ram_ok pc ∷ []) asm.old g.now asm.new g.now }
{
    guards::guard(asm, g, guard, pc);
}
