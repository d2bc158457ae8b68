// Operations of 2026-09 (kinds 45 to 49), addressing forms and a table branch, each as the steps of the definition's line for it; i is the
// operation's position.
#![tactic(auto, using(stepping::proofs::Steps::steps_append), unfolding(stepping::specs::Done::steps_done, lowering::specs::Steps::lowered))]

ghost use Rattle.std.specs.Prelude.{◌≡◌, [], ◌∷◌, ℕ, ◌+◌};
ghost use Rattle.code.specs.Items.{pick};
ghost use Rattle.lowering.specs.Steps.{lowered, advance as advance_by, combined as combined_by};
ghost use Rattle.lower.specs.Lowers.{Lowers};

use asm::Asm;
use block::{Amount, Fast, Op, Rk, Width};
use choices::Fixed;
use emission::Gen;

const KEEP: u32 = 23;

// w0 = w0 and an amount
fn advance(asm: &mut Asm, g: &mut Gen, by: Amount)
    ensures { Lowers (advance_by by) asm.old g.old asm.new g.new }
{
    match by {
        Amount::Reg(x) => {
            lower::ld_reg(asm, g, 1, x);
            lower::alu(asm, Op::Add);
        }
        Amount::Inc(v) => lower::add_imm(asm, 0, 0, v),
    }
}

// b = b and an amount, then d = what is there: d is written last, also where it is b
pub fn ld_pre(asm: &mut Asm, g: &mut Gen, d: u8, b: u8, by: Amount, w: Width, signed: bool, i: u32)
    ensures { (next : ℕ) → Lowers (lowered (Fast.LdPre d b by w signed) i next) asm.old g.old asm.new g.new }
{
    lower::ld_reg(asm, g, 0, b);
    advance(asm, g, by);
    lower::st_reg(asm, g, 0, b);
    lower::load(asm, g, w, signed, i);
    lower::st_reg(asm, g, 0, d);
}

// b = b and an amount, then s to it: s is read behind the change, also where it is b
pub fn st_pre(asm: &mut Asm, g: &mut Gen, s: u8, b: u8, by: Amount, w: Width, i: u32)
    ensures { (next : ℕ) → Lowers (lowered (Fast.StPre s b by w) i next) asm.old g.old asm.new g.new }
{
    lower::ld_reg(asm, g, 0, b);
    advance(asm, g, by);
    lower::st_reg(asm, g, 0, b);
    lower::ld_reg(asm, g, 1, s);
    lower::store(asm, g, w, true, i);
}

// d = what is at b, then b = b + x; KEEP has x, which d may be
pub fn ld_post_r(asm: &mut Asm, g: &mut Gen, d: u8, b: u8, x: u8, w: Width, signed: bool, i: u32)
    ensures { (next : ℕ) → Lowers (lowered (Fast.LdPostR d b x w signed) i next) asm.old g.old asm.new g.new }
{
    lower::ld_reg(asm, g, KEEP, x);
    lower::ld_reg(asm, g, 0, b);
    lower::load(asm, g, w, signed, i);
    lower::st_reg(asm, g, 0, d);
    lower::ld_reg(asm, g, 0, b);
    lower::named(asm, Fixed::Add00Keep);
    lower::st_reg(asm, g, 0, b);
}

// The word at KEEP becomes op of it and KEEP2.
fn combined(asm: &mut Asm, g: &Gen, op: Op, i: u32)
    ensures { Lowers (combined_by op i) asm.old g.now asm.new g.now }
{
    lower::named(asm, Fixed::Mov0Keep);
    lower::load(asm, g, Width::Word, false, i);
    lower::named(asm, Fixed::Mov1Keep2);
    lower::alu(asm, op);
    lower::named(asm, Fixed::Mov10);
    lower::named(asm, Fixed::Mov0Keep);
    lower::store(asm, g, Width::Word, true, i);
}

// The word at b + off becomes op of it and a right-hand side, which is read first: the call of a load leaves KEEP and KEEP2 alone.
pub fn mem_a4(asm: &mut Asm, g: &mut Gen, b: u8, off: u32, op: Op, rk: Rk, rv: u32, i: u32)
    ensures { (next : ℕ) → Lowers (lowered (Fast.MemA4 b off op rk rv) i next) asm.old g.old asm.new g.new }
{
    lower::set_rhs(asm, g, rk, rv);
    lower::named(asm, Fixed::MovKeep21);
    lower::ld_reg(asm, g, 0, b);
    lower::add_imm(asm, KEEP, 0, off);
    combined(asm, g, op, i);
}

// The width of a table's entry.
fn entry_width(half: bool) -> Width
    ensures { result ≡ pick half Width.Half Width.Byte }
{
    if half { Width::Half } else { Width::Byte }
}

// On at next and twice the entry at next + r; count is the operations done with it.
pub fn tb(asm: &mut Asm, g: &mut Gen, r: u8, half: bool, i: u32, next: u32, count: u32)
    ensures { i + 1 ≡ count → Lowers (lowered (Fast.Tb r half) i next) asm.old g.old asm.new g.new }
{
    lower::ld_reg(asm, g, 0, r);
    lower::add_imm(asm, 0, 0, next);
    lower::load(asm, g, entry_width(half), false, i);
    lower::lsl(asm, 1);
    lower::add_imm(asm, 0, 0, next);
    lower::ind(asm, g, 0, count, true);
}
