// Operations that move groups of registers (kinds 40 to 44), each as the steps of the definition's line for it; i is the operation's
// position.
#![tactic(auto, using(stepping::proofs::Steps::steps_append), unfolding(stepping::specs::Done::steps_done, lowering::specs::Steps::lowered, lowering::specs::Steps::move_words))]

ghost use Rattle.std.specs.Prelude.{◌≡◌, false, if◌then◌else◌, reverse, ℕ, zero, ◌+◌, ◌<◌};
ghost use Rattle.block.specs.Block.{members, saved};
ghost use Rattle.lowering.specs.Steps.{Step as Meant, lowered, move_word, move_words, move_base, push, pop, push_all, pop_all};
ghost use Rattle.lower.specs.Lowers.{Lowers};

use asm::Asm;
use block::{Base, Fast, Width};
use choices::Fixed;
use emission::Gen;

const KEEP: u32 = 23;

// ---- words from KEEP on
// Register r to the k-th of them, or from it.
fn move_word(asm: &mut Asm, g: &mut Gen, store: bool, i: u32, k: u32, r: u8)
    requires { k < 65536 }
    ensures { Lowers (move_word store i k r) asm.old g.old asm.new g.new }
{
    lower::add_imm(asm, 0, KEEP, 4 * k);
    if store {
        lower::ld_reg(asm, g, 1, r);
        lower::store(asm, g, Width::Word, false, i);
    } else {
        lower::load(asm, g, Width::Word, false, i);
        lower::st_reg(asm, g, 0, r);
    }
}

// The registers of a mask, the lowest first, in ascending words.
fn move_words(asm: &mut Asm, g: &mut Gen, store: bool, i: u32, mask: u16)
    ensures { Lowers (move_words store i zero (members mask)) asm.old g.old asm.new g.new }
{
    let mut k = 0;
    for r in 0..16 {
        if (mask >> r) % 2 == 1 {
            move_word(asm, g, store, i, k, r);
            k += 1;
        }
    }
}

// ---- BlockMove
// With post, the base behind the words.
fn set_base(asm: &mut Asm, g: &mut Gen, post: bool, down: bool, bytes: u32, r: u8)
    ensures { Lowers (move_base post down bytes r) asm.old g.old asm.new g.new }
{
    if post {
        lower::add_imm(asm, 0, KEEP, spans::ahead(down, bytes));
        lower::st_reg(asm, g, 0, r);
    }
}

// Registers of a mask to memory or from it, from the base on or up to it, and the base last. The flags are the operation's own.
pub fn block_move(
    asm: &mut Asm,
    g: &mut Gen,
    base: u8,
    mask: u16,
    store: bool,
    post: bool,
    down: bool,
    i: u32,
)
    ensures { (next : ℕ) → Lowers (lowered (Fast.BlockMove base mask store post down) i next) asm.old g.old asm.new g.new }
{
    let bytes = spans::span(mask);
    lower::ld_reg(asm, g, 0, base);
    lower::add_imm(asm, KEEP, 0, spans::start(down, bytes));
    move_words(asm, g, store, i, mask);
    set_base(asm, g, post, down, bytes, base);
}

// ---- PushRets and PopPc: a push and a pop take other steps, in another order, so they are no twins
// Register r to the stack.
fn push_reg(asm: &mut Asm, g: &mut Gen, i: u32, r: u8)
    ensures { Lowers (push false i (Meant.ld_reg 1 r)) asm.old g.old asm.new g.new }
{
    lower::ld_field(asm, g.lay.sp, 0);
    lower::named(asm, Fixed::SubI004);
    lower::st_field(asm, g.lay.sp, 0);
    lower::ld_reg(asm, g, 1, r);
    lower::store(asm, g, Width::Word, false, i);
}

// Register r from the stack.
fn pop_reg(asm: &mut Asm, g: &mut Gen, i: u32, r: u8)
    ensures { Lowers (pop i (Meant.st_reg 0 r)) asm.old g.old asm.new g.new }
{
    lower::ld_field(asm, g.lay.sp, 0);
    lower::load(asm, g, Width::Word, false, i);
    lower::st_reg(asm, g, 0, r);
    lower::ld_field(asm, g.lay.sp, 0);
    lower::named(asm, Fixed::AddI004);
    lower::st_field(asm, g.lay.sp, 0);
}

// Those registers to the stack, from the highest down.
fn push_regs(asm: &mut Asm, g: &mut Gen, i: u32, n: u8)
    ensures { Lowers (push_all i (reverse (saved n))) asm.old g.old asm.new g.new }
{
    for r in (spans::bot(n)..=spans::top(n)).rev() {
        push_reg(asm, g, i, r);
    }
}

// Those registers from the stack, from the lowest up.
fn pop_regs(asm: &mut Asm, g: &mut Gen, i: u32, n: u8)
    ensures { Lowers (pop_all i (saved n)) asm.old g.old asm.new g.new }
{
    for r in spans::bot(n)..=spans::top(n) {
        pop_reg(asm, g, i, r);
    }
}

// rets and the registers to the stack
pub fn push_rets(asm: &mut Asm, g: &mut Gen, n: u8, i: u32)
    ensures { (next : ℕ) → Lowers (lowered (Fast.PushRets n) i next) asm.old g.old asm.new g.new }
{
    bus::rets_to_stack(asm, g, false, i);
    push_regs(asm, g, i, n);
}

// The registers from the stack, and on at the address above them; count is the operations done with it.
pub fn pop_pc(asm: &mut Asm, g: &mut Gen, n: u8, i: u32, count: u32)
    ensures { (next : ℕ) → i + 1 ≡ count → Lowers (lowered (Fast.PopPc n) i next) asm.old g.old asm.new g.new }
{
    pop_regs(asm, g, i, n);
    branches::pop_ret(asm, g, i, count);
}

// ---- LdPair and StPair
// Registers 2 p and 2 p + 1, p mod 8, to b + off or from there.
pub fn move_pair(asm: &mut Asm, g: &mut Gen, store: bool, p: u8, b: Base, off: u32, i: u32)
    ensures { (next : ℕ) → Lowers (lowered (if store then Fast.StPair p b off else Fast.LdPair p b off) i next) asm.old g.old asm.new g.new }
{
    let r = 2 * (p % 8);
    lower::ld_base(asm, g, b);
    lower::add_imm(asm, KEEP, 0, off);
    move_word(asm, g, store, i, 0, r);
    move_word(asm, g, store, i, 1, r + 1);
}
