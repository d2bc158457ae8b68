// Moves and arithmetic of `Gen` that are up to three instructions and no jump.
#![tactic(auto)]

ghost use Rattle.std.specs.Prelude.{◌≡◌, ℕ, ◌+◌, ◌-◌, ◌<◌, List, [], ◌∷◌, ◌++◌};
ghost use Rattle.block.specs.Block.{bytes as bytes_of};
ghost use Rattle.lowering.specs.Instrs.{mov32 as mov32_of};
ghost use Rattle.lowering.specs.Fragments.{add_imm, even as even_of, extended as extended_of, loads as loads_of, stores as stores_of};
ghost use Rattle.asm.specs.State.{state, Wrote};
ghost use Rattle.emission.specs.Total.{emitted};

use arm::{Access, AddSub, Extract, Flags, Logic, Move, Second, Shift, Size};
use asm::Asm;
use block::Width;

// A 32-bit immediate in one or two instructions; a shift by 16 is tried before movn.
pub fn mov32(asm: &mut Asm, rd: u32, imm: u32)
    ensures { Wrote asm.old (emitted (mov32_of rd imm) (state asm.old)) asm.new }
{
    let lo = imm % 65536;
    let hi = imm / 65536;
    if hi == 0 {
        emission::ins(asm, words::move_wide(Size::W, Move::Movz, 0, imm, rd));
    } else if lo == 0 {
        emission::ins(asm, words::move_wide(Size::W, Move::Movz, 1, hi, rd));
    } else if hi == 65535 {
        emission::ins(
            asm,
            words::move_wide(Size::W, Move::Movn, 0, 65535 - lo, rd),
        );
    } else {
        emission::ins(asm, words::move_wide(Size::W, Move::Movz, 0, lo, rd));
        emission::ins(asm, words::move_wide(Size::W, Move::Movk, 1, hi, rd));
    }
}

// The bytes of a width.
pub fn bytes(w: Width) -> u32
    ensures { result ≡ bytes_of w }
{
    w as u32
}

// The last offset of a region of this length at which an access of so many bytes lies inside it.
pub fn room(len: u32, size: u32) -> u32
    ensures { result ≡ len - size }
{
    len.saturating_sub(size)
}

// The load of a width, sign-extended or not, and its store. No `From`: Width is the card's type and Access is Arm's, in crates that do not
// know each other.
#[tactic(auto, unfolding(lowering::specs::Fragments::loads))]
pub fn loads(w: Width, signed: bool) -> Access
    ensures { result ≡ loads_of w signed }
{
    match w {
        Width::Byte => if signed { Access::Ldrsb } else { Access::Ldrb },
        Width::Half => if signed { Access::Ldrsh } else { Access::Ldrh },
        Width::Word => Access::LdrW,
    }
}

#[tactic(auto, unfolding(lowering::specs::Fragments::stores))]
pub fn stores(w: Width) -> Access
    ensures { result ≡ stores_of w }
{
    match w {
        Width::Byte => Access::Strb,
        Width::Half => Access::Strh,
        Width::Word => Access::StrW,
    }
}

// What a helper gave, to 32 bits.
pub fn extended(asm: &mut Asm, w: Width, signed: bool)
    ensures { Wrote asm.old (emitted (extended_of w signed) (state asm.old)) asm.new }
{
    if signed {
        match w {
            Width::Byte => emission::ins(asm, words::bitfield(Size::W, Extract::Sbfm, 0, 7, 0, 0)),
            Width::Half => emission::ins(asm, words::bitfield(Size::W, Extract::Sbfm, 0, 15, 0, 0)),
            Width::Word => {}
        }
    }
}

// A halfword is the one at the address with its lowest bit cleared.
pub fn even(asm: &mut Asm, w: Width)
    ensures { Wrote asm.old (emitted (even_of w) (state asm.old)) asm.new }
{
    if let Width::Half = w {
        mov32(asm, 2, 0xffff_fffe);
        emission::ins(
            asm,
            words::logical_shifted(Size::W, Logic::And, Second::Plain, Shift::Lsl, 2, 0, 3, 3),
        );
    }
}

// Gen::add_imm: w(d) = w(s) + imm, any 32 bits; nothing for 0 to the same register.
pub fn add_imm(asm: &mut Asm, d: u32, s: u32, imm: u32)
    ensures { Wrote asm.old (emitted (add_imm d s imm) (state asm.old)) asm.new }
{
    let neg = imm.wrapping_neg();
    if imm == 0 {
        if d != s {
            emission::mov(asm, d, s);
        }
    } else if imm < 4096 {
        emission::add_imm(asm, d, s, imm);
    } else if neg < 4096 {
        emission::ins(
            asm,
            words::add_sub_imm(Size::W, AddSub::Sub, Flags::Keeps, neg, s, d),
        );
    } else {
        mov32(asm, 9, imm);
        emission::ins(
            asm,
            words::add_sub_shifted(Size::W, AddSub::Add, Flags::Keeps, Shift::Lsl, 9, 0, s, d),
        );
    }
}
