// The encoders of jit_a64.rs and `Gen::add_imm` that write several words: constants, and sums with them.
#![tactic(auto)]

ghost use Rattle.std.specs.Prelude.{◌≡◌, ◌+◌, ◌/◌, ◌%◌, ◌^◌, ◌<◌, ◌≤◌, [], ◌∷◌, ◌++◌, length, nat_lt, IfOk};
ghost use Rattle.arrayvec.specs.ArrayVec.{array_vec_len};
ghost use Rattle.arm.specs.declared.Instr.TheVariants.{Nop, LoadLiteral};
ghost use Rattle.arm.specs.Instr.{encode};
ghost use Rattle.arm.specs.Decode.{both};
ghost use Rattle.constants.specs.Constants.{mov32_of, mov64_of, quarter_of, add_imm32_of, gen_add_imm_of, words_of};
ghost use Rattle.constants.specs.Sequences.{listed, told_words, words_if};

use arm::{AddSub, Flags, Instr, Logic, Move, Second, Shift, Size};
use arrayvec::ArrayVec;
use words::{EncodeError, below, word};

// The words of an encoder, in order, no word to four. An ArrayVec, by which they are put together, cannot be copied.
#[derive(Clone, Copy)]
pub enum Sequence {
    Empty,
    One(u32),
    Two(u32, u32),
    Three(u32, u32, u32),
    Four(u32, u32, u32, u32),
}

// These words, in order.
fn in_order(words: &[u32]) -> Sequence
    requires { length words.now ≤ 4 }
    ensures { listed result ≡ words.now }
{
    match words {
        [] => Sequence::Empty,
        &[a] => Sequence::One(a),
        &[a, b] => Sequence::Two(a, b),
        &[a, b, c] => Sequence::Three(a, b, c),
        &[a, b, c, d, ..] => Sequence::Four(a, b, c, d),
    }
}

// The words of `mov32`, by the halves of the number, of a register that is there.
fn halves(rd: u32, imm: u32) -> ArrayVec<u32, 4>
    requires { rd < 32 }
    ensures room { array_vec_len result < 4 }
    ensures words { result.items ≡ words_of (mov32_of rd imm) }
{
    let high = imm / 65536;
    let low = imm % 65536;
    let mut words = ArrayVec::new();
    if high == 0 {
        words.push(word(Instr::MoveWide(Size::W, Move::Movz, 0, low, rd)));
    } else if low == 0 {
        words.push(word(Instr::MoveWide(Size::W, Move::Movz, 1, high, rd)));
    } else if high == 65535 {
        words.push(word(Instr::MoveWide(Size::W, Move::Movn, 0, 65535 - low, rd)));
    } else {
        words.push(word(Instr::MoveWide(Size::W, Move::Movz, 0, low, rd)));
        words.push(word(Instr::MoveWide(Size::W, Move::Movk, 1, high, rd)));
    }
    words
}

pub fn mov32(rd: u32, imm: u32) -> Result<Sequence, EncodeError>
    ensures room { IfOk result (λ words. length (listed words) < 4) }
    ensures words { told_words result ≡ words_if (nat_lt rd 32) (words_of (mov32_of rd imm)) }
{
    below(rd, 32)?;
    Ok(in_order(halves(rd, imm).as_slice()))
}

// One quarter of a 64-bit number, behind the words before it.
fn push_quarter(words: &mut ArrayVec<u32, 4>, rd: u32, hw: u32, part: u32)
    requires { (rd < 32) × (hw < 4) × (part < 65536) × (array_vec_len words.old < 4) }
    ensures items { words.new.items ≡ words.old.items ++ words_of (quarter_of rd hw part) }
    ensures len { array_vec_len words.new ≤ array_vec_len words.old + 1 }
{
    if part != 0 {
        words.push(word(Instr::MoveWide(Size::X, Move::Movk, hw, part, rd)));
    }
}

pub fn mov64(rd: u32, imm: u64) -> Result<Sequence, EncodeError>
    ensures { told_words result ≡ words_if (nat_lt rd 32) (words_of (mov64_of rd imm)) }
{
    below(rd, 32)?;
    let mut words = ArrayVec::new();
    words.push(word(Instr::MoveWide(Size::X, Move::Movz, 0, (imm % 65536) as u32, rd)));
    push_quarter(&mut words, rd, 1, (imm / 0x1_0000 % 65536) as u32);
    push_quarter(&mut words, rd, 2, (imm / 0x1_0000_0000 % 65536) as u32);
    push_quarter(&mut words, rd, 3, (imm / 0x1_0000_0000_0000 % 65536) as u32);
    Ok(in_order(words.as_slice()))
}

pub fn add_imm32(rd: u32, rn: u32, imm: u32, scratch: u32) -> Result<Sequence, EncodeError>
    ensures { told_words result ≡ words_if (both (nat_lt rd 32) (both (nat_lt rn 32) (nat_lt scratch 32)))
        (words_of (add_imm32_of rd rn imm scratch)) }
{
    below(rd, 32)?;
    below(rn, 32)?;
    below(scratch, 32)?;
    if imm < 4096 {
        return Ok(in_order(&[word(Instr::AddSubImm(
            Size::W,
            AddSub::Add,
            Flags::Keeps,
            imm,
            rn,
            rd,
        ))]));
    }
    let negative = std::num::wrapping_sub_u32(0, imm);
    if negative < 4096 {
        return Ok(in_order(&[word(Instr::AddSubImm(
            Size::W,
            AddSub::Sub,
            Flags::Keeps,
            negative,
            rn,
            rd,
        ))]));
    }
    let add = word(Instr::AddSubShifted(
        Size::W,
        AddSub::Add,
        Flags::Keeps,
        Shift::Lsl,
        scratch,
        0,
        rn,
        rd,
    ));
    let mut words = halves(scratch, imm);
    words.push(add);
    Ok(in_order(words.as_slice()))
}

// `Gen::add_imm` of jit.rs.
pub fn gen_add_imm(dst: u32, src: u32, imm: u32) -> Result<Sequence, EncodeError>
    ensures { told_words result ≡ words_if (both (nat_lt dst 32) (nat_lt src 32)) (words_of (gen_add_imm_of dst src imm)) }
{
    below(dst, 32)?;
    below(src, 32)?;
    if imm == 0 {
        if dst == src {
            return Ok(in_order(&[]));
        }
        return Ok(in_order(&[word(Instr::LogicalShifted(
            Size::W,
            Logic::Orr,
            Second::Plain,
            Shift::Lsl,
            src,
            0,
            31,
            dst,
        ))]));
    }
    add_imm32(dst, src, imm, 9)
}

// A load from the pool as a code of its own: the load, a nop, and the number, low word first.
pub fn ldr_lit_x(rd: u32, imm: u64) -> Result<Sequence, EncodeError>
    ensures { told_words result ≡ words_if (nat_lt rd 32) (encode (LoadLiteral 2 rd) ∷ encode Nop ∷ imm % 2 ^ 32 ∷ imm / 2 ^ 32 ∷ []) }
{
    below(rd, 32)?;
    let load = word(Instr::LoadLiteral(2, rd));
    let nop = word(Instr::Nop);
    Ok(in_order(&[
        load,
        nop,
        (imm % 0x1_0000_0000) as u32,
        (imm / 0x1_0000_0000) as u32,
    ]))
}
