// The encoder that a name and its numbers call, by how many numbers there are. A name that stands at no arm of a `match` is looked for
// in the function that the last arm calls. Operands are numbers in the order of the line: each encoder names them otherwise.
#![tactic(auto)]

ghost use Rattle.std.specs.Prelude.{◌≡◌};
ghost use Rattle.calls.specs.declared.CallError.TheVariants.{Unknown, Refused};

pub use a64::Sequence;
use a64::{Cond, EncodeError};
use std::num::TryFromIntError;
use text::signed;

// Why a line has no words: it is no call, or its call is refused.
#[derive(Clone, Copy, Debug, PartialEq, Eq)]
pub enum CallError {
    Unknown,
    Refused(EncodeError),
}

impl From<EncodeError> for CallError {
    ghost from_gives = { λ e c. c ≡ Refused e };

    fn from(e: EncodeError) -> CallError {
        CallError::Refused(e)
    }
}

impl From<TryFromIntError> for CallError {
    ghost from_gives = { λ _ c. c ≡ Unknown };

    fn from(_e: TryFromIntError) -> CallError {
        CallError::Unknown
    }
}

pub fn call(name: &[u8], numbers: &[u64]) -> Result<Sequence, CallError> {
    match numbers {
        [] => single(none(name)),
        &[a] => single(one(name, a)),
        &[a, b] => two(name, a, b),
        &[a, b, c] => three(name, a, b, c),
        &[a, b, c, d] => four(name, a, b, c, d),
        _ => Err(CallError::Unknown),
    }
}

fn single(word: Result<u32, CallError>) -> Result<Sequence, CallError> {
    Ok(Sequence::One(word?))
}

// A match, and no `TryFrom`: only a line of text names a condition by its number.
fn cond(n: u64) -> Result<Cond, CallError> {
    match n {
        0 => Ok(Cond::Eq),
        1 => Ok(Cond::Ne),
        2 => Ok(Cond::Hs),
        3 => Ok(Cond::Lo),
        4 => Ok(Cond::Mi),
        5 => Ok(Cond::Pl),
        6 => Ok(Cond::Vs),
        7 => Ok(Cond::Vc),
        8 => Ok(Cond::Hi),
        9 => Ok(Cond::Ls),
        10 => Ok(Cond::Ge),
        11 => Ok(Cond::Lt),
        12 => Ok(Cond::Gt),
        13 => Ok(Cond::Le),
        14 => Ok(Cond::Al),
        _ => Err(CallError::Unknown),
    }
}

// An offset of 32 bits. One that has more is no more a multiple of 8 than the largest, and refused as that is.
fn offset(bits: u64) -> i32 {
    i32::try_from(signed(bits)).unwrap_or(i32::MAX)
}

fn none(name: &[u8]) -> Result<u32, CallError> {
    match name {
        b"ret" => Ok(a64::ret()?),
        _ => Err(CallError::Unknown),
    }
}

fn one(name: &[u8], a: u64) -> Result<u32, CallError> {
    match name {
        b"b" => Ok(a64::b(signed(a))?),
        b"blr" => Ok(a64::blr(u32::try_from(a)?)?),
        b"br" => Ok(a64::br(u32::try_from(a)?)?),
        _ => Err(CallError::Unknown),
    }
}

fn two(name: &[u8], a: u64, b: u64) -> Result<Sequence, CallError> {
    match name {
        b"link" => single(Ok(a64::link(signed(a), signed(b))?)),
        b"b_cond" => single(Ok(a64::b_cond(cond(a)?, signed(b))?)),
        _ => constant(name, u32::try_from(a)?, b),
    }
}

fn constant(name: &[u8], rd: u32, imm: u64) -> Result<Sequence, CallError> {
    match name {
        b"ldr_lit_x" => Ok(a64::ldr_lit_x(rd, imm)?),
        b"mov64" => Ok(a64::mov64(rd, imm)?),
        b"mov32" => Ok(a64::mov32(rd, u32::try_from(imm)?)?),
        _ => single(compare(name, rd, imm)),
    }
}

fn compare(name: &[u8], rt: u32, b: u64) -> Result<u32, CallError> {
    let word = match name {
        b"cbz" => a64::cbz(rt, signed(b)),
        b"cbnz" => a64::cbnz(rt, signed(b)),
        b"cbz_x" => a64::cbz_x(rt, signed(b)),
        b"cbnz_x" => a64::cbnz_x(rt, signed(b)),
        b"adr" => a64::adr(rt, signed(b)),
        b"cset" => a64::cset(rt, cond(b)?),
        _ => return pair(name, rt, u32::try_from(b)?),
    };
    Ok(word?)
}

fn pair(name: &[u8], rd: u32, rn: u32) -> Result<u32, CallError> {
    let word = match name {
        b"mov" => a64::mov(rd, rn),
        b"mov_x" => a64::mov_x(rd, rn),
        b"cmp_imm" => a64::cmp_imm(rd, rn),
        b"cmp" => a64::cmp(rd, rn),
        b"cmp_x" => a64::cmp_x(rd, rn),
        b"neg" => a64::neg(rd, rn),
        b"mvn" => a64::mvn(rd, rn),
        b"rev" => a64::rev(rd, rn),
        b"rev16" => a64::rev16(rd, rn),
        b"tst" => a64::tst(rd, rn),
        b"sxth" => a64::sxth(rd, rn),
        b"uxth" => a64::uxth(rd, rn),
        b"clz" => a64::clz(rd, rn),
        _ => return float(name, rd, rn),
    };
    Ok(word?)
}

fn float(name: &[u8], d: u32, n: u32) -> Result<u32, CallError> {
    let word = match name {
        b"fmov_s_w" => a64::fmov_s_w(d, n),
        b"fmov_w_s" => a64::fmov_w_s(d, n),
        b"fcmp" => a64::fcmp(d, n),
        b"fcvtzs" => a64::fcvtzs(d, n),
        b"fcvtzu" => a64::fcvtzu(d, n),
        b"scvtf" => a64::scvtf(d, n),
        b"ucvtf" => a64::ucvtf(d, n),
        _ => return Err(CallError::Unknown),
    };
    Ok(word?)
}

fn three(name: &[u8], a: u64, b: u64, c: u64) -> Result<Sequence, CallError> {
    let rd = u32::try_from(a)?;
    let rn = u32::try_from(b)?;
    match name {
        b"gen_add_imm" => Ok(a64::gen_add_imm(rd, rn, u32::try_from(c)?)?),
        _ => single(test(name, rd, rn, c)),
    }
}

fn test(name: &[u8], rt: u32, b: u32, c: u64) -> Result<u32, CallError> {
    let word = match name {
        b"tbz" => a64::tbz(rt, b, signed(c)),
        b"tbnz" => a64::tbnz(rt, b, signed(c)),
        b"cneg" => a64::cneg(rt, b, cond(c)?),
        _ => return arith(name, rt, b, u32::try_from(c)?),
    };
    Ok(word?)
}

fn arith(name: &[u8], rd: u32, rn: u32, rm: u32) -> Result<u32, CallError> {
    let word = match name {
        b"add" => a64::add(rd, rn, rm),
        b"add_x" => a64::add_x(rd, rn, rm),
        b"sub" => a64::sub(rd, rn, rm),
        b"subs" => a64::subs(rd, rn, rm),
        b"sdiv" => a64::sdiv(rd, rn, rm),
        b"udiv" => a64::udiv(rd, rn, rm),
        b"lslv" => a64::lslv(rd, rn, rm),
        b"lsrv" => a64::lsrv(rd, rn, rm),
        b"asrv" => a64::asrv(rd, rn, rm),
        b"lsrv_x" => a64::lsrv_x(rd, rn, rm),
        b"mul" => a64::mul(rd, rn, rm),
        b"umull" => a64::umull(rd, rn, rm),
        b"smull" => a64::smull(rd, rn, rm),
        _ => return logic(name, rd, rn, rm),
    };
    Ok(word?)
}

fn logic(name: &[u8], rd: u32, rn: u32, rm: u32) -> Result<u32, CallError> {
    let word = match name {
        b"and" => a64::and(rd, rn, rm),
        b"orr" => a64::orr(rd, rn, rm),
        b"orr_x" => a64::orr_x(rd, rn, rm),
        b"eor" => a64::eor(rd, rn, rm),
        b"bic" => a64::bic(rd, rn, rm),
        b"ands" => a64::ands(rd, rn, rm),
        b"tst_mask" => a64::tst_mask(rd, rn, rm),
        _ => return immediate(name, rd, rn, rm),
    };
    Ok(word?)
}

fn immediate(name: &[u8], rd: u32, rn: u32, imm: u32) -> Result<u32, CallError> {
    let word = match name {
        b"add_imm" => a64::add_imm(rd, rn, imm),
        b"sub_imm" => a64::sub_imm(rd, rn, imm),
        b"subs_imm" => a64::subs_imm(rd, rn, imm),
        b"add_imm_x" => a64::add_imm_x(rd, rn, imm),
        b"lsl_imm" => a64::lsl_imm(rd, rn, imm),
        b"lsr_imm" => a64::lsr_imm(rd, rn, imm),
        b"asr_imm" => a64::asr_imm(rd, rn, imm),
        b"lsr_imm_x" => a64::lsr_imm_x(rd, rn, imm),
        b"asr_imm_x" => a64::asr_imm_x(rd, rn, imm),
        b"lsl_imm_x" => a64::lsl_imm_x(rd, rn, imm),
        _ => return wide(name, rd, rn, imm),
    };
    Ok(word?)
}

fn wide(name: &[u8], rd: u32, imm16: u32, shift: u32) -> Result<u32, CallError> {
    let word = match name {
        b"movz" => a64::movz(rd, imm16, shift),
        b"movk" => a64::movk(rd, imm16, shift),
        b"movn" => a64::movn(rd, imm16, shift),
        b"movz_x" => a64::movz_x(rd, imm16, shift),
        b"movk_x" => a64::movk_x(rd, imm16, shift),
        _ => return memory(name, rd, imm16, shift),
    };
    Ok(word?)
}

fn memory(name: &[u8], rt: u32, rn: u32, off: u32) -> Result<u32, CallError> {
    let word = match name {
        b"ldr" => a64::ldr(rt, rn, off),
        b"str" => a64::str(rt, rn, off),
        b"ldrh" => a64::ldrh(rt, rn, off),
        b"ldr_x" => a64::ldr_x(rt, rn, off),
        b"str_x" => a64::str_x(rt, rn, off),
        b"strb" => a64::strb(rt, rn, off),
        _ => return indexed(name, rt, rn, off),
    };
    Ok(word?)
}

fn indexed(name: &[u8], rt: u32, rn: u32, wm: u32) -> Result<u32, CallError> {
    let word = match name {
        b"ldr_idx" => a64::ldr_idx(rt, rn, wm),
        b"str_idx" => a64::str_idx(rt, rn, wm),
        b"ldr_u" => a64::ldr_u(rt, rn, wm),
        b"ldrh_u" => a64::ldrh_u(rt, rn, wm),
        b"ldrb_u" => a64::ldrb_u(rt, rn, wm),
        b"ldrsb_u" => a64::ldrsb_u(rt, rn, wm),
        b"ldrsh_u" => a64::ldrsh_u(rt, rn, wm),
        b"str_u" => a64::str_u(rt, rn, wm),
        b"strh_u" => a64::strh_u(rt, rn, wm),
        b"strb_u" => a64::strb_u(rt, rn, wm),
        _ => return Err(CallError::Unknown),
    };
    Ok(word?)
}

fn four(name: &[u8], a: u64, b: u64, c: u64, d: u64) -> Result<Sequence, CallError> {
    let rd = u32::try_from(a)?;
    let rn = u32::try_from(b)?;
    let rm = u32::try_from(c)?;
    match name {
        b"add_imm32" => Ok(a64::add_imm32(rd, rn, rm, u32::try_from(d)?)?),
        _ => single(pairs(name, rd, rn, rm, d)),
    }
}

fn pairs(name: &[u8], rt1: u32, rt2: u32, rn: u32, off: u64) -> Result<u32, CallError> {
    let word = match name {
        b"stp_pre" => a64::stp_pre(rt1, rt2, rn, offset(off)),
        b"stp" => a64::stp(rt1, rt2, rn, offset(off)),
        b"ldp" => a64::ldp(rt1, rt2, rn, offset(off)),
        b"ldp_post" => a64::ldp_post(rt1, rt2, rn, offset(off)),
        _ => return shifted(name, rt1, rt2, rn, off),
    };
    Ok(word?)
}

fn shifted(name: &[u8], rd: u32, rn: u32, rm: u32, d: u64) -> Result<u32, CallError> {
    let sh = u32::try_from(d)?;
    let word = match name {
        b"fop" => a64::fop(rd, rn, rm, sh),
        b"add_lsl" => a64::add_lsl(rd, rn, rm, sh),
        b"add_lsr" => a64::add_lsr(rd, rn, rm, sh),
        b"add_x_lsl" => a64::add_x_lsl(rd, rn, rm, sh),
        b"eor_lsr" => a64::eor_lsr(rd, rn, rm, sh),
        b"sub_lsl" => a64::sub_lsl(rd, rn, rm, sh),
        b"msub" => a64::msub(rd, rn, rm, sh),
        b"orr_lsl" => a64::orr_lsl(rd, rn, rm, sh),
        b"and_mask" => a64::and_mask(rd, rn, rm, sh),
        b"ubfx" => a64::ubfx(rd, rn, rm, sh),
        b"sbfx" => a64::sbfx(rd, rn, rm, sh),
        _ => return select(name, rd, rn, rm, d),
    };
    Ok(word?)
}

fn select(name: &[u8], rd: u32, rn: u32, rm: u32, c: u64) -> Result<u32, CallError> {
    let c = cond(c)?;
    let word = match name {
        b"csel" => a64::csel(rd, rn, rm, c),
        b"csinc" => a64::csinc(rd, rn, rm, c),
        b"csneg" => a64::csneg(rd, rn, rm, c),
        _ => return Err(CallError::Unknown),
    };
    Ok(word?)
}
