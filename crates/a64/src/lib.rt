// The encoders of jit_a64.rs: what each instruction's word is, or why it is refused. A function for each size, as the Rust has them (`add`,
// `add_x`), since their names and arguments are the port's.
#![tactic(auto)]

ghost use Rattle.std.specs.Prelude.{◌≡◌};
ghost use Rattle.a64.specs.Conditions.{code, inverse};

mod arith;
mod bitfield;
mod control;
mod logic;
mod memory;
mod moves;
mod select;

pub use arith::add;
pub use arith::add_imm;
pub use arith::add_imm_x;
pub use arith::add_lsl;
pub use arith::add_lsr;
pub use arith::add_x;
pub use arith::add_x_lsl;
pub use arith::cmp;
pub use arith::cmp_imm;
pub use arith::cmp_x;
pub use arith::msub;
pub use arith::mul;
pub use arith::neg;
pub use arith::sdiv;
pub use arith::smull;
pub use arith::sub;
pub use arith::sub_imm;
pub use arith::sub_lsl;
pub use arith::subs;
pub use arith::subs_imm;
pub use arith::udiv;
pub use arith::umull;
pub use bitfield::and_mask;
pub use bitfield::asr_imm;
pub use bitfield::asr_imm_x;
pub use bitfield::asrv;
pub use bitfield::lsl_imm;
pub use bitfield::lsl_imm_x;
pub use bitfield::lslv;
pub use bitfield::lsr_imm;
pub use bitfield::lsr_imm_x;
pub use bitfield::lsrv;
pub use bitfield::lsrv_x;
pub use bitfield::sbfx;
pub use bitfield::sxth;
pub use bitfield::tst_mask;
pub use bitfield::ubfx;
pub use bitfield::uxth;
pub use chain::link;
pub use constants::Sequence;
pub use constants::add_imm32;
pub use constants::gen_add_imm;
pub use constants::ldr_lit_x;
pub use constants::mov32;
pub use constants::mov64;
pub use control::adr;
pub use control::b;
pub use control::b_cond;
pub use control::blr;
pub use control::br;
pub use control::cbnz;
pub use control::cbnz_x;
pub use control::cbz;
pub use control::cbz_x;
pub use control::ret;
pub use control::tbnz;
pub use control::tbz;
pub use floats::fcmp;
pub use floats::fcvtzs;
pub use floats::fcvtzu;
pub use floats::fmov_s_w;
pub use floats::fmov_w_s;
pub use floats::fop;
pub use floats::scvtf;
pub use floats::ucvtf;
pub use logic::and;
pub use logic::ands;
pub use logic::bic;
pub use logic::clz;
pub use logic::eor;
pub use logic::eor_lsr;
pub use logic::orr;
pub use logic::orr_lsl;
pub use logic::orr_x;
pub use logic::rev;
pub use logic::rev16;
pub use logic::tst;
pub use memory::ldp;
pub use memory::ldp_post;
pub use memory::ldr;
pub use memory::ldr_idx;
pub use memory::ldr_u;
pub use memory::ldr_x;
pub use memory::ldrb_u;
pub use memory::ldrh;
pub use memory::ldrh_u;
pub use memory::ldrsb_u;
pub use memory::ldrsh_u;
pub use memory::stp;
pub use memory::stp_pre;
pub use memory::str;
pub use memory::str_idx;
pub use memory::str_u;
pub use memory::str_x;
pub use memory::strb;
pub use memory::strb_u;
pub use memory::strh_u;
pub use moves::mov;
pub use moves::mov_x;
pub use moves::movk;
pub use moves::movk_x;
pub use moves::movn;
pub use moves::movz;
pub use moves::movz_x;
pub use moves::mvn;
pub use select::cneg;
pub use select::csel;
pub use select::cset;
pub use select::csinc;
pub use select::csneg;
pub use words::EncodeError;

// The condition codes, by the numbers of the cond field.
#[derive(Clone, Copy)]
pub enum Cond {
    Eq,
    Ne,
    Hs,
    Lo,
    Mi,
    Pl,
    Vs,
    Vc,
    Hi,
    Ls,
    Ge,
    Lt,
    Gt,
    Le,
    Al,
}

impl From<Cond> for u32 {
    ghost from_gives = { λ c n. n ≡ code c };

    fn from(c: Cond) -> u32 {
        c as u32
    }
}

impl Cond {
    pub fn invert(self) -> Cond
        ensures { result ≡ inverse self }
    {
        match self {
            Cond::Eq => Cond::Ne,
            Cond::Ne => Cond::Eq,
            Cond::Hs => Cond::Lo,
            Cond::Lo => Cond::Hs,
            Cond::Mi => Cond::Pl,
            Cond::Pl => Cond::Mi,
            Cond::Vs => Cond::Vc,
            Cond::Vc => Cond::Vs,
            Cond::Hi => Cond::Ls,
            Cond::Ls => Cond::Hi,
            Cond::Ge => Cond::Lt,
            Cond::Lt => Cond::Ge,
            Cond::Gt => Cond::Le,
            Cond::Le => Cond::Gt,
            Cond::Al => Cond::Al,
        }
    }
}
