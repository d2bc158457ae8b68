// `emit_op`: an operation's kind chooses the function that lowers it.
#![tactic(auto)]

ghost use Rattle.std.specs.Prelude.{◌<◌};
ghost use Rattle.lowering.specs.Steps.{lowered};
ghost use Rattle.lower.specs.Lowers.{Lowers};

use asm::Asm;
use block::Fast;
use emission::Gen;

// The operation at position i, `next` the guest address behind it.
pub fn emit_op(asm: &mut Asm, g: &mut Gen, fast: Fast, i: u32, next: u32)
    requires { i < 32 }
    ensures { Lowers (lowered fast i next) asm.old g.old asm.new g.new }
{
    let count = i + 1;
    match fast {
        Fast::Nop => (),
        Fast::MovI { d, v } => arithmetic::mov_i(asm, g, d, v),
        Fast::Mov { d, s } => arithmetic::mov(asm, g, d, s),
        Fast::AddRI { d, s, v } => arithmetic::add_ri(asm, g, d, s, v),
        Fast::ShlI { d, s, n } => arithmetic::shl_i(asm, g, d, s, n),
        Fast::SarI { d, s, n } => arithmetic::sar_i(asm, g, d, s, n),
        Fast::Alu3 { d, a, b, op } => arithmetic::alu3(asm, g, d, a, b, op),
        Fast::Alu3I { d, a, v, op } => arithmetic::alu3_i(asm, g, d, a, v, op),
        Fast::Alu2 { d, b, op } => arithmetic::alu3(asm, g, d, d, b, op),
        Fast::Alu2I { d, v, op } => arithmetic::alu3_i(asm, g, d, d, v, op),
        Fast::A4 { d, s, op, rk, rv } => arithmetic::a4(asm, g, d, s, op, rk, rv),
        Fast::Ext { d, s, part, signed } => arithmetic::ext(asm, g, d, s, part, signed),
        Fast::MinMax { d, a, b, kind } => arithmetic::min_max(asm, g, d, a, b, kind),
        Fast::Un { d, s, k } => arithmetic::un(asm, g, d, s, k),
        Fast::Div { d, a, b, k } => arithmetic::div(asm, g, d, a, b, k),
        Fast::Mov2 { dh, dl, sh, sl } => arithmetic::mov2(asm, g, dh, dl, sh, sl),
        Fast::Mov2I { dh, dl, v } => arithmetic::mov2_i(asm, g, dh, dl, v),
        Fast::BitExt { d, s, p, l, signed } => arithmetic::bit_ext(asm, g, d, s, p, l, signed),
        Fast::BitIns { d, s, p, l } => arithmetic::bit_ins(asm, g, d, s, p, l),
        Fast::SpAdd { v } => arithmetic::sp_add(asm, g, v),
        Fast::RFromSp { d, v } => arithmetic::r_from_sp(asm, g, d, v),
        Fast::Ld {
            d,
            b,
            off,
            w,
            signed,
        } => bus::ld(asm, g, d, b, off, w, signed, i),
        Fast::St { s, b, off, w } => bus::st(asm, g, s, b, off, w, i),
        Fast::LdIdx {
            d,
            b,
            i: x,
            sh,
            w,
            signed,
        } => bus::ld_idx(asm, g, d, b, x, sh, w, signed, i),
        Fast::StIdx { s, b, i: x, sh, w } => bus::st_idx(asm, g, s, b, x, sh, w, i),
        Fast::LdPost {
            d,
            b,
            w,
            signed,
            inc,
        } => bus::ld_post(asm, g, d, b, w, signed, inc, i),
        Fast::StPost { s, b, w, inc } => bus::st_post(asm, g, s, b, w, inc, i),
        Fast::Rmw { b, w, op, off, v } => bus::rmw(asm, g, b, w, op, off, v, i),
        Fast::PushRet => bus::push_ret(asm, g, i),
        Fast::PopRets => bus::pop_rets(asm, g, i),
        Fast::BrI { a, v, cond, target } => branches::br_i(asm, g, a, v, cond, target, next, count),
        Fast::BrR { a, b, cond, target } => branches::br_r(asm, g, a, b, cond, target, next, count),
        Fast::DecBr { r, cond, v, target } => branches::dec_br(
            asm, g, r, cond, v, target, next, count,
        ),
        Fast::BitBr {
            r,
            mk,
            ne,
            mv,
            target,
        } => branches::bit_br(asm, g, r, mk, ne, mv, target, next, count),
        Fast::Goto { target } => branches::goto(asm, g, target, count),
        Fast::Call { target } => branches::call(asm, g, target, next, count),
        Fast::Rts => branches::rts(asm, g, count),
        Fast::GotoR { r } => branches::goto_r(asm, g, r, count),
        Fast::CallR { r } => branches::call_r(asm, g, r, next, count),
        Fast::PopRet => branches::pop_ret(asm, g, i, count),
        Fast::BlockMove {
            base,
            mask,
            store,
            post,
            down,
        } => groups::block_move(asm, g, base, mask, store, post, down, i),
        Fast::PushRets { n } => groups::push_rets(asm, g, n, i),
        Fast::PopPc { n } => groups::pop_pc(asm, g, n, i, count),
        Fast::LdPair { p, b, off } => groups::move_pair(asm, g, false, p, b, off, i),
        Fast::StPair { p, b, off } => groups::move_pair(asm, g, true, p, b, off, i),
        Fast::LdPre {
            d,
            b,
            by,
            w,
            signed,
        } => forms::ld_pre(asm, g, d, b, by, w, signed, i),
        Fast::StPre { s, b, by, w } => forms::st_pre(asm, g, s, b, by, w, i),
        Fast::LdPostR {
            d,
            b,
            i: x,
            w,
            signed,
        } => forms::ld_post_r(asm, g, d, b, x, w, signed, i),
        Fast::MemA4 { b, off, op, rk, rv } => forms::mem_a4(asm, g, b, off, op, rk, rv, i),
        Fast::Tb { r, half } => forms::tb(asm, g, r, half, i, next, count),
    }
}
