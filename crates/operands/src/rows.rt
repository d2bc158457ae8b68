// The table of kinds, a row for each: how many operands it has and their ranges, and the operation made of them. A kind is the record's own
// number here, since `Fast` is what a row makes of it. Ranges stand in the row, not in a list to walk: that is a test each and no branch.
ghost use Rattle.std.specs.Prelude.{◌≡◌, ◌<◌};
ghost use Rattle.operands.specs.Kinds.{width, fits as fits_in, fast_of};
ghost use Rattle.operands.specs.Rows.{shape_of};

use crate::selectors::{
    amount_of, base_of, choice_of, cond_of, div_kind_of, op_of, part_of, rk_of, rmw_op_of,
    un_kind_of, width_of,
};
use block::Fast;

// The largest number of an operand: of a register, a register or 16 for sp, a byte, a flag, an Op, an RmwOp, a Cond, a mask, n of PushRets
// and PopPc.
const REG: u32 = 15;

const BASE: u32 = 16;

const BYTE: u32 = 255;

const FLAG: u32 = 1;

const OP: u32 = 10;

const RMW_OP: u32 = 5;

const COND: u32 = 9;

const MASK: u32 = 65535;

const NIB: u32 = 15;

fn is_width(x: u32) -> bool
    ensures { result ≡ fits_in width x }
{
    (x == 1) | ((x == 2) | (x == 4))
}

// How many operands a kind has, and whether each is in its range. No Option of the count: a wrong length is told (fault 2) before a number
// out of range (4).
#[derive(Clone, Copy)]
pub struct Shape {
    pub count: usize,
    pub fit: bool,
}

// Behind the operands that a kind has, the others do not matter.
pub fn shape_of(kind: u8, x: [u32; 6]) -> Shape
    requires { kind < 50 }
    ensures { result ≡ shape_of kind x }
{
    let [x0, x1, x2, x3, x4, x5] = x;
    match kind {
        0 => Shape {
            count: 0,
            fit: true,
        },
        1 => Shape {
            count: 2,
            fit: x0 <= REG,
        },
        2 => Shape {
            count: 2,
            fit: (x0 <= REG) & (x1 <= REG),
        },
        3 => Shape {
            count: 3,
            fit: (x0 <= REG) & (x1 <= REG),
        },
        4 => Shape {
            count: 3,
            fit: (x0 <= REG) & ((x1 <= REG) & (x2 <= BYTE)),
        },
        5 => Shape {
            count: 3,
            fit: (x0 <= REG) & ((x1 <= REG) & (x2 <= BYTE)),
        },
        6 => Shape {
            count: 4,
            fit: (x0 <= REG) & ((x1 <= REG) & ((x2 <= REG) & (x3 <= OP))),
        },
        7 => Shape {
            count: 4,
            fit: (x0 <= REG) & ((x1 <= REG) & (x3 <= OP)),
        },
        8 => Shape {
            count: 3,
            fit: (x0 <= REG) & ((x1 <= REG) & (x2 <= OP)),
        },
        9 => Shape {
            count: 3,
            fit: (x0 <= REG) & (x2 <= OP),
        },
        10 => Shape {
            count: 5,
            fit: (x0 <= REG) & ((x1 <= REG) & ((x2 <= OP) & (x3 <= BYTE))),
        },
        11 => Shape {
            count: 4,
            fit: (x0 <= REG) & ((x1 <= REG) & ((x2 <= BYTE) & (x3 <= FLAG))),
        },
        12 => Shape {
            count: 4,
            fit: (x0 <= REG) & ((x1 <= REG) & ((x2 <= REG) & (x3 <= BYTE))),
        },
        13 => Shape {
            count: 3,
            fit: (x0 <= REG) & ((x1 <= REG) & (x2 <= BYTE)),
        },
        14 => Shape {
            count: 4,
            fit: (x0 <= REG) & ((x1 <= REG) & ((x2 <= REG) & (x3 <= BYTE))),
        },
        15 => Shape {
            count: 4,
            fit: (x0 <= REG) & ((x1 <= REG) & ((x2 <= REG) & (x3 <= REG))),
        },
        16 => Shape {
            count: 3,
            fit: (x0 <= REG) & (x1 <= REG),
        },
        17 => Shape {
            count: 5,
            fit: (x0 <= REG) & ((x1 <= REG) & ((x2 <= BYTE) & ((x3 <= BYTE) & (x4 <= FLAG)))),
        },
        18 => Shape {
            count: 4,
            fit: (x0 <= REG) & ((x1 <= REG) & ((x2 <= BYTE) & (x3 <= BYTE))),
        },
        19 => Shape {
            count: 1,
            fit: true,
        },
        20 => Shape {
            count: 2,
            fit: x0 <= REG,
        },
        21 => Shape {
            count: 5,
            fit: (x0 <= REG) & ((x1 <= BASE) & (is_width(x3) & (x4 <= FLAG))),
        },
        22 => Shape {
            count: 4,
            fit: (x0 <= REG) & ((x1 <= BASE) & is_width(x3)),
        },
        23 => Shape {
            count: 6,
            fit: (x0 <= REG)
                & ((x1 <= REG) & ((x2 <= REG) & ((x3 <= BYTE) & (is_width(x4) & (x5 <= FLAG))))),
        },
        24 => Shape {
            count: 5,
            fit: (x0 <= REG) & ((x1 <= REG) & ((x2 <= REG) & ((x3 <= BYTE) & is_width(x4)))),
        },
        25 => Shape {
            count: 5,
            fit: (x0 <= REG) & ((x1 <= REG) & (is_width(x2) & (x3 <= FLAG))),
        },
        26 => Shape {
            count: 4,
            fit: (x0 <= REG) & ((x1 <= REG) & is_width(x2)),
        },
        27 => Shape {
            count: 5,
            fit: (x0 <= REG) & (is_width(x1) & (x2 <= RMW_OP)),
        },
        28 => Shape {
            count: 0,
            fit: true,
        },
        29 => Shape {
            count: 0,
            fit: true,
        },
        30 => Shape {
            count: 4,
            fit: (x0 <= REG) & (x2 <= COND),
        },
        31 => Shape {
            count: 4,
            fit: (x0 <= REG) & ((x1 <= REG) & (x2 <= COND)),
        },
        32 => Shape {
            count: 4,
            fit: (x0 <= REG) & (x1 <= COND),
        },
        33 => Shape {
            count: 5,
            fit: (x0 <= REG) & ((x1 <= BYTE) & (x2 <= FLAG)),
        },
        34 => Shape {
            count: 1,
            fit: true,
        },
        35 => Shape {
            count: 1,
            fit: true,
        },
        36 => Shape {
            count: 0,
            fit: true,
        },
        37 => Shape {
            count: 1,
            fit: x0 <= REG,
        },
        38 => Shape {
            count: 1,
            fit: x0 <= REG,
        },
        39 => Shape {
            count: 0,
            fit: true,
        },
        40 => Shape {
            count: 5,
            fit: (x0 <= REG) & ((x1 <= MASK) & ((x2 <= FLAG) & ((x3 <= FLAG) & (x4 <= FLAG)))),
        },
        41 => Shape {
            count: 1,
            fit: x0 <= NIB,
        },
        42 => Shape {
            count: 1,
            fit: x0 <= NIB,
        },
        43 => Shape {
            count: 3,
            fit: (x0 <= BYTE) & (x1 <= BASE),
        },
        44 => Shape {
            count: 3,
            fit: (x0 <= BYTE) & (x1 <= BASE),
        },
        45 => Shape {
            count: 6,
            fit: (x0 <= REG) & ((x1 <= REG) & ((x2 <= BYTE) & (is_width(x3) & (x4 <= FLAG)))),
        },
        46 => Shape {
            count: 5,
            fit: (x0 <= REG) & ((x1 <= REG) & ((x2 <= BYTE) & is_width(x3))),
        },
        47 => Shape {
            count: 5,
            fit: (x0 <= REG) & ((x1 <= REG) & ((x2 <= REG) & (is_width(x3) & (x4 <= FLAG)))),
        },
        48 => Shape {
            count: 5,
            fit: (x0 <= REG) & ((x2 <= OP) & (x3 <= BYTE)),
        },
        _ => Shape {
            count: 2,
            fit: (x0 <= REG) & (x1 <= FLAG),
        },
    }
}

// The operation that a kind makes of its operands. Inlined: a call would write it in pieces where it is then read whole, and wait for that.
#[inline(always)]
pub fn fast_of(kind: u8, x: [u32; 6]) -> Fast
    requires { kind < 50 }
    ensures { result ≡ fast_of kind x }
{
    let [x0, x1, x2, x3, x4, x5] = x;
    let r0 = (x0 % 256) as u8;
    let r1 = (x1 % 256) as u8;
    let r2 = (x2 % 256) as u8;
    let r3 = (x3 % 256) as u8;
    match kind {
        0 => Fast::Nop,
        1 => Fast::MovI { d: r0, v: x1 },
        2 => Fast::Mov { d: r0, s: r1 },
        3 => Fast::AddRI {
            d: r0,
            s: r1,
            v: x2,
        },
        4 => Fast::ShlI {
            d: r0,
            s: r1,
            n: r2,
        },
        5 => Fast::SarI {
            d: r0,
            s: r1,
            n: r2,
        },
        6 => Fast::Alu3 {
            d: r0,
            a: r1,
            b: r2,
            op: op_of(x3),
        },
        7 => Fast::Alu3I {
            d: r0,
            a: r1,
            v: x2,
            op: op_of(x3),
        },
        8 => Fast::Alu2 {
            d: r0,
            b: r1,
            op: op_of(x2),
        },
        9 => Fast::Alu2I {
            d: r0,
            v: x1,
            op: op_of(x2),
        },
        10 => Fast::A4 {
            d: r0,
            s: r1,
            op: op_of(x2),
            rk: rk_of(x3),
            rv: x4,
        },
        11 => Fast::Ext {
            d: r0,
            s: r1,
            part: part_of(x2),
            signed: x3 != 0,
        },
        12 => Fast::MinMax {
            d: r0,
            a: r1,
            b: r2,
            kind: choice_of(x3),
        },
        13 => Fast::Un {
            d: r0,
            s: r1,
            k: un_kind_of(x2),
        },
        14 => Fast::Div {
            d: r0,
            a: r1,
            b: r2,
            k: div_kind_of(x3),
        },
        15 => Fast::Mov2 {
            dh: r0,
            dl: r1,
            sh: r2,
            sl: r3,
        },
        16 => Fast::Mov2I {
            dh: r0,
            dl: r1,
            v: x2,
        },
        17 => Fast::BitExt {
            d: r0,
            s: r1,
            p: r2,
            l: r3,
            signed: x4 != 0,
        },
        18 => Fast::BitIns {
            d: r0,
            s: r1,
            p: r2,
            l: r3,
        },
        19 => Fast::SpAdd { v: x0 },
        20 => Fast::RFromSp { d: r0, v: x1 },
        21 => Fast::Ld {
            d: r0,
            b: base_of(x1),
            off: x2,
            w: width_of(x3),
            signed: x4 != 0,
        },
        22 => Fast::St {
            s: r0,
            b: base_of(x1),
            off: x2,
            w: width_of(x3),
        },
        23 => Fast::LdIdx {
            d: r0,
            b: r1,
            i: r2,
            sh: r3,
            w: width_of(x4),
            signed: x5 != 0,
        },
        24 => Fast::StIdx {
            s: r0,
            b: r1,
            i: r2,
            sh: r3,
            w: width_of(x4),
        },
        25 => Fast::LdPost {
            d: r0,
            b: r1,
            w: width_of(x2),
            signed: x3 != 0,
            inc: x4,
        },
        26 => Fast::StPost {
            s: r0,
            b: r1,
            w: width_of(x2),
            inc: x3,
        },
        27 => Fast::Rmw {
            b: r0,
            w: width_of(x1),
            op: rmw_op_of(x2),
            off: x3,
            v: x4,
        },
        28 => Fast::PushRet,
        29 => Fast::PopRets,
        30 => Fast::BrI {
            a: r0,
            v: x1,
            cond: cond_of(x2),
            target: x3,
        },
        31 => Fast::BrR {
            a: r0,
            b: r1,
            cond: cond_of(x2),
            target: x3,
        },
        32 => Fast::DecBr {
            r: r0,
            cond: cond_of(x1),
            v: x2,
            target: x3,
        },
        33 => Fast::BitBr {
            r: r0,
            mk: rk_of(x1),
            ne: x2 != 0,
            mv: x3,
            target: x4,
        },
        34 => Fast::Goto { target: x0 },
        35 => Fast::Call { target: x0 },
        36 => Fast::Rts,
        37 => Fast::GotoR { r: r0 },
        38 => Fast::CallR { r: r0 },
        39 => Fast::PopRet,
        40 => Fast::BlockMove {
            base: r0,
            mask: (x1 % 65536) as u16,
            store: x2 != 0,
            post: x3 != 0,
            down: x4 != 0,
        },
        41 => Fast::PushRets { n: r0 },
        42 => Fast::PopPc { n: r0 },
        43 => Fast::LdPair {
            p: r0,
            b: base_of(x1),
            off: x2,
        },
        44 => Fast::StPair {
            p: r0,
            b: base_of(x1),
            off: x2,
        },
        45 => Fast::LdPre {
            d: r0,
            b: r1,
            by: amount_of(x2, x5),
            w: width_of(x3),
            signed: x4 != 0,
        },
        46 => Fast::StPre {
            s: r0,
            b: r1,
            by: amount_of(x2, x4),
            w: width_of(x3),
        },
        47 => Fast::LdPostR {
            d: r0,
            b: r1,
            i: r2,
            w: width_of(x3),
            signed: x4 != 0,
        },
        48 => Fast::MemA4 {
            b: r0,
            off: x1,
            op: op_of(x2),
            rk: rk_of(x3),
            rv: x4,
        },
        _ => Fast::Tb {
            r: r0,
            half: x1 != 0,
        },
    }
}
