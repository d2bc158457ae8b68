// A checked block: what a block record holds once it is read. The names are those of the Rust: `Fast` is an operation, `Op` its
// arithmetic, `BOp` an operation of a block. A selector that document 01 counts in numbers is an enum here, a number above its
// cases being its last case (docs/DECISIONS.md).
#![tactic(auto)]

ghost use Rattle.std.specs.Prelude.{◌≡◌};
ghost use Rattle.block.specs.Block.{jumping, on_bus, in_flash};

// op 0 to 10
#[derive(Clone, Copy)]
pub enum Op {
    Add,
    Sub,
    RSub,
    And,
    AndNot,
    Or,
    Xor,
    Mul,
    Shl,
    Shr,
    Sar,
}

// op 0 to 5 of Rmw
#[derive(Clone, Copy)]
pub enum RmwOp {
    Or,
    And,
    Xor,
    Add,
    Sub,
    Mov,
}

// cond 0 to 9
#[derive(Clone, Copy)]
pub enum Cond {
    Eq,
    Ne,
    LtU,
    GtU,
    LeU,
    GeU,
    LtS,
    GtS,
    LeS,
    GeS,
}

// b of Ld and St: a register, or 16 for sp
#[derive(Clone, Copy)]
pub enum Base {
    Reg(u8),
    Sp,
}

// i and inc of LdPre and StPre: register i, or with an i of 16 to 255 the increment
#[derive(Clone, Copy)]
pub enum Amount {
    Reg(u8),
    Inc(u32),
}

// w: 1, 2 or 4 bytes
#[derive(Clone, Copy)]
pub enum Width {
    Byte = 1,
    Half = 2,
    Word = 4,
}

// rk, mk: what rv or mv is: a register's number, a number, or the number of a register that names a bit
#[derive(Clone, Copy)]
pub enum Rk {
    Reg,
    Imm,
    Bit,
}

// part of Ext: bits 0 to 7, 0 to 15, 16 to 31
#[derive(Clone, Copy)]
pub enum Part {
    Byte,
    Half,
    Upper,
}

// kind of MinMax
#[derive(Clone, Copy)]
pub enum Choice {
    MinS,
    MaxS,
    MinU,
    MaxU,
}

// k of Un: SatS and SatU saturate to 16 bits, signed and unsigned
#[derive(Clone, Copy)]
pub enum UnKind {
    Not,
    Neg,
    Abs,
    Rev,
    Clz,
    SatS,
    SatU,
}

// k of Div
#[derive(Clone, Copy)]
pub enum DivKind {
    QuoS,
    QuoU,
    RemS,
    RemU,
}

// The kinds, in document 01's order, then document 02's, with their operands in order.
#[derive(Clone, Copy, Default)]
pub enum Fast {
    #[default]
    Nop,
    MovI {
        d: u8,
        v: u32,
    },
    Mov {
        d: u8,
        s: u8,
    },
    AddRI {
        d: u8,
        s: u8,
        v: u32,
    },
    ShlI {
        d: u8,
        s: u8,
        n: u8,
    },
    SarI {
        d: u8,
        s: u8,
        n: u8,
    },
    Alu3 {
        d: u8,
        a: u8,
        b: u8,
        op: Op,
    },
    Alu3I {
        d: u8,
        a: u8,
        v: u32,
        op: Op,
    },
    Alu2 {
        d: u8,
        b: u8,
        op: Op,
    },
    Alu2I {
        d: u8,
        v: u32,
        op: Op,
    },
    A4 {
        d: u8,
        s: u8,
        op: Op,
        rk: Rk,
        rv: u32,
    },
    Ext {
        d: u8,
        s: u8,
        part: Part,
        signed: bool,
    },
    MinMax {
        d: u8,
        a: u8,
        b: u8,
        kind: Choice,
    },
    Un {
        d: u8,
        s: u8,
        k: UnKind,
    },
    Div {
        d: u8,
        a: u8,
        b: u8,
        k: DivKind,
    },
    Mov2 {
        dh: u8,
        dl: u8,
        sh: u8,
        sl: u8,
    },
    Mov2I {
        dh: u8,
        dl: u8,
        v: u32,
    },
    BitExt {
        d: u8,
        s: u8,
        p: u8,
        l: u8,
        signed: bool,
    },
    BitIns {
        d: u8,
        s: u8,
        p: u8,
        l: u8,
    },
    SpAdd {
        v: u32,
    },
    RFromSp {
        d: u8,
        v: u32,
    },
    Ld {
        d: u8,
        b: Base,
        off: u32,
        w: Width,
        signed: bool,
    },
    St {
        s: u8,
        b: Base,
        off: u32,
        w: Width,
    },
    LdIdx {
        d: u8,
        b: u8,
        i: u8,
        sh: u8,
        w: Width,
        signed: bool,
    },
    StIdx {
        s: u8,
        b: u8,
        i: u8,
        sh: u8,
        w: Width,
    },
    LdPost {
        d: u8,
        b: u8,
        w: Width,
        signed: bool,
        inc: u32,
    },
    StPost {
        s: u8,
        b: u8,
        w: Width,
        inc: u32,
    },
    Rmw {
        b: u8,
        w: Width,
        op: RmwOp,
        off: u32,
        v: u32,
    },
    PushRet,
    PopRets,
    BrI {
        a: u8,
        v: u32,
        cond: Cond,
        target: u32,
    },
    BrR {
        a: u8,
        b: u8,
        cond: Cond,
        target: u32,
    },
    DecBr {
        r: u8,
        cond: Cond,
        v: u32,
        target: u32,
    },
    BitBr {
        r: u8,
        mk: Rk,
        ne: bool,
        mv: u32,
        target: u32,
    },
    Goto {
        target: u32,
    },
    Call {
        target: u32,
    },
    Rts,
    GotoR {
        r: u8,
    },
    CallR {
        r: u8,
    },
    PopRet,
    BlockMove {
        base: u8,
        mask: u16,
        store: bool,
        post: bool,
        down: bool,
    },
    PushRets {
        n: u8,
    },
    PopPc {
        n: u8,
    },
    LdPair {
        p: u8,
        b: Base,
        off: u32,
    },
    StPair {
        p: u8,
        b: Base,
        off: u32,
    },
    LdPre {
        d: u8,
        b: u8,
        by: Amount,
        w: Width,
        signed: bool,
    },
    StPre {
        s: u8,
        b: u8,
        by: Amount,
        w: Width,
    },
    LdPostR {
        d: u8,
        b: u8,
        i: u8,
        w: Width,
        signed: bool,
    },
    MemA4 {
        b: u8,
        off: u32,
        op: Op,
        rk: Rk,
        rv: u32,
    },
    Tb {
        r: u8,
        half: bool,
    },
}

// An operation of a block: its guest length in bytes, and whether it is glued to the next one.
#[derive(Clone, Copy, Default)]
pub struct BOp {
    pub fast: Fast,
    pub len: u8,
    pub glue: bool,
}

// Byte offsets in the processor record: field 01.
#[derive(Clone, Copy)]
pub struct Layout {
    pub regs: u32,
    pub sp: u32,
    pub rets: u32,
    pub pc: u32,
    pub hold: u32,
}

// The guest's memory, and whether stores ask the code map: field 02.
#[derive(Clone, Copy)]
pub struct Memory {
    pub ram_base: u32,
    pub ram_len: u32,
    pub xip_base: u32,
    pub xip_len: u32,
    pub map: bool,
}

// Host addresses: field 03.
#[derive(Clone, Copy)]
pub struct Addresses {
    pub h_read: u64,
    pub h_write: u64,
    pub table: u64,
}

// A RAM block's guard, field 06: its `RamGuard`, and the helper that is asked where the versions differ. A flash block has zeros.
#[derive(Clone, Copy, Default)]
pub struct Guard {
    pub at: u64,
    pub h_ram_ok: u64,
}

// Field 04 is pc0. The first n of ops are the block's operations, the others are Nop. An array and its count: a block is copied, and the
// definitions (`ops_of`, `Checked`) read both.
#[derive(Clone, Copy)]
pub struct Block {
    pub layout: Layout,
    pub memory: Memory,
    pub addresses: Addresses,
    pub pc0: u32,
    pub guard: Guard,
    pub ops: [BOp; 32],
    pub n: u32,
}

// The kinds that jump: 30 to 39, PopPc and Tb. A kind is the byte that a record holds, by the numbers of document 01's table.
pub fn jumps(kind: u8) -> bool
    ensures { result ≡ jumping kind }
{
    ((30 <= kind) & (kind < 40)) | ((kind == 42) | (kind == 49))
}

// The kinds that use the bus: 21 to 29, the groups but PopPc, and the forms of 2026-09 but Tb.
pub fn on_bus(kind: u8) -> bool
    ensures { result ≡ on_bus kind }
{
    ((21 <= kind) & (kind < 30)) | ((40 <= kind) & ((kind < 49) & (kind != 42)))
}

// A flash block starts in flash's range, whatever field 02 says; any other block is a RAM block.
pub fn in_flash(pc: u32) -> bool
    ensures { result ≡ in_flash pc }
{
    (0x02000000 <= pc) & (pc < 0x04000000)
}
