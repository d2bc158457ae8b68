// The A64 instructions of the encoders, grouped by the encoding classes of the Arm manual (C4.1). Operands stand in the order of
// the manual's diagram, from left to right. Registers are 0 to 31, conditions 0 to 15, and signed fields are held as their bits. Where
// one field of the diagram tells the cases of a type apart, each case has that field's number.
#![tactic(auto)]

// sf: the register width, 32 bits or 64
#[derive(Clone, Copy)]
pub enum Size {
    W = 0,
    X = 1,
}

#[derive(Clone, Copy)]
pub enum AddSub {
    Add = 0,
    Sub = 1,
}

// S: whether the condition flags are set
#[derive(Clone, Copy)]
pub enum Flags {
    Keeps = 0,
    Sets = 1,
}

#[derive(Clone, Copy)]
pub enum Shift {
    Lsl = 0,
    Lsr = 1,
    Asr = 2,
    Ror = 3,
}

#[derive(Clone, Copy)]
pub enum Move {
    Movn = 0,
    Movz = 2,
    Movk = 3,
}

#[derive(Clone, Copy)]
pub enum Logic {
    And = 0,
    Orr = 1,
    Eor = 2,
    Ands = 3,
}

// N: whether the second operand is inverted
#[derive(Clone, Copy)]
pub enum Second {
    Plain = 0,
    Inverted = 1,
}

#[derive(Clone, Copy)]
pub enum Extract {
    Sbfm = 0,
    Bfm = 1,
    Ubfm = 2,
}

#[derive(Clone, Copy)]
pub enum One {
    Rev16 = 1,
    Rev = 2,
    Clz = 4,
}

#[derive(Clone, Copy)]
pub enum Two {
    Udiv = 2,
    Sdiv = 3,
    Lslv = 8,
    Lsrv = 9,
    Asrv = 10,
}

#[derive(Clone, Copy)]
pub enum Three {
    Madd,
    Msub,
    Smaddl,
    Umaddl,
}

#[derive(Clone, Copy)]
pub enum Select {
    Csel,
    Csinc,
    Csinv,
    Csneg,
}

#[derive(Clone, Copy)]
pub enum Access {
    Strb,
    Ldrb,
    Ldrsb,
    Strh,
    Ldrh,
    Ldrsh,
    StrW,
    LdrW,
    StrX,
    LdrX,
}

// a register offset's shift: none, or the access's own size
#[derive(Clone, Copy)]
pub enum Scale {
    Unscaled = 0,
    Scaled = 1,
}

#[derive(Clone, Copy)]
pub enum Mode {
    Post = 1,
    Offset = 2,
    Pre = 3,
}

#[derive(Clone, Copy)]
pub enum Pair {
    Stp = 0,
    Ldp = 1,
}

#[derive(Clone, Copy)]
pub enum Test {
    Zero = 0,
    Nonzero = 1,
}

#[derive(Clone, Copy)]
pub enum Jump {
    Br = 0,
    Blr = 1,
    Ret = 2,
}

#[derive(Clone, Copy)]
pub enum Float {
    Fmul = 0,
    Fdiv = 1,
    Fadd = 2,
    Fsub = 3,
    Fmaxnm = 6,
    Fminnm = 7,
}

#[derive(Clone, Copy)]
pub enum Convert {
    Scvtf = 2,
    Ucvtf = 3,
    FmovWS = 6,
    FmovSW = 7,
    Fcvtzs = 24,
    Fcvtzu = 25,
}

#[derive(Clone, Copy)]
pub enum Instr {
    // Move wide (immediate): hw, imm16, Rd
    MoveWide(Size, Move, u32, u32, u32),
    // Add/subtract (immediate): imm12, Rn, Rd
    AddSubImm(Size, AddSub, Flags, u32, u32, u32),
    // Add/subtract (shifted register): Rm, imm6, Rn, Rd
    AddSubShifted(Size, AddSub, Flags, Shift, u32, u32, u32, u32),
    // Logical (shifted register): Rm, imm6, Rn, Rd
    LogicalShifted(Size, Logic, Second, Shift, u32, u32, u32, u32),
    // Logical (immediate), 32 bits: immr, imms, Rn, Rd
    LogicalImm(Logic, u32, u32, u32, u32),
    // Bitfield: immr, imms, Rn, Rd
    Bitfield(Size, Extract, u32, u32, u32, u32),
    // Data-processing (1 source): Rn, Rd
    OneSource(One, u32, u32),
    // Data-processing (2 source): Rm, Rn, Rd
    TwoSource(Size, Two, u32, u32, u32),
    // Data-processing (3 source): Rm, Ra, Rn, Rd
    ThreeSource(Three, u32, u32, u32, u32),
    // Conditional select: Rm, cond, Rn, Rd
    CondSelect(Size, Select, u32, u32, u32, u32),
    // Load/store register (unsigned immediate): imm12, Rn, Rt
    MemoryImm(Access, u32, u32, u32),
    // Load/store register (register offset), extended by UXTW: Rm, Rn, Rt
    MemoryReg(Access, Scale, u32, u32, u32),
    // Load/store register pair, 64 bits: imm7, Rt2, Rn, Rt
    MemoryPair(Mode, Pair, u32, u32, u32, u32),
    // Compare and branch (immediate): imm19, Rt
    CompareBranch(Size, Test, u32, u32),
    // Test and branch (immediate): the bit (b5:b40), imm14, Rt
    TestBranch(Test, u32, u32, u32),
    // Conditional branch (immediate): imm19, cond
    CondBranch(u32, u32),
    // Unconditional branch (immediate): imm26
    Branch(u32),
    // Unconditional branch (register): Rn
    BranchReg(Jump, u32),
    // PC-rel. addressing: immhi:immlo, Rd
    Adr(u32, u32),
    // Load register (literal), 64 bits: imm19, Rt
    LoadLiteral(u32, u32),
    // Hints
    Nop,
    // Floating-point data-processing (2 source), single-precision: Rm, Rn, Rd
    FloatTwo(Float, u32, u32, u32),
    // Floating-point compare, single-precision: Rm, Rn
    FloatCompare(u32, u32),
    // Conversion between floating-point and integer, single-precision and 32 bits: Rn, Rd
    FloatConvert(Convert, u32, u32),
}
