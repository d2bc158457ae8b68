// Branches. A distance is in words, from the branch.
ghost use Rattle.std.specs.Prelude.{◌≡◌, ◌*◌, ◌^◌};
ghost use Rattle.arm.specs.declared.Size.TheVariants.{W, X};
ghost use Rattle.arm.specs.declared.Test.TheVariants.{Zero, Nonzero};
ghost use Rattle.arm.specs.declared.Jump.TheVariants.{Br, Blr, Ret};
ghost use Rattle.arm.specs.declared.Instr.TheVariants.{CompareBranch, TestBranch, CondBranch, Branch, BranchReg, Adr};
ghost use Rattle.words.specs.Answers.{answer, answer_if, told};
ghost use Rattle.a64.specs.Conditions.{code};
ghost use Rattle.words.specs.Signed.{reaches, twos};

use super::Cond;
use arm::{Instr, Jump, Size, Test};
use words::{EncodeError, encode, encode_if, reaches, twos};

// Half of what a field of 26, 19 or 14 bits holds.
const HALF_26: u32 = 0x200_0000;

const HALF_19: u32 = 0x4_0000;

const HALF_14: u32 = 0x2000;

pub fn b(distance: i64) -> Result<u32, EncodeError>
    ensures { told result ≡ told (answer_if (reaches (2 ^ 25) distance) (Branch (twos (2 ^ 25) distance))) }
{
    encode_if(
        reaches(HALF_26, distance),
        Instr::Branch(twos(HALF_26, distance)),
    )
}

pub fn b_cond(c: Cond, distance: i64) -> Result<u32, EncodeError>
    ensures { told result ≡ told (answer_if (reaches (2 ^ 18) distance) (CondBranch (twos (2 ^ 18) distance) (code c))) }
{
    encode_if(
        reaches(HALF_19, distance),
        Instr::CondBranch(twos(HALF_19, distance), c as u32),
    )
}

fn compare(z: Size, t: Test, rt: u32, distance: i64) -> Result<u32, EncodeError>
    ensures { told result ≡ told (answer_if (reaches (2 ^ 18) distance) (CompareBranch z t (twos (2 ^ 18) distance) rt)) }
{
    encode_if(
        reaches(HALF_19, distance),
        Instr::CompareBranch(z, t, twos(HALF_19, distance), rt),
    )
}

pub fn cbz(rt: u32, distance: i64) -> Result<u32, EncodeError>
    ensures { told result ≡ told (answer_if (reaches (2 ^ 18) distance) (CompareBranch W Zero (twos (2 ^ 18) distance) rt)) }
{
    compare(Size::W, Test::Zero, rt, distance)
}

pub fn cbnz(rt: u32, distance: i64) -> Result<u32, EncodeError>
    ensures { told result ≡ told (answer_if (reaches (2 ^ 18) distance) (CompareBranch W Nonzero (twos (2 ^ 18) distance) rt)) }
{
    compare(Size::W, Test::Nonzero, rt, distance)
}

pub fn cbz_x(rt: u32, distance: i64) -> Result<u32, EncodeError>
    ensures { told result ≡ told (answer_if (reaches (2 ^ 18) distance) (CompareBranch X Zero (twos (2 ^ 18) distance) rt)) }
{
    compare(Size::X, Test::Zero, rt, distance)
}

pub fn cbnz_x(rt: u32, distance: i64) -> Result<u32, EncodeError>
    ensures { told result ≡ told (answer_if (reaches (2 ^ 18) distance) (CompareBranch X Nonzero (twos (2 ^ 18) distance) rt)) }
{
    compare(Size::X, Test::Nonzero, rt, distance)
}

fn test(t: Test, rt: u32, bit: u32, distance: i64) -> Result<u32, EncodeError>
    ensures { told result ≡ told (answer_if (reaches (2 ^ 13) distance) (TestBranch t bit (twos (2 ^ 13) distance) rt)) }
{
    encode_if(
        reaches(HALF_14, distance),
        Instr::TestBranch(t, bit, twos(HALF_14, distance), rt),
    )
}

pub fn tbz(rt: u32, bit: u32, distance: i64) -> Result<u32, EncodeError>
    ensures { told result ≡ told (answer_if (reaches (2 ^ 13) distance) (TestBranch Zero bit (twos (2 ^ 13) distance) rt)) }
{
    test(Test::Zero, rt, bit, distance)
}

pub fn tbnz(rt: u32, bit: u32, distance: i64) -> Result<u32, EncodeError>
    ensures { told result ≡ told (answer_if (reaches (2 ^ 13) distance) (TestBranch Nonzero bit (twos (2 ^ 13) distance) rt)) }
{
    test(Test::Nonzero, rt, bit, distance)
}

pub fn adr(rd: u32, distance: i64) -> Result<u32, EncodeError>
    ensures { told result ≡ told (answer_if (reaches (2 ^ 18) distance) (Adr (twos (2 ^ 18) distance * 4) rd)) }
{
    encode_if(
        reaches(HALF_19, distance),
        Instr::Adr(twos(HALF_19, distance) * 4, rd),
    )
}

pub fn blr(rn: u32) -> Result<u32, EncodeError>
    ensures { told result ≡ told (answer (BranchReg Blr rn)) }
{
    encode(Instr::BranchReg(Jump::Blr, rn))
}

pub fn br(rn: u32) -> Result<u32, EncodeError>
    ensures { told result ≡ told (answer (BranchReg Br rn)) }
{
    encode(Instr::BranchReg(Jump::Br, rn))
}

pub fn ret() -> Result<u32, EncodeError>
    ensures { told result ≡ told (answer (BranchReg Ret 30)) }
{
    encode(Instr::BranchReg(Jump::Ret, 30))
}
