// Conditional selects.
ghost use Rattle.std.specs.Prelude.{◌≡◌};
ghost use Rattle.arm.specs.declared.Size.TheVariants.{W};
ghost use Rattle.arm.specs.declared.Select.TheVariants.{Csel, Csinc, Csneg};
ghost use Rattle.arm.specs.declared.Instr.TheVariants.{CondSelect};
ghost use Rattle.words.specs.Answers.{answer, told};
ghost use Rattle.a64.specs.Conditions.{code, inverse};

use super::Cond;
use arm::{Instr, Select, Size};
use words::{EncodeError, encode};

fn select(o: Select, rm: u32, c: Cond, rn: u32, rd: u32) -> Result<u32, EncodeError>
    ensures { told result ≡ told (answer (CondSelect W o rm (code c) rn rd)) }
{
    encode(Instr::CondSelect(Size::W, o, rm, c as u32, rn, rd))
}

fn select_inverted(o: Select, rm: u32, c: Cond, rn: u32, rd: u32) -> Result<u32, EncodeError>
    ensures { told result ≡ told (answer (CondSelect W o rm (code (inverse c)) rn rd)) }
{
    select(o, rm, c.invert(), rn, rd)
}

pub fn csel(rd: u32, rn: u32, rm: u32, c: Cond) -> Result<u32, EncodeError>
    ensures { told result ≡ told (answer (CondSelect W Csel rm (code c) rn rd)) }
{
    select(Select::Csel, rm, c, rn, rd)
}

pub fn csinc(rd: u32, rn: u32, rm: u32, c: Cond) -> Result<u32, EncodeError>
    ensures { told result ≡ told (answer (CondSelect W Csinc rm (code c) rn rd)) }
{
    select(Select::Csinc, rm, c, rn, rd)
}

pub fn csneg(rd: u32, rn: u32, rm: u32, c: Cond) -> Result<u32, EncodeError>
    ensures { told result ≡ told (answer (CondSelect W Csneg rm (code c) rn rd)) }
{
    select(Select::Csneg, rm, c, rn, rd)
}

pub fn cset(rd: u32, c: Cond) -> Result<u32, EncodeError>
    ensures { told result ≡ told (answer (CondSelect W Csinc 31 (code (inverse c)) 31 rd)) }
{
    select_inverted(Select::Csinc, 31, c, 31, rd)
}

pub fn cneg(rd: u32, rn: u32, c: Cond) -> Result<u32, EncodeError>
    ensures { told result ≡ told (answer (CondSelect W Csneg rn (code (inverse c)) rn rd)) }
{
    select_inverted(Select::Csneg, rn, c, rn, rd)
}
