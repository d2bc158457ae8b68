// The numbers of the fields that are not their enum's own: two fields of one name, or 32 and 64 bits.
ghost use Rattle.std.specs.Prelude.{◌≡◌, ◌<◌, ◌≤◌, ◌^◌};
ghost use Rattle.arm.specs.Instr.{bits, three_sf, three_op31, three_o0, select_op, select_op2, access_size, access_opc};

use arm::{Access, Select, Size, Three};

pub fn bits(z: Size) -> u32
    ensures { (result ≡ bits z) × (result ≤ 64) }
{
    match z {
        Size::W => 32,
        Size::X => 64,
    }
}

pub fn three_sf(o: Three) -> u32
    ensures { (result ≡ three_sf o) × (result < 2 ^ 1) }
{
    match o {
        Three::Madd | Three::Msub => 0,
        Three::Smaddl | Three::Umaddl => 1,
    }
}

pub fn three_op31(o: Three) -> u32
    ensures { (result ≡ three_op31 o) × (result < 2 ^ 3) }
{
    match o {
        Three::Madd | Three::Msub => 0,
        Three::Smaddl => 1,
        Three::Umaddl => 5,
    }
}

pub fn three_o0(o: Three) -> u32
    ensures { (result ≡ three_o0 o) × (result < 2 ^ 1) }
{
    match o {
        Three::Msub => 1,
        Three::Madd | Three::Smaddl | Three::Umaddl => 0,
    }
}

pub fn select_op(o: Select) -> u32
    ensures { (result ≡ select_op o) × (result < 2 ^ 1) }
{
    match o {
        Select::Csel | Select::Csinc => 0,
        Select::Csinv | Select::Csneg => 1,
    }
}

pub fn select_op2(o: Select) -> u32
    ensures { (result ≡ select_op2 o) × (result < 2 ^ 1) }
{
    match o {
        Select::Csel | Select::Csinv => 0,
        Select::Csinc | Select::Csneg => 1,
    }
}

pub fn access_size(a: Access) -> u32
    ensures { (result ≡ access_size a) × (result < 2 ^ 2) }
{
    match a {
        Access::Strb | Access::Ldrb | Access::Ldrsb => 0,
        Access::Strh | Access::Ldrh | Access::Ldrsh => 1,
        Access::StrW | Access::LdrW => 2,
        Access::StrX | Access::LdrX => 3,
    }
}

pub fn access_opc(a: Access) -> u32
    ensures { (result ≡ access_opc a) × (result < 2 ^ 2) }
{
    match a {
        Access::Strb | Access::Strh | Access::StrW | Access::StrX => 0,
        Access::Ldrb | Access::Ldrh | Access::LdrW | Access::LdrX => 1,
        Access::Ldrsb | Access::Ldrsh => 3,
    }
}
