// Groups: how many words they move, and whether these are more than a region has.
ghost use Rattle.std.specs.Prelude.{◌≡◌, suc, ◌<◌, length};
ghost use Rattle.block.specs.Block.{saved, moved as moved_by};
ghost use Rattle.operands.specs.Kinds.{fast_of};
ghost use Rattle.operation.specs.Operation.{too_long};

use block::Memory;
use operands::low;

// The registers of PushRets and PopPc, and rets or pc.
fn saved_and(n: u8) -> u32
    ensures { result ≡ suc (length (saved n)) }
{
    if n < 4 {
        return 5 - n as u32;
    }
    n as u32 - 2
}

// The words that a group moves, rets and pc included. Kinds 40 to 44 are the groups; any other moves none.
pub fn moved(kind: u8, x: [u32; 6]) -> u32
    requires { kind < 50 }
    ensures { result ≡ moved_by (fast_of kind x) }
{
    // the arms of 41 and 42, 43 and 44 stand apart: joined by `|` three goals did not close
    match kind {
        40 => (x[1] % 65536).count_ones(),
        41 => saved_and(low(x[0])),
        42 => saved_and(low(x[0])),
        43 => 2,
        44 => 2,
        _ => 0,
    }
}

// So many words are more than RAM or XIP has.
pub fn too_long(m: Memory, n: u32) -> bool
    ensures { result ≡ too_long m n }
{
    let bytes = 4 * (n as u64);
    ((m.ram_len as u64) < bytes) | ((m.xip_len as u64) < bytes)
}
