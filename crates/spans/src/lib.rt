// The numbers of a group of registers: the bytes of a BlockMove and where they start, and which registers PushRets and PopPc move.
#![tactic(auto)]

ghost use Rattle.std.specs.Prelude.{◌≡◌, if◌then◌else◌, nat_lt};
ghost use Rattle.block.specs.Block.{span as span_of};
ghost use Rattle.lowering.specs.Steps.{move_offset};

// Four bytes for each register of a mask.
pub fn span(mask: u16) -> u32
    ensures { result ≡ span_of mask }
{
    4 * mask.count_ones()
}

// Where the words start, from the base on.
pub fn start(down: bool, bytes: u32) -> u32
    ensures { result ≡ move_offset down bytes }
{
    if down { bytes.wrapping_neg() } else { 0 }
}

// Where the base is then, from the start on.
pub fn ahead(down: bool, bytes: u32) -> u32
    ensures { result ≡ (if down then 0 else bytes) }
{
    if down { 0 } else { bytes }
}

// The lowest of the registers that n names: n or 4.
pub fn bot(n: u8) -> u8
    ensures { result ≡ (if nat_lt n 4 then n else 4) }
{
    n.min(4)
}

// The highest of them: 3 or n.
pub fn top(n: u8) -> u8
    ensures { result ≡ (if nat_lt n 4 then 3 else n) }
{
    n.max(3)
}
