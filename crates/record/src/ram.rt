// The operations of a RAM block, held to RAM's end.
ghost use Rattle.std.specs.Prelude.{◌≡◌, false};
ghost use Rattle.block.specs.Block.{in_flash};
ghost use Rattle.record.specs.Record.{start_of, accepted, found_in, within_ram};
ghost use Rattle.record.specs.Parts.{Roomy};

use block::Block;
use faults::{Fault, Refusal};
use operands::get16;

// 17 at the first operation that reaches past RAM's end; `room` is what is left up to there.
pub fn within_ram(s: &[u8], b: &Block) -> Result<(), Refusal>
    requires { (in_flash (start_of s.now) ≡ false) × Roomy b.now }
    ensures { found_in result b.now ≡ within_ram s.now (accepted b.now) }
{
    let m = b.memory;
    let mut room = (m.ram_base as u64) + (m.ram_len as u64) - (b.pc0 as u64);
    let mut at: usize = 96;
    for op in &b.ops[..b.n as usize] {
        let len = op.len as u64;
        if room < len {
            return Err(Refusal {
                fault: Fault::RamEnd,
                place: at,
            });
        }
        room -= len;
        at = at + 3 + get16(s, at + 1) as usize;
    }
    Ok(())
}
