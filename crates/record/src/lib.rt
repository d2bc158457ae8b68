// The reader of block records: a checked block, or the first fault and its place.
#![tactic(auto)]

ghost use Rattle.std.specs.Prelude.{◌≡◌, false, ◌+◌, ◌≤◌, ◌<◌, length, IfOk};
ghost use Rattle.block.specs.Block.{in_flash};
ghost use Rattle.block.specs.Checked.{Checked};
ghost use Rattle.record.specs.Record.{header as header_of, operations as operations_of, start_of, guard_field, reading};
ghost use Rattle.record.specs.Record.{found, found_in, Told};
ghost use Rattle.record.specs.Parts.{Faultless};

mod operations;
mod ram;

use crate::operations::read_operation;
use crate::ram::within_ram;
use block::{BOp, Block, in_flash, jumps};
use faults::Refusal;
use fields::{
    addresses_field, addresses_of, guard_at, guard_field, layout_field, layout_of, memory_field,
    memory_of, start_field, start_of,
};
use operands::{byte, get16};

// Fields 01 to 04, of a RAM block 06 too, and no operation.
fn header(s: &[u8]) -> Block
    requires { Faultless s.now × (guard_field s.now ≡ 0) }
    ensures { result ≡ header_of s.now }
{
    Block {
        layout: layout_of(&s[3..23]),
        memory: memory_of(&s[26..43]),
        addresses: addresses_of(&s[46..70]),
        pc0: start_of(s),
        guard: guard_at(s),
        ops: [BOp::default(); 32],
        n: 0,
    }
}

// The operations from a byte on, up to the record's end. No iterator of the library walks so: a field's own length says where the next one
// starts, and its place is told where it has a fault.
fn read_operations(s: &[u8], from: usize, block: &mut Block) -> Result<(), Refusal>
    requires { (from ≤ length s.now) × (block.old.n ≡ 0) × (length block.old.ops ≡ 32) }
    ensures { found_in result block.new ≡ operations_of 33 s.now from block.old }
{
    let mut jumped = false;
    let mut at = from;
    while at < s.len() {
        let op = read_operation(block.memory, s, at, block.n, jumped).map_err(|fault| Refusal {
            fault,
            place: at,
        })?;
        block.ops[block.n as usize] = op;
        block.n += 1;
        jumped = jumps(byte(s, at + 3));
        at = at + 3 + get16(s, at + 1) as usize;
    }
    Ok(())
}

// What follows field 04 of a RAM block: its guard, and its operations up to RAM's end.
fn read_ram(s: &[u8]) -> Result<Block, Refusal>
    requires { Faultless s.now × (in_flash (start_of s.now) ≡ false) }
    ensures { found result ≡ reading s.now }
{
    guard_field(s).map_err(|fault| Refusal { fault, place: 77 })?;
    let mut block = header(s);
    read_operations(s, 96, &mut block)?;
    within_ram(s, &block)?;
    Ok(block)
}

// The whole reader: any bytes, of any length.
pub fn read(s: &[u8]) -> Result<Block, Refusal>
    ensures is_reading { found result ≡ reading s.now }
    ensures checked { IfOk result (λ b. Checked b) }
    ensures number_and_place { Told s.now (found result).answer }
{
    layout_field(s).map_err(|fault| Refusal { fault, place: 0 })?;
    memory_field(s).map_err(|fault| Refusal { fault, place: 23 })?;
    addresses_field(s).map_err(|fault| Refusal { fault, place: 43 })?;
    start_field(s).map_err(|fault| Refusal { fault, place: 70 })?;
    if !in_flash(start_of(s)) {
        return read_ram(s);
    }
    let mut block = header(s);
    read_operations(s, 77, &mut block)?;
    Ok(block)
}
