// Fields 01 to 04 and 06 of a block record: their faults, and what they hold.
#![tactic(auto)]

ghost use Rattle.std.specs.Prelude.{◌≡◌, false, ◌+◌, ◌≤◌, ◌<◌, length};
ghost use Rattle.block.specs.Block.{in_flash};
ghost use Rattle.faults.specs.Faults.{fault_or_0};
ghost use Rattle.fields.specs.Fields.{◌gives◌, cut as is_cut, field_fault, layout_of, spans, span, any, far as is_far, unaligned, meets};
ghost use Rattle.fields.specs.Fields.{overlap as overlapping, layout_fault, layout_field, memory_of, region_fault, memory_fault};
ghost use Rattle.fields.specs.Fields.{memory_field, addresses_of, addresses_field, inside_ram, start_of, start_fault, start_field};
ghost use Rattle.fields.specs.Fields.{guard_of, guard_field, guard_at};

use block::{Addresses, Guard, Layout, Memory, in_flash};
use faults::Fault;
use operands::{byte, get16, get32, get64};

// Header or payload of the field at `at` cut, or the field missing.
pub fn cut(s: &[u8], at: usize) -> Result<(), Fault>
    requires { at ≤ length s.now }
    ensures { fault_or_0 result ≡ (is_cut s.now at gives 1) }
{
    if s.len() - at < 3 {
        return Err(Fault::Cut);
    }
    let n = get16(s, at + 1) as usize;
    if s.len() - at - 3 < n {
        return Err(Fault::Cut);
    }
    Ok(())
}

// Faults 1 and 2 of a field of fixed length.
fn field_fault(s: &[u8], at: usize, tag: u8, len: u32) -> Result<(), Fault>
    requires { at ≤ length s.now }
    ensures { fault_or_0 result ≡ field_fault s.now at tag len }
{
    cut(s, at)?;
    if byte(s, at) != tag {
        return Err(Fault::Field);
    }
    if get16(s, at + 1) != len {
        return Err(Fault::Field);
    }
    Ok(())
}

// ---- field 01

pub fn layout_of(p: &[u8]) -> Layout
    ensures { result ≡ layout_of p.now }
{
    Layout {
        regs: get32(p, 0),
        sp: get32(p, 4),
        rets: get32(p, 8),
        pc: get32(p, 12),
        hold: get32(p, 16),
    }
}

// The last word of a place of that size lies at 16384 or above.
fn far(start: u32, size: u32) -> bool
    ensures { result ≡ is_far (span start size) }
{
    16388 <= (start as u64) + (size as u64)
}

fn meet(a: u32, size: u32, b: u32) -> bool
    ensures { result ≡ meets (span a size) (span b 4) }
{
    ((a as u64) < (b as u64) + 4) & ((b as u64) < (a as u64) + (size as u64))
}

fn any_far(o: Layout) -> bool
    ensures { result ≡ any is_far (spans o) }
{
    far(o.regs, 64) | (far(o.sp, 4) | (far(o.rets, 4) | (far(o.pc, 4) | far(o.hold, 4))))
}

fn any_unaligned(o: Layout) -> bool
    ensures { result ≡ any unaligned (spans o) }
{
    (o.regs % 4 != 0)
        | ((o.sp % 4 != 0) | ((o.rets % 4 != 0) | ((o.pc % 4 != 0) | (o.hold % 4 != 0))))
}

// The pairs by name: no plainer by a loop over the places, which needs two indices and says less.
fn overlap(o: Layout) -> bool
    ensures { result ≡ overlapping (spans o) }
{
    let regs = meet(o.regs, 64, o.sp)
        | (meet(o.regs, 64, o.rets) | (meet(o.regs, 64, o.pc) | meet(o.regs, 64, o.hold)));
    let sp = meet(o.sp, 4, o.rets) | (meet(o.sp, 4, o.pc) | meet(o.sp, 4, o.hold));
    let rets = meet(o.rets, 4, o.pc) | meet(o.rets, 4, o.hold);
    regs | (sp | (rets | meet(o.pc, 4, o.hold)))
}

// The whole layout is tested for 5, then for 14, then for 15.
fn layout_fault(o: Layout) -> Result<(), Fault>
    ensures { fault_or_0 result ≡ layout_fault o }
{
    if any_far(o) {
        return Err(Fault::Offset);
    }
    if any_unaligned(o) {
        return Err(Fault::Unaligned);
    }
    if overlap(o) {
        return Err(Fault::Overlap);
    }
    Ok(())
}

pub fn layout_field(s: &[u8]) -> Result<(), Fault>
    ensures { fault_or_0 result ≡ layout_field s.now }
{
    field_fault(s, 0, 1, 20)?;
    layout_fault(layout_of(&s[3..23]))
}

// ---- field 02

pub fn memory_of(p: &[u8]) -> Memory
    ensures { result ≡ memory_of p.now }
{
    Memory {
        ram_base: get32(p, 0),
        ram_len: get32(p, 4),
        xip_base: get32(p, 8),
        xip_len: get32(p, 12),
        map: byte(p, 16) != 0,
    }
}

fn region_fault(base: u32, len: u32) -> Result<(), Fault>
    ensures { fault_or_0 result ≡ region_fault base len }
{
    if len < 4 {
        return Err(Fault::Region);
    }
    if base % 4 != 0 {
        return Err(Fault::Region);
    }
    if 4294967296 < (base as u64) + (len as u64) {
        return Err(Fault::Region);
    }
    Ok(())
}

fn memory_fault(p: &[u8]) -> Result<(), Fault>
    ensures { fault_or_0 result ≡ memory_fault p.now }
{
    region_fault(get32(p, 0), get32(p, 4))?;
    region_fault(get32(p, 8), get32(p, 12))?;
    if 1 < byte(p, 16) {
        return Err(Fault::Operand);
    }
    Ok(())
}

pub fn memory_field(s: &[u8]) -> Result<(), Fault>
    requires { 23 ≤ length s.now }
    ensures { fault_or_0 result ≡ memory_field s.now }
{
    field_fault(s, 23, 2, 17)?;
    memory_fault(&s[26..43])
}

// ---- field 03

pub fn addresses_of(p: &[u8]) -> Addresses
    ensures { result ≡ addresses_of p.now }
{
    Addresses {
        h_read: get64(p, 0),
        h_write: get64(p, 8),
        table: get64(p, 16),
    }
}

// Place, tag and length are this field's: what it shares with the guard's is `field_fault`.
pub fn addresses_field(s: &[u8]) -> Result<(), Fault>
    requires { 43 ≤ length s.now }
    ensures { fault_or_0 result ≡ addresses_field s.now }
{
    field_fault(s, 43, 3, 24)
}

// ---- field 04

fn inside_ram(m: Memory, a: u32) -> bool
    ensures { result ≡ inside_ram m a }
{
    (m.ram_base <= a) & ((a as u64) < (m.ram_base as u64) + (m.ram_len as u64))
}

// A flash start is tested for tag 06 alone.
fn start_fault(m: Memory, s: &[u8], a: u32) -> Result<(), Fault>
    ensures { fault_or_0 result ≡ start_fault m s.now a }
{
    let next = byte(s, 77) == 6;
    if in_flash(a) {
        if next {
            return Err(Fault::Guard);
        }
        return Ok(());
    }
    if !inside_ram(m, a) {
        return Err(Fault::Start);
    }
    if !next {
        return Err(Fault::Guard);
    }
    Ok(())
}

// Where the block starts.
pub fn start_of(s: &[u8]) -> u32
    requires { field_fault s.now 70 4 4 ≡ 0 }
    ensures { result ≡ start_of s.now }
{
    get32(&s[73..77], 0)
}

pub fn start_field(s: &[u8]) -> Result<(), Fault>
    requires { (70 ≤ length s.now) × (field_fault s.now 23 2 17 ≡ 0) }
    ensures { fault_or_0 result ≡ start_field s.now }
{
    field_fault(s, 70, 4, 4)?;
    start_fault(memory_of(&s[26..43]), s, start_of(s))
}

// ---- field 06

fn guard_of(p: &[u8]) -> Guard
    ensures { result ≡ guard_of p.now }
{
    Guard {
        at: get64(p, 0),
        h_ram_ok: get64(p, 8),
    }
}

// Of a RAM block: a flash block has no such field.
pub fn guard_field(s: &[u8]) -> Result<(), Fault>
    requires { (77 ≤ length s.now) × (in_flash (start_of s.now) ≡ false) }
    ensures { fault_or_0 result ≡ guard_field s.now }
{
    field_fault(s, 77, 6, 16)
}

// A RAM block's guard; of a flash block zeros.
pub fn guard_at(s: &[u8]) -> Guard
    requires { (field_fault s.now 70 4 4 ≡ 0) × (guard_field s.now ≡ 0) }
    ensures { result ≡ guard_at s.now }
{
    if in_flash(start_of(s)) {
        return Guard::default();
    }
    guard_of(&s[80..96])
}
