// The register cache of a block (RegCache in the Rust): eight host registers that hold guest registers. Functions, and not methods, since
// the type is lowering's: its definitions speak of it. A slot that is free holds 16 (`FREE` there), and not None.
#![tactic(auto)]

ghost use Rattle.std.specs.Prelude.{◌≡◌, ◌/◌, ◌<◌, position, nat_eq};
ghost use Rattle.arm.specs.declared.Instr.TheVariants.{MemoryImm};
ghost use Rattle.lowering.specs.Cache.{host as host_of, off_reg, oldest as oldest_of};
ghost use Rattle.lowering.specs.Cache.{latest as latest_of, touch as touched, assign as assigned, mark as marked};
ghost use Rattle.lowering.specs.Instrs.{CPU};
ghost use Rattle.words.specs.Answers.{answer, word_of};
ghost use Rattle.cache.specs.Lookup.{lookup, Took};

use arm::Access;
use block::Layout;
use lowering::RegCache;

// What giving up a dirty slot costs: a host register is stored, at an offset in words.
#[derive(Clone, Copy)]
pub struct Spill {
    pub h: u32,
    pub at: u32,
}

// The words of a load and of a store in the processor record, at an offset in words: by the names of the instructions, as in the Rust.
pub fn ldr(rt: u32, at: u32) -> u32
    ensures { result ≡ word_of (answer (MemoryImm Access.LdrW at CPU rt)) }
{
    words::memory_imm(Access::LdrW, at, 19, rt)
}

pub fn str(rt: u32, at: u32) -> u32
    ensures { result ≡ word_of (answer (MemoryImm Access.StrW at CPU rt)) }
{
    words::memory_imm(Access::StrW, at, 19, rt)
}

// The pool is w5 to w8 and w14 to w17. A slot is a number below 8, and no type of its own: flush and reload count through all eight.
pub fn host(i: usize) -> u32
    requires { i < 8 }
    ensures { result ≡ host_of i }
{
    let n = i as u32;
    if n < 4 { n + 5 } else { n + 10 }
}

// The first slot that holds it.
fn first(guest: &[u8; 8], r: u8) -> Option<usize>
    ensures { result ≡ position (λ g. nat_eq g r) guest.now }
{
    guest.iter().position(|g| *g == r)
}

// The slot that holds guest register r; of 16, the first free one.
pub fn slot(rc: &RegCache, r: u8) -> Option<usize>
    ensures { result ≡ lookup rc.now r }
{
    first(&rc.guest, r)
}

// The least recently used.
pub fn oldest(rc: &RegCache) -> usize
    ensures { (result ≡ oldest_of rc.now) × (result < 8) }
{
    (rc.order[0] % 8) as usize
}

// Slot i behind the others, which stay in their order.
fn latest(order: &mut [u8; 8], i: u8)
    ensures { order.new ≡ latest_of i order.old }
{
    let mut met = false;
    for k in 0..7 {
        met = met | (order[k] == i);
        if met {
            order[k] = order[k + 1];
        }
    }
    if met {
        order[7] = i;
    }
}

// One use more, of slot i.
pub fn touch(rc: &mut RegCache, i: usize)
    requires { i < 8 }
    ensures { rc.new ≡ touched i rc.old }
{
    latest(&mut rc.order, i as u8);
}

// Slot i holds guest register r, unchanged.
pub fn assign(rc: &mut RegCache, i: usize, r: u8)
    requires { i < 8 }
    ensures { rc.new ≡ assigned i r rc.old }
{
    touch(rc, i);
    rc.guest[i] = r;
    rc.dirty[i] = false;
}

// Memory is behind slot i.
pub fn mark(rc: &mut RegCache, i: usize)
    requires { i < 8 }
    ensures { rc.new ≡ marked i rc.old }
{
    rc.dirty[i] = true;
}

// Where guest register r is in the processor record, in words.
pub fn off_reg(lay: Layout, r: u8) -> u32
    ensures { result ≡ off_reg lay r / 4 }
{
    lay.regs / 4 + (r as u32)
}

// A free slot, else the least recently used, which is stored first if it is dirty.
pub fn take_slot(lay: Layout, rc: &RegCache) -> (usize, Option<Spill>)
    ensures { Took lay rc.now result }
{
    if let Some(i) = slot(rc, 16) {
        return (i, None);
    }
    let i = oldest(rc);
    if rc.dirty[i] {
        return (
            i,
            Some(Spill {
                h: host(i),
                at: off_reg(lay, rc.guest[i]),
            }),
        );
    }
    (i, None)
}
