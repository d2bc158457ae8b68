// Emitting: instructions through their words, guest registers through the cache, and the cache's flush and reload.
#![tactic(auto)]

ghost use Rattle.std.specs.Prelude.{◌≡◌, true, false, List, [], ◌∷◌, ℕ, ◌+◌, ◌<◌, ◌≤◌};
ghost use Rattle.arm.specs.declared.Instr.{Instr};
ghost use Rattle.arm.specs.declared.Instr.TheVariants.{LogicalShifted};
ghost use Rattle.lowering.specs.Instrs.{ZR, mov as mov_of, mov_x, add_i, cmp as cmp_of};
ghost use Rattle.lowering.specs.Cache.{flush as flush_of, reload as reload_of, slot_for, seated, stored, ld_reg, st_reg};
ghost use Rattle.words.specs.Answers.{answer, word_of};
ghost use Rattle.cache.specs.Lookup.{spilled};
ghost use Rattle.asm.specs.State.{state, Wrote};
ghost use Rattle.emission.specs.Total.{emitted, at_place as moved_at_place, seating};
ghost use Rattle.emission.specs.Gen.{with_cache};

use arm::{Access, AddSub, Flags, Logic, Second, Shift, Size};
use asm::Asm;
use block::{Addresses, Layout, Memory};
use cache::Spill;
use lowering::{RegCache, Site};

// The chain sites of a block, at most two, by rising word position. No ArrayVec: what holds one cannot be copied.
#[derive(Clone, Copy)]
pub enum Sites {
    None,
    One(Site),
    Two(Site, Site),
}

// What the methods of `Gen` are given of a block, its register cache, and its chain sites so far. The assembler is passed beside it:
// a struct around one would no longer say what the lent words end as. So the methods are functions of both.
#[derive(Clone, Copy)]
pub struct Gen {
    pub lay: Layout,
    pub mem: Memory,
    pub addr: Addresses,
    pub rc: RegCache,
    pub sites: Sites,
}

// One instruction by its word, which is 0 for one that no word carries.
pub fn ins(asm: &mut Asm, w: u32)
    ensures { (i : Instr) → w ≡ word_of (answer i) → Wrote asm.old (emitted (i ∷ []) (state asm.old)) asm.new }
{
    asm.emit(w);
}

// A register's move, of 32 bits or of 64.
fn mov_of_size(asm: &mut Asm, size: Size, rd: u32, rm: u32)
    ensures { Wrote asm.old (emitted (LogicalShifted size Logic.Orr Second.Plain Shift.Lsl rm 0 ZR rd ∷ []) (state asm.old)) asm.new }
{
    ins(
        asm,
        words::logical_shifted(size, Logic::Orr, Second::Plain, Shift::Lsl, rm, 0, 31, rd),
    );
}

// By the names of the Rust.
pub fn mov(asm: &mut Asm, rd: u32, rm: u32)
    ensures { Wrote asm.old (emitted (mov_of rd rm ∷ []) (state asm.old)) asm.new }
{
    mov_of_size(asm, Size::W, rd, rm);
}

pub fn mov_x(asm: &mut Asm, rd: u32, rm: u32)
    ensures { Wrote asm.old (emitted (mov_x rd rm ∷ []) (state asm.old)) asm.new }
{
    mov_of_size(asm, Size::X, rd, rm);
}

pub fn add_imm(asm: &mut Asm, rd: u32, rn: u32, imm: u32)
    ensures { Wrote asm.old (emitted (add_i rd rn imm ∷ []) (state asm.old)) asm.new }
{
    ins(
        asm,
        words::add_sub_imm(Size::W, AddSub::Add, Flags::Keeps, imm, rn, rd),
    );
}

pub fn cmp(asm: &mut Asm, rn: u32, rm: u32)
    ensures { Wrote asm.old (emitted (cmp_of rn rm ∷ []) (state asm.old)) asm.new }
{
    ins(
        asm,
        words::add_sub_shifted(Size::W, AddSub::Sub, Flags::Sets, Shift::Lsl, rm, 0, rn, 31),
    );
}

// Host register h at the place of guest register r, if it is one: stored there, or loaded.
fn at_place(asm: &mut Asm, access: Access, lay: Layout, h: u32, r: u8)
    ensures { Wrote asm.old (emitted (moved_at_place access lay h r) (state asm.old)) asm.new }
{
    if r != 16 {
        ins(
            asm,
            words::memory_imm(access, cache::off_reg(lay, r), 19, h),
        );
    }
}

// The changed registers are stored, in pool order. The marks stay.
pub fn flush(asm: &mut Asm, g: &Gen)
    ensures { Wrote asm.old (emitted (flush_of g.now.lay g.now.rc) (state asm.old)) asm.new }
{
    let guest: &[u8] = &g.rc.guest;
    for (i, dirty) in g.rc.dirty.iter().enumerate() {
        if *dirty {
            at_place(asm, Access::StrW, g.lay, cache::host(i), guest[i]);
        }
    }
}

// The held registers are loaded again, in pool order.
pub fn reload(asm: &mut Asm, g: &Gen)
    ensures { Wrote asm.old (emitted (reload_of g.now.lay g.now.rc) (state asm.old)) asm.new }
{
    for (i, r) in g.rc.guest.iter().enumerate() {
        at_place(asm, Access::LdrW, g.lay, cache::host(i), *r);
    }
}

// What a slot's new holder puts out.
fn spill(asm: &mut Asm, s: Option<Spill>)
    ensures { Wrote asm.old (emitted (spilled s) (state asm.old)) asm.new }
{
    if let Some(s) = s {
        ins(asm, cache::str(s.h, s.at));
    }
}

// The slot of guest register r, used once more; where r has none yet, it gets one, and its value if that is asked for.
fn seat(asm: &mut Asm, g: &mut Gen, r: u8, load: bool) -> usize
    ensures slot { result ≡ slot_for g.old.rc r }
    ensures small { result < 8 }
    ensures wrote { Wrote asm.old (emitted (seating g.old.lay g.old.rc r load) (state asm.old)) asm.new }
    ensures cache { g.new ≡ with_cache g.old (seated g.old.rc r) }
{
    if let Some(i) = cache::slot(&g.rc, r) {
        cache::touch(&mut g.rc, i);
        return i;
    }
    let (i, spilled) = cache::take_slot(g.lay, &g.rc);
    spill(asm, spilled);
    if load {
        ins(asm, cache::ldr(cache::host(i), cache::off_reg(g.lay, r)));
    }
    cache::assign(&mut g.rc, i, r);
    i
}

// w(t) = guest register r
pub fn ld_reg(asm: &mut Asm, g: &mut Gen, t: u32, r: u8)
    ensures wrote { Wrote asm.old (emitted (ld_reg g.old.lay g.old.rc t r) (state asm.old)) asm.new }
    ensures cache { g.new ≡ with_cache g.old (seated g.old.rc r) }
{
    let i = seat(asm, g, r, true);
    mov(asm, t, cache::host(i));
}

// guest register r = w(t)
pub fn st_reg(asm: &mut Asm, g: &mut Gen, t: u32, r: u8)
    ensures wrote { Wrote asm.old (emitted (st_reg g.old.lay g.old.rc t r) (state asm.old)) asm.new }
    ensures cache { g.new ≡ with_cache g.old (stored g.old.rc r) }
{
    let i = seat(asm, g, r, false);
    mov(asm, cache::host(i), t);
    cache::mark(&mut g.rc, i);
}
