// Loads and stores of guest memory (`load` and `store` of `Gen`): inside a region directly, elsewhere by a helper.
#![tactic(auto)]

ghost use Rattle.std.specs.Prelude.{◌≡◌, [], ◌∷◌};
ghost use Rattle.code.specs.Tree.{inner, outer, inside, nowhere};
ghost use Rattle.lowering.specs.Instrs.{sub as sub_of, indexed as indexed_of};
ghost use Rattle.lowering.specs.Fragments.{try_region, align_test, map_test, call, load as load_of, store as store_of};
ghost use Rattle.asm.specs.State.{state, Wrote};
ghost use Rattle.emission.specs.Total.{emitted, after_t};
ghost use Rattle.emission.specs.Emits.{Codes};
ghost use Rattle.emission.specs.Gen.{given_of};
ghost use Rattle.memops.specs.Pieces.{ram_store, by_read, by_write};

use arm::{Access, AddSub, Extract, Flags, Jump, Scale, Shift, Size};
use asm::{Asm, Label};
use block::{Memory, Width};
use emission::Gen;

// A region of guest memory, and the host register that holds where it is.
#[derive(Clone, Copy)]
struct Region {
    reg: u32,
    base: u32,
    len: u32,
}

fn sub(asm: &mut Asm, rd: u32, rn: u32, rm: u32)
    ensures { Wrote asm.old (emitted (sub_of rd rn rm ∷ []) (state asm.old)) asm.new }
{
    emission::ins(
        asm,
        words::add_sub_shifted(
            Size::W,
            AddSub::Sub,
            Flags::Keeps,
            Shift::Lsl,
            rm,
            0,
            rn,
            rd,
        ),
    );
}

// An access at `[x(rn), w(rm), uxtw]`.
fn indexed(asm: &mut Asm, access: Access, rt: u32, rn: u32, rm: u32)
    ensures { Wrote asm.old (emitted (indexed_of access rt rn rm ∷ []) (state asm.old)) asm.new }
{
    emission::ins(asm, words::memory_reg(access, Scale::Unscaled, rm, rn, rt));
}

// One region: w3 = address - base; the bytes must lie inside, or it goes to the miss.
fn try_region(asm: &mut Asm, region: Region, w: Width, signed: bool, miss: Label, done: Label)
    ensures { Codes (inside miss.0 (inside done.0 nowhere)) asm.old (try_region region.reg region.base region.len w signed inner (outer inner)) asm.new }
{
    moves::mov32(asm, 2, region.base);
    sub(asm, 3, 0, 2);
    moves::even(asm, w);
    moves::mov32(asm, 2, moves::room(region.len, moves::bytes(w)));
    emission::cmp(asm, 3, 2);
    asm.b_cond(8, miss);
    indexed(asm, moves::loads(w, signed), 0, region.reg, 3);
    asm.b(done);
}

// A helper call, with the guest registers in memory.
pub fn call_helper(asm: &mut Asm, g: &Gen, f: u64)
    ensures { Wrote asm.old (after_t (call (given_of g.now) g.now.rc f) nowhere 0 (state asm.old)) asm.new }
{
    emission::flush(asm, g);
    asm.ldr_lit_x(9, f);
    emission::ins(asm, words::branch_reg(Jump::Blr, 9));
    emission::reload(asm, g);
}

// The read helper: of the address, the operation's number and the bytes.
fn read(asm: &mut Asm, g: &Gen, w: Width, signed: bool, i: u32)
    ensures { Wrote asm.old (after_t (by_read (given_of g.now) g.now.rc g.now.addr.h_read w signed i) nowhere 0 (state asm.old)) asm.new }
{
    emission::mov(asm, 1, 0);
    emission::mov_x(asm, 0, 20);
    emission::add_imm(asm, 2, 26, i);
    moves::mov32(asm, 3, moves::bytes(w));
    call_helper(asm, g, g.addr.h_read);
    moves::extended(asm, w, signed);
}

// w0 = what is at guest address w0: in RAM, in flash, or by the read helper.
pub fn load(asm: &mut Asm, g: &Gen, w: Width, signed: bool, i: u32)
    ensures { Wrote asm.old (after_t (load_of (given_of g.now) g.now.rc w signed i) nowhere 0 (state asm.old)) asm.new }
{
    let done = asm.new_label();
    let slow = asm.new_label();
    let xip = asm.new_label();
    let ram = Region {
        reg: 21,
        base: g.mem.ram_base,
        len: g.mem.ram_len,
    };
    let flash = Region {
        reg: 22,
        base: g.mem.xip_base,
        len: g.mem.xip_len,
    };
    try_region(asm, ram, w, signed, xip, done);
    asm.bind(xip);
    try_region(asm, flash, w, signed, slow, done);
    asm.bind(slow);
    read(asm, g, w, signed, i);
    asm.bind(done);
}

// Where words are tested, one that is on no multiple of 4 goes to the write helper: address bit 0, then bit 1.
fn word_tests(asm: &mut Asm, tested: bool, slow: Label)
    ensures { Wrote asm.old (after_t (align_test tested Width.Word) (inside slow.0 nowhere) 0 (state asm.old)) asm.new }
{
    if tested {
        asm.tbnz(0, 0, slow);
        asm.tbnz(0, 1, slow);
    }
}

// An odd halfword goes to the write helper, and a word as `word_tests` says.
fn align_test(asm: &mut Asm, tested: bool, w: Width, slow: Label)
    ensures { Wrote asm.old (after_t (align_test tested w) (inside slow.0 nowhere) 0 (state asm.old)) asm.new }
{
    match w {
        Width::Byte => {}
        Width::Half => asm.tbnz(0, 0, slow),
        Width::Word => word_tests(asm, tested, slow),
    }
}

// A nonzero byte of the code map for the group of the store's first byte: the write helper.
fn map_test(asm: &mut Asm, map: bool, slow: Label)
    ensures { Wrote asm.old (after_t (map_test map) (inside slow.0 nowhere) 0 (state asm.old)) asm.new }
{
    if map {
        emission::ins(asm, words::bitfield(Size::W, Extract::Ubfm, 2, 31, 3, 2));
        indexed(asm, Access::Ldrb, 2, 25, 2);
        asm.cbnz(2, slow);
    }
}

// Inside RAM, past its tests, and no code there: the store itself. With a code map the words stored alone are tested (2026-04).
fn store_ram(asm: &mut Asm, mem: Memory, w: Width, alone: bool, slow: Label, done: Label)
    ensures { Wrote asm.old (after_t (ram_store mem w alone) (inside slow.0 (inside done.0 nowhere)) 0 (state asm.old)) asm.new }
{
    align_test(asm, alone & mem.map, w, slow);
    moves::mov32(asm, 2, mem.ram_base);
    sub(asm, 3, 0, 2);
    moves::mov32(asm, 2, moves::room(mem.ram_len, moves::bytes(w)));
    emission::cmp(asm, 3, 2);
    asm.b_cond(8, slow);
    map_test(asm, mem.map, slow);
    indexed(asm, moves::stores(w), 1, 21, 3);
    asm.b(done);
}

// The write helper: of the address, the value, the operation's number and the bytes.
fn write(asm: &mut Asm, g: &Gen, w: Width, i: u32)
    ensures { Wrote asm.old (after_t (by_write (given_of g.now) g.now.rc g.now.addr.h_write w i) nowhere 0 (state asm.old)) asm.new }
{
    emission::mov(asm, 2, 1);
    emission::mov(asm, 1, 0);
    emission::mov_x(asm, 0, 20);
    emission::add_imm(asm, 3, 26, i);
    moves::mov32(asm, 4, moves::bytes(w));
    call_helper(asm, g, g.addr.h_write);
}

// w1 to guest address w0: in RAM, or by the write helper.
pub fn store(asm: &mut Asm, g: &Gen, w: Width, alone: bool, i: u32)
    ensures { Wrote asm.old (after_t (store_of (given_of g.now) g.now.rc w alone i) nowhere 0 (state asm.old)) asm.new }
{
    let done = asm.new_label();
    let slow = asm.new_label();
    store_ram(asm, g.mem, w, alone, slow, done);
    asm.bind(slow);
    write(asm, g, w, i);
    asm.bind(done);
}
