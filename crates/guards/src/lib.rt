// The guard of a RAM block, as `compile` emits it behind the limit test: two versions compared, and the helper asked where they differ.
#![tactic(auto)]

ghost use Rattle.std.specs.Prelude.{◌≡◌, [], ◌∷◌};
ghost use Rattle.code.specs.Tree.{nowhere};
ghost use Rattle.lowering.specs.Instrs.{ldr_x, cmp_x};
ghost use Rattle.lowering.specs.Fragments.{guard as guard_of};
ghost use Rattle.asm.specs.State.{state, Wrote};
ghost use Rattle.emission.specs.Total.{emitted, after_t};
ghost use Rattle.emission.specs.Gen.{given_of};

use arm::{Access, AddSub, Flags, Shift, Size};
use asm::Asm;
use block::Guard;
use emission::Gen;

const CTX: u32 = 20;

// Byte 40 of the context: its version.
const OFF_VER: u32 = 40;

// The condition equal: a number, as `Asm::b_cond` takes it.
const EQ: u32 = 0;

fn ldr_x(asm: &mut Asm, rt: u32, rn: u32, off: u32)
    ensures { Wrote asm.old (emitted (ldr_x rt rn off ∷ []) (state asm.old)) asm.new }
{
    emission::ins(asm, words::memory_imm(Access::LdrX, off / 8, rn, rt));
}

fn cmp_x(asm: &mut Asm, rn: u32, rm: u32)
    ensures { Wrote asm.old (emitted (cmp_x rn rm ∷ []) (state asm.old)) asm.new }
{
    emission::ins(
        asm,
        words::add_sub_shifted(Size::X, AddSub::Sub, Flags::Sets, Shift::Lsl, rm, 0, rn, 31),
    );
}

// The context's version and the guard's, 64 bits each; where they differ and the helper answers 0, out with pc and nothing done.
pub fn guard(asm: &mut Asm, g: &Gen, guard: Guard, pc: u32)
    ensures { Wrote asm.old (after_t (guard_of (given_of g.now) g.now.rc guard.at guard.h_ram_ok pc) nowhere 0 (state asm.old)) asm.new }
{
    let valid = asm.new_label();
    ldr_x(asm, 9, CTX, OFF_VER);
    asm.ldr_lit_x(1, guard.at);
    ldr_x(asm, 10, 1, 0);
    cmp_x(asm, 9, 10);
    asm.b_cond(EQ, valid);
    emission::mov_x(asm, 0, CTX);
    memops::call_helper(asm, g, guard.h_ram_ok);
    asm.cbnz(0, valid);
    jumps::exit_imm(asm, g, pc, 0);
    asm.bind(valid);
}
