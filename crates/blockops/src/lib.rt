// `emit_ops`: the operations of a block one behind another, a break check behind those that use the bus.
#![tactic(auto, using(stepping::proofs::Steps::steps_append), unfolding(stepping::specs::Done::steps_done, lowering::specs::Steps::op_steps))]

ghost use Rattle.std.specs.Prelude.{◌≡◌, ◌<◌, ◌≤◌, length};
ghost use Rattle.block.specs.Block.{ops_of};
ghost use Rattle.lowering.specs.Steps.{op_steps, ops_steps};
ghost use Rattle.lower.specs.Lowers.{Lowers};

use asm::Asm;
use block::{BOp, Block};
use emission::Gen;

// The operations of a block: the first n, of which no more than 32 stand there.
fn ops(b: &Block) -> &[BOp]
    ensures are { result.now ≡ ops_of b.now }
    ensures few { length result.now ≤ 32 }
{
    let ops: &[BOp] = &b.ops;
    &ops[..ops.len().min(b.n as usize)]
}

// The operation at position i, `next` the guest address behind it, followed by a break check where it uses the bus.
fn lower_op(asm: &mut Asm, g: &mut Gen, o: BOp, i: u32, next: u32)
    requires { i < 32 }
    ensures { Lowers (op_steps o i next) asm.old g.old asm.new g.new }
{
    dispatch::emit_op(asm, g, o.fast, i, next);
    if choices::uses_bus(o.fast) {
        lower::check_brk_hold(asm, g, o.glue, next, i + 1);
    }
}

// The operations in order; off the end of the block goes a chain, behind a jump nothing.
pub fn emit_ops(asm: &mut Asm, g: &mut Gen, b: &Block)
    ensures { Lowers (ops_steps 0 b.now.pc0 (ops_of b.now)) asm.old g.old asm.new g.new }
{
    let ops = ops(b);
    let mut pc = b.pc0;
    for (i, o) in ops.iter().enumerate() {
        let next = pc.wrapping_add(o.len as u32);
        lower_op(asm, g, *o, i as u32, next);
        if choices::may_jump(o.fast) {
            return;
        }
        pc = next;
    }
    lower::chain(asm, g, pc, ops.len() as u32);
}
