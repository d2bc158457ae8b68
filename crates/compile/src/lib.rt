// What `compile` does: the opening words, the limit test, the guard, the operations, the common exit, and the end of the assembly.
#![tactic(auto, using(crate::proofs::Laws::whole_laid), unfolding(stepping::specs::Done::steps_done))]

ghost use Rattle.std.specs.Prelude.{◌≡◌, [], ◌∷◌, ◌≤◌, length};
ghost use Rattle.block.specs.Block.{in_flash};
ghost use Rattle.block.specs.Checked.{Checked};
ghost use Rattle.code.specs.Items.{pick};
ghost use Rattle.code.specs.Walk.{walked_words, OneWalk};
ghost use Rattle.lowering.specs.Cache.{empty_cache};
ghost use Rattle.lowering.specs.Compile.{block_code, block_lines, block_words, starts, targets};
ghost use Rattle.lowering.specs.Steps.{Step as Meant, block_steps};
ghost use Rattle.asm.specs.State.{table_room, begin};
ghost use Rattle.finish.specs.Whole.{laid, told};
ghost use Rattle.lower.specs.Lowers.{ats_of, targets_of, Lowers};
ghost use Rattle.compile.specs.Emitted.{Emits};

use asm::Asm;
use block::{Block, Guard};
use emission::{Gen, Sites};
use finish::Short;
use lowering::RegCache;

#[derive(Clone, Copy)]
pub struct Compiled {
    pub finished: Result<u32, Short>,
    pub sites: Sites,
}

// No guest register is held.
fn empty() -> RegCache
    ensures { result ≡ empty_cache }
{
    RegCache {
        guest: [16; 8],
        dirty: [false; 8],
        order: [0, 1, 2, 3, 4, 5, 6, 7],
    }
}

// The guard of a block at pc: one outside flash's range has it.
fn guarded(asm: &mut Asm, g: &Gen, guard: Guard, pc: u32)
    ensures { Lowers (pick (in_flash pc) [] (Meant.guard guard.at guard.h_ram_ok pc ∷ [])) asm.old g.now asm.new g.now }
{
    if block::in_flash(pc) {
        return;
    }
    lower::guard(asm, g, guard, pc);
}

// Every word of a block, the distances still 0; its chain sites.
fn emit(asm: &mut Asm, b: &Block) -> Sites
    requires { asm.old.counts ≡ begin }
    ensures { Emits b.now asm.old asm.new result }
{
    let mut g = Gen {
        lay: b.layout,
        mem: b.memory,
        addr: b.addresses,
        rc: empty(),
        sites: Sites::None,
    };
    let exit = asm.new_label();
    jumps::opening(asm);
    lower::limit(asm, &g, b.pc0, b.n);
    guarded(asm, &g, b.guard, b.pc0);
    blockops::emit_ops(asm, &mut g, b);
    asm.bind(exit);
    jumps::closing(asm);
    g.sites
}

// What the table's type says, as a fact.
fn sized(table: &[u64; asm::TABLE])
    ensures { length table.now ≡ table_room }
{
    let whole: &[u64] = table;
}

// A block by an assembler that has emitted nothing, the walk over its patches stopped behind the first `upto`.
fn assemble(asm: &mut Asm, b: &Block, upto: u32) -> Compiled
    requires { asm.old.counts ≡ begin }
    ensures walked { Checked b.now → (result.finished ≡ told (block_words b.now) asm.old.words.now) × (asm.new.words.now ≡ laid (walked_words upto (block_lines b.now)) asm.old.words.now) × (ats_of result.sites ≡ starts (block_code b.now) 0) × (targets_of result.sites ≡ targets (block_steps b.now)) }
    ensures one_walk { Checked b.now → length (block_words b.now) ≤ length asm.old.words.now → OneWalk (block_lines b.now) upto asm.old.words.now asm.new.words.now }
    ensures words { asm.new.words.ghost_name ≡ asm.old.words.ghost_name }
    ensures table { asm.new.table.ghost_name ≡ asm.old.table.ghost_name }
{
    sized(asm.table);
    let sites = emit(asm, b);
    let finished = finish::finish(asm.words, asm.table, asm.counts, upto);
    Compiled { finished, sites }
}

// `compile`, with the walk over the patches stopped behind the first `upto`: the words up to the last of these are final, those behind it
// have the distance 0 still; zeros where the block does not fit.
pub fn compile_to(words: &mut [u32], table: &mut [u64; asm::TABLE], b: Block, upto: u32) -> Compiled
    ensures walked { Checked b → (result.finished ≡ told (block_words b) words.old) × (words.new ≡ laid (walked_words upto (block_lines b)) words.old) × (ats_of result.sites ≡ starts (block_code b) 0) × (targets_of result.sites ≡ targets (block_steps b)) }
    ensures one_walk { Checked b → length (block_words b) ≤ length words.old → OneWalk (block_lines b) upto words.old words.new }
{
    let mut asm = Asm::new(words, table);
    assemble(&mut asm, &b, upto)
}

// The words of a checked block in the lent slice, or zeros where they do not fit. The table is working space: what it holds does not matter.
pub fn compile(words: &mut [u32], table: &mut [u64; asm::TABLE], b: Block) -> Compiled
    ensures { Checked b → (result.finished ≡ told (block_words b) words.old) × (words.new ≡ laid (block_words b) words.old) × (ats_of result.sites ≡ starts (block_code b) 0) × (targets_of result.sites ≡ targets (block_steps b)) }
{
    compile_to(words, table, b, asm::FIXUPS)
}
