// The methods of `Gen` that emit jumps, and the words that open and close a block.
#![tactic(auto)]

ghost use Rattle.std.specs.Prelude.{◌≡◌, List, [], ◌∷◌, ℕ, ◌<◌};
ghost use Rattle.arm.specs.declared.Instr.{Instr};
ghost use Rattle.code.specs.Tree.{Depth, Var, inside, nowhere};
ghost use Rattle.lowering.specs.Instrs.{str as str_of, ldr as ldr_of, frame as frame_of};
ghost use Rattle.lowering.specs.Fragments.{brk_first, hold as hold_of, exit_imm, chain as chain_of, ind as ind_of, check_brk, fork as fork_of};
ghost use Rattle.lowering.specs.Fragments.{limit as limit_of, opening as opening_of, closing as closing_of};
ghost use Rattle.words.specs.Answers.{answer, word_of};
ghost use Rattle.asm.specs.State.{state, Wrote};
ghost use Rattle.emission.specs.Total.{emitted, after_t, starts_t};
ghost use Rattle.emission.specs.Emits.{Codes};
ghost use Rattle.emission.specs.Gen.{given_of};
ghost use Rattle.jumps.specs.Parts.{leave as leave_of, back as back_of, lookup as lookup_of, saves as saves_of};
ghost use Rattle.jumps.specs.Parts.{arguments as arguments_of};

use arm::{Access, AddSub, Extract, Flags, Jump, Mode, Move, Pair, Shift, Size};
use asm::{Asm, Label};
use emission::Gen;

// The register plan.
const CPU: u32 = 19;

const CTX: u32 = 20;

const RAM: u32 = 21;

const XIP: u32 = 22;

const KEEP: u32 = 23;

const KEEP2: u32 = 24;

const FLAGS: u32 = 25;

const DONE: u32 = 26;

const LIMIT: u32 = 27;

const SP: u32 = 31;

// The label of the common exit: the first that a block gives out.
pub const EXIT: Label = Label(0);

// Bytes of the context: the break word, the slot of the last exit.
const OFF_BRK: u32 = 24;

const OFF_SLOT: u32 = 32;

// Conditions: not equal, and unsigned at most. They stay numbers: `fork` promises its code for each below 16, and so does `Asm::b_cond`.
const NE: u32 = 1;

const LS: u32 = 9;

// Where the branches of two chain sites stand, that of the address behind first.
#[derive(Clone, Copy)]
pub struct Forked {
    pub at: u32,
    pub target_at: u32,
}

// By the names of the instructions, as in the Rust.
fn ldr(asm: &mut Asm, rt: u32, rn: u32, off: u32)
    ensures { Wrote asm.old (emitted (ldr_of rt rn off ∷ []) (state asm.old)) asm.new }
{
    emission::ins(asm, words::memory_imm(Access::LdrW, off / 4, rn, rt));
}

fn str(asm: &mut Asm, rt: u32, rn: u32, off: u32)
    ensures { Wrote asm.old (emitted (str_of rt rn off ∷ []) (state asm.old)) asm.new }
{
    emission::ins(asm, words::memory_imm(Access::StrW, off / 4, rn, rt));
}

// Two registers at sp, in units of eight bytes.
fn pair(asm: &mut Asm, mode: Mode, pair: Pair, imm: u32, rt: u32, rt2: u32)
    ensures { Wrote asm.old (emitted (frame_of mode pair imm rt rt2 ∷ []) (state asm.old)) asm.new }
{
    emission::ins(asm, words::memory_pair(mode, pair, imm, rt2, SP, rt));
}

// A store, by its word, and out with the count of operations done.
fn leave(asm: &mut Asm, store: u32)
    ensures { (n : Depth) (e : Var n → ℕ) (i : Instr) → store ≡ word_of (answer i) → Codes e asm.old (leave_of i) asm.new }
{
    emission::ins(asm, store);
    emission::mov(asm, 0, DONE);
    asm.b(EXIT);
}

// Leave with pc, so many operations of this block done.
pub fn exit_imm(asm: &mut Asm, g: &Gen, pc: u32, count: u32)
    ensures { (n : Depth) (e : Var n → ℕ) → Codes e asm.old (exit_imm (given_of g.now) g.now.rc pc count) asm.new }
{
    emission::flush(asm, g);
    moves::mov32(asm, 9, pc);
    str(asm, 9, CPU, g.lay.pc);
    emission::add_imm(asm, 0, DONE, count);
    asm.b(EXIT);
}

// A site's branch, to the word behind it until `link` patches it, and pc.
fn back(asm: &mut Asm, off: u32, pc: u32)
    ensures { (n : Depth) (e : Var n → ℕ) → Wrote asm.old (after_t (back_of off pc) e 0 (state asm.old)) asm.new }
{
    let back = asm.new_label();
    asm.b(back);
    asm.bind(back);
    moves::mov32(asm, 9, pc);
    str(asm, 9, CPU, off);
}

// Go on at a fixed pc, so many operations of this block done. The answer is where the site's branch stands.
pub fn chain(asm: &mut Asm, g: &Gen, pc: u32, count: u32) -> u32
    ensures wrote { (n : Depth) (e : Var n → ℕ) → Wrote asm.old (after_t (chain_of (given_of g.now) g.now.rc pc count) e 0 (state asm.old)) asm.new }
    ensures site { (n : Depth) (e : Var n → ℕ) → (result ∷ []) ≡ starts_t (chain_of (given_of g.now) g.now.rc pc count) e 0 (state asm.old) }
{
    emission::flush(asm, g);
    emission::add_imm(asm, DONE, DONE, count);
    let at = asm.counts.at;
    let site = asm.new_label();
    asm.bind(site);
    back(asm, g.lay.pc, pc);
    asm.adr(10, site);
    leave(asm, words::memory_imm(Access::StrX, OFF_SLOT / 8, CTX, 10));
    at
}

// Go on at target if the condition holds, else at pc.
pub fn fork(asm: &mut Asm, g: &Gen, cond: u32, pc: u32, target: u32, count: u32) -> Forked
    requires { cond < 16 }
    ensures wrote { Wrote asm.old (after_t (fork_of (given_of g.now) g.now.rc cond pc target count) nowhere 0 (state asm.old)) asm.new }
    ensures sites { (result.at ∷ result.target_at ∷ []) ≡ starts_t (fork_of (given_of g.now) g.now.rc cond pc target count) nowhere 0 (state asm.old) }
{
    let taken = asm.new_label();
    asm.b_cond(cond, taken);
    let at = chain(asm, g, pc, count);
    asm.bind(taken);
    let target_at = chain(asm, g, target, count);
    Forked { at, target_at }
}

// First leave if the break word is set.
fn brk_first(asm: &mut Asm, brk: bool, back: Label)
    ensures { (n : Depth) (e : Var n → ℕ) → Wrote asm.old (after_t (brk_first brk) (inside back.0 e) 0 (state asm.old)) asm.new }
{
    if brk {
        ldr(asm, 9, CTX, OFF_BRK);
        asm.cbnz(9, back);
    }
}

// Into the table's body for pc w12, or back.
fn lookup(asm: &mut Asm, table: u64, back: Label)
    ensures { (n : Depth) (e : Var n → ℕ) → Wrote asm.old (after_t (lookup_of table) (inside back.0 e) 0 (state asm.old)) asm.new }
{
    emission::ins(asm, words::bitfield(Size::W, Extract::Ubfm, 1, 14, 12, 10));
    asm.ldr_lit_x(11, table);
    emission::ins(
        asm,
        words::add_sub_shifted(
            Size::X,
            AddSub::Add,
            Flags::Keeps,
            Shift::Lsl,
            10,
            4,
            11,
            11,
        ),
    );
    ldr(asm, 13, 11, 0);
    emission::cmp(asm, 13, 12);
    asm.b_cond(NE, back);
    emission::ins(asm, words::memory_imm(Access::LdrX, 1, 11, 9));
    emission::ins(asm, words::branch_reg(Jump::Br, 9));
}

// Go on at pc w(t): into the table's body for it, or back.
pub fn ind(asm: &mut Asm, g: &Gen, t: u32, count: u32, brk: bool)
    ensures { Wrote asm.old (after_t (ind_of (given_of g.now) g.now.rc t count brk) nowhere 0 (state asm.old)) asm.new }
{
    emission::flush(asm, g);
    emission::mov(asm, 12, t);
    emission::add_imm(asm, DONE, DONE, count);
    let back = asm.new_label();
    brk_first(asm, brk, back);
    lookup(asm, g.addr.table, back);
    asm.bind(back);
    leave(asm, words::memory_imm(Access::StrW, g.lay.pc / 4, CPU, 12));
}

// The hold mark, between the two operations of a glued pair.
fn hold(asm: &mut Asm, g: &Gen, glue: bool)
    ensures { Wrote asm.old (emitted (hold_of (given_of g.now) g.now.rc glue) (state asm.old)) asm.new }
{
    if glue {
        moves::mov32(asm, 9, 1);
        str(asm, 9, CPU, g.lay.hold);
    }
}

// Leave if the break word is set, with the hold mark within a glued pair.
pub fn check_brk_hold(asm: &mut Asm, g: &Gen, glue: bool, pc: u32, count: u32)
    ensures { Wrote asm.old (after_t (check_brk (given_of g.now) g.now.rc glue pc count) nowhere 0 (state asm.old)) asm.new }
{
    let go = asm.new_label();
    ldr(asm, 9, CTX, OFF_BRK);
    asm.cbz(9, go);
    hold(asm, g, glue);
    exit_imm(asm, g, pc, count);
    asm.bind(go);
}

// The whole block must fit the call's limit, else back before any of it.
pub fn limit(asm: &mut Asm, g: &Gen, pc: u32, count: u32)
    ensures { Wrote asm.old (after_t (limit_of (given_of g.now) g.now.rc pc count) nowhere 0 (state asm.old)) asm.new }
{
    let fits = asm.new_label();
    emission::add_imm(asm, 9, DONE, count);
    emission::cmp(asm, 9, LIMIT);
    asm.b_cond(LS, fits);
    exit_imm(asm, g, pc, 0);
    asm.bind(fits);
}

// The caller's registers are saved.
fn saves(asm: &mut Asm)
    ensures { Wrote asm.old (emitted saves_of (state asm.old)) asm.new }
{
    pair(asm, Mode::Pre, Pair::Stp, 116, 29, 30);
    pair(asm, Mode::Offset, Pair::Stp, 2, CPU, CTX);
    pair(asm, Mode::Offset, Pair::Stp, 4, RAM, XIP);
    pair(asm, Mode::Offset, Pair::Stp, 6, KEEP, KEEP2);
    pair(asm, Mode::Offset, Pair::Stp, 8, 25, DONE);
    pair(asm, Mode::Offset, Pair::Stp, 10, LIMIT, 28);
}

// The arguments go to their registers, and nothing is done yet.
fn arguments(asm: &mut Asm)
    ensures { Wrote asm.old (emitted arguments_of (state asm.old)) asm.new }
{
    emission::mov_x(asm, CPU, 0);
    emission::mov_x(asm, CTX, 1);
    emission::mov_x(asm, RAM, 2);
    emission::mov_x(asm, XIP, 3);
    emission::mov(asm, LIMIT, 4);
    emission::mov_x(asm, FLAGS, 5);
    emission::ins(asm, words::move_wide(Size::W, Move::Movz, 0, 0, DONE));
}

// The opening words; chained blocks enter behind them.
pub fn opening(asm: &mut Asm)
    ensures { Wrote asm.old (emitted opening_of (state asm.old)) asm.new }
{
    saves(asm);
    arguments(asm);
}

// The common exit: the caller's registers again, and back.
pub fn closing(asm: &mut Asm)
    ensures { Wrote asm.old (emitted closing_of (state asm.old)) asm.new }
{
    pair(asm, Mode::Offset, Pair::Ldp, 10, LIMIT, 28);
    pair(asm, Mode::Offset, Pair::Ldp, 8, 25, DONE);
    pair(asm, Mode::Offset, Pair::Ldp, 6, KEEP, KEEP2);
    pair(asm, Mode::Offset, Pair::Ldp, 4, RAM, XIP);
    pair(asm, Mode::Offset, Pair::Ldp, 2, CPU, CTX);
    pair(asm, Mode::Post, Pair::Ldp, 12, 29, 30);
    emission::ins(asm, words::branch_reg(Jump::Ret, 30));
}
