// The assembler: words into a lent slice, labels, fix-ups and literals into a lent table, and four counts.
// What does not fit is counted and not stored; `finish` tells of it.
#![tactic(auto)]

ghost use Rattle.std.specs.Prelude.{◌≡◌, ◌==◌, position, ◌+◌, ◌*◌, ◌%◌, ◌<◌, ◌≤◌, set};
ghost use Rattle.arm.specs.declared.Size.TheVariants.{W};
ghost use Rattle.arm.specs.declared.Test.TheVariants.{Zero, Nonzero};
ghost use Rattle.code.specs.Items.{b as b_hole, b_cond, cb, tb, adr as adr_hole, ldr, label as to_label, literal, go, new as new_item, bind as bind_item, index};
ghost use Rattle.code.specs.Calls.{bumped};
ghost use Rattle.asm.specs.State.{literal_room, state, at_most, label_of, labelled, literals_from, word, fixed, keep_at, put as put_item};
ghost use Rattle.asm.specs.State.{begin, Wrote};
ghost use Rattle.asm.specs.State.{fix_no, fix_of, ref_no, ref_of, packed, fixup};

use code::Fix;

// The table: the positions of so many labels, so many literals, so many fix-ups. Sized for 32 operations that move
// groups of registers, each word with its tests of the regions, and a guard.
pub const LABELS: u32 = 2048;

pub const LITERALS: u32 = 8;

pub const FIXUPS: u32 = 4096;

pub const LITERALS_AT: usize = 2048;

pub const FIXUPS_AT: usize = 2056;

// One array, whose length the functions for C name.
pub const TABLE: usize = 6152;

// A label's number is never a word's position.
#[derive(Clone, Copy)]
pub struct Label(pub u32);

// Where the distance of a word leads: to a label, in this field, or to an entry of the literal pool.
#[derive(Clone, Copy)]
pub enum Reference {
    ToLabel(Label, Fix),
    ToPool(u32),
}

// How many words, labels, fix-ups and literals there are.
#[derive(Clone, Copy)]
pub struct Counts {
    pub at: u32,
    pub labels: u32,
    pub fixups: u32,
    pub literals: u32,
}

// The lent words, the lent table, and how much of them is used.
#[derive(Drop)]
pub struct Asm<'a> {
    pub words: &'a mut [u32],
    pub table: &'a mut [u64; TABLE],
    pub counts: Counts,
}

fn bump(n: u32) -> u32
    ensures { result ≡ bumped n }
{
    if n < 1048576 { n + 1 } else { n }
}

pub fn at_most(m: u32, n: u32) -> u32
    ensures { (result ≡ at_most m n) × (result ≤ m) }
{
    m.min(n)
}

// A word at a place, where there is room.
pub fn store(words: &mut [u32], at: u32, w: u32)
    ensures { words.new ≡ set words.old at w }
{
    let i = at as usize;
    if i < words.len() {
        words[i] = w;
    }
}

fn put_label(table: &mut [u64; TABLE], l: Label, at: u32)
    ensures { table.new ≡ labelled l.0 at table.old }
{
    let n = l.0;
    if n < LABELS {
        table[n as usize] = at as u64;
    }
}

// The number of a field in a cell.
fn fix_number(f: Fix) -> u32
    ensures { (result ≡ fix_no f) × (result < 4) }
{
    f as u32
}

// The low half of a fix-up's cell. A function, not `From`: of a number it keeps 29 bits, and `ref_of` reads any number.
fn ref_number(to: Reference) -> u32
    ensures { result ≡ ref_no to }
{
    match to {
        Reference::ToLabel(l, f) => l.0 % 536870912 * 8 + fix_number(f),
        Reference::ToPool(i) => i % 536870912 * 8 + 4,
    }
}

// The field of such a number, and of any other.
fn fix_of(kind: u32) -> Fix
    ensures { result ≡ fix_of kind }
{
    match kind {
        0 => Fix::B26,
        2 => Fix::B14,
        3 => Fix::Adr21,
        _ => Fix::B19,
    }
}

// The reference that the low half of a cell holds, whatever it is.
pub fn ref_of(n: u32) -> Reference
    ensures { result ≡ ref_of n }
{
    if n % 8 == 4 {
        return Reference::ToPool(n / 8);
    }
    Reference::ToLabel(Label(n / 8), fix_of(n % 8))
}

fn put_fixup(table: &mut [u64; TABLE], n: u32, at: u32, to: Reference)
    ensures { table.new ≡ fixup n (packed at to) table.old }
{
    if n < FIXUPS {
        table[FIXUPS_AT + (n as usize)] = (at as u64) * 4294967296 + (ref_number(to) as u64);
    }
}

// The first place of a value.
fn place(values: &[u64], value: u64) -> Option<usize>
    ensures { result ≡ position (λ x. value == x) values.now }
{
    values.iter().position(|x| value == *x)
}

// The number of a value among the first k literals, k where it is none of them.
fn find(table: &[u64; TABLE], k: u32, value: u64) -> u32
    requires { k ≤ literal_room }
    ensures { result ≡ index value (literals_from 0 k table.now) }
{
    match place(&table[LITERALS_AT..LITERALS_AT + (k as usize)], value) {
        Some(i) => i as u32,
        None => k,
    }
}

impl<'a> Asm<'a> {
    // Nothing emitted.
    pub fn new(words: &'a mut [u32], table: &'a mut [u64; TABLE]) -> Asm<'a>
        ensures words { result.words ≡ words.entry }
        ensures table { result.table ≡ table.entry }
        ensures counts { result.counts ≡ begin }
    {
        Asm {
            words,
            table,
            counts: Counts {
                at: 0,
                labels: 0,
                fixups: 0,
                literals: 0,
            },
        }
    }

    // One word.
    pub fn emit(&mut self, w: u32)
        ensures { Wrote self.old (word w (state self.old)) self.new }
    {
        store(self.words, self.counts.at, w);
        self.counts.at = bump(self.counts.at);
    }

    // A label that is bound nowhere yet.
    pub fn new_label(&mut self) -> Label
        ensures label { result ≡ label_of self.old.counts.labels }
        ensures wrote { Wrote self.old (put_item new_item (state self.old)) self.new }
    {
        let n = self.counts.labels;
        self.counts.labels = bump(n);
        Label(n)
    }

    // The label stands here.
    pub fn bind(&mut self, l: Label)
        ensures { Wrote self.old (put_item (bind_item l.0) (state self.old)) self.new }
    {
        put_label(self.table, l, self.counts.at);
    }

    // A word whose distance is patched at the end.
    fn fix(&mut self, to: Reference, w: u32)
        ensures { Wrote self.old (fixed to w (state self.old)) self.new }
    {
        put_fixup(self.table, self.counts.fixups, self.counts.at, to);
        store(self.words, self.counts.at, w);
        self.counts.at = bump(self.counts.at);
        self.counts.fixups = bump(self.counts.fixups);
    }

    pub fn b(&mut self, l: Label)
        ensures { Wrote self.old (put_item (go b_hole (to_label l.0)) (state self.old)) self.new }
    {
        self.fix(Reference::ToLabel(l, Fix::B26), 0x1400_0000);
    }

    // A register is a number below 32, as in the Rust and for the encoders of `words`: a type of its own would be made at each call, and
    // turned back in the word.
    pub fn b_cond(&mut self, cond: u32, l: Label)
        requires { cond < 16 }
        ensures { Wrote self.old (put_item (go (b_cond cond) (to_label l.0)) (state self.old)) self.new }
    {
        self.fix(Reference::ToLabel(l, Fix::B19), 0x5400_0000 + cond);
    }

    // The two below and the two behind them keep the names of the Rust: each is one call of `fix`, and a parameter for the test would only
    // be turned back into the word's bit.
    pub fn cbz(&mut self, rt: u32, l: Label)
        requires { rt < 32 }
        ensures { Wrote self.old (put_item (go (cb W Zero rt) (to_label l.0)) (state self.old)) self.new }
    {
        self.fix(Reference::ToLabel(l, Fix::B19), 0x3400_0000 + rt);
    }

    pub fn cbnz(&mut self, rt: u32, l: Label)
        requires { rt < 32 }
        ensures { Wrote self.old (put_item (go (cb W Nonzero rt) (to_label l.0)) (state self.old)) self.new }
    {
        self.fix(Reference::ToLabel(l, Fix::B19), 0x3500_0000 + rt);
    }

    pub fn tbz(&mut self, rt: u32, bit: u32, l: Label)
        requires { (rt < 32) × (bit < 64) }
        ensures { Wrote self.old (put_item (go (tb Zero bit rt) (to_label l.0)) (state self.old)) self.new }
    {
        self.fix(
            Reference::ToLabel(l, Fix::B14),
            0x3600_0000 + bit / 32 * 0x8000_0000 + bit % 32 * 0x8_0000 + rt,
        );
    }

    pub fn tbnz(&mut self, rt: u32, bit: u32, l: Label)
        requires { (rt < 32) × (bit < 64) }
        ensures { Wrote self.old (put_item (go (tb Nonzero bit rt) (to_label l.0)) (state self.old)) self.new }
    {
        self.fix(
            Reference::ToLabel(l, Fix::B14),
            0x3700_0000 + bit / 32 * 0x8000_0000 + bit % 32 * 0x8_0000 + rt,
        );
    }

    pub fn adr(&mut self, rd: u32, l: Label)
        requires { rd < 32 }
        ensures { Wrote self.old (put_item (go (adr_hole rd) (to_label l.0)) (state self.old)) self.new }
    {
        self.fix(Reference::ToLabel(l, Fix::Adr21), 0x1000_0000 + rd);
    }

    // Equal literals share an entry; entries stand in order of first use. Number i is the literal's if it is below the count.
    fn keep_literal(&mut self, i: u32, value: u64)
        ensures { Wrote self.old (keep_at i value (state self.old)) self.new }
    {
        let k = at_most(LITERALS, self.counts.literals);
        if i < k {
            return;
        }
        if k < LITERALS {
            self.table[LITERALS_AT + (k as usize)] = value;
            self.counts.literals = k + 1;
        }
    }

    pub fn ldr_lit_x(&mut self, rt: u32, value: u64)
        requires { rt < 32 }
        ensures { Wrote self.old (put_item (go (ldr rt) (literal value)) (state self.old)) self.new }
    {
        let i = find(self.table, at_most(LITERALS, self.counts.literals), value);
        self.keep_literal(i, value);
        self.fix(Reference::ToPool(i), 0x5800_0000 + rt);
    }
}
