// The end of an assembly: the literal pool behind the words, then each distance in its field.
#![tactic(auto)]

ghost use Rattle.std.specs.Prelude.{◌≡◌, ◌+◌, ◌*◌, ◌/◌, ◌%◌, ◌^◌, ◌<◌, ◌≤◌, slice_index, slice_set};
ghost use Rattle.std.specs.Int.Signed.{mag};
ghost use Rattle.code.specs.Items.{dist, halves, pad_of, base_of};
ghost use Rattle.asm.specs.State.{literal_room, fixup_room, parts, at_most, literals_from};
ghost use Rattle.finish.specs.Finish.{field_of, patch_in, field_in, label_in, lead_in, patched_at, patched_to};
ghost use Rattle.finish.specs.Finish.{write, zeros, finished, finished_words};
ghost use Rattle.finish.specs.Whole.{count_of};

use asm::{Counts, Label, Reference};
use code::Fix;

// Fewer words are lent than a block takes, which is so many.
#[derive(Clone, Copy)]
pub struct Short(pub u32);

// How many words a block takes, whether as many are lent or not.
pub fn count(finished: Result<u32, Short>) -> u32
    ensures { result ≡ count_of finished }
{
    match finished {
        Ok(n) => n,
        Err(Short(n)) => n,
    }
}

fn low(v: u64) -> u32
    ensures { result ≡ v % 2 ^ 32 }
{
    (v % 4294967296) as u32
}

fn high(v: u64) -> u32
    ensures { result ≡ v / 2 ^ 32 }
{
    (v / 4294967296) as u32
}

// Half of the values of a field of 26, 21, 19 and 14 bits: distances from minus this to one below it reach.
const HALF26: u32 = 33554432;

const HALF21: u32 = 1048576;

const HALF19: u32 = 262144;

const HALF14: u32 = 8192;

// From `here` to `there`, negative behind.
fn distance(there: u64, here: u64) -> i64
    requires { (there < 2 ^ 40) × (here < 2 ^ 40) }
    ensures { (result ≡ dist there here) × (mag result < 2 ^ 40) }
{
    (there as i64) - (here as i64)
}

// A distance of -half to half - 1 in a field of 2 * half values; 0 where it does not reach, which no block asks for.
fn field(half: u32, distance: i64) -> u32
    requires { (half ≤ 2 ^ 25) × (mag distance < 2 ^ 40) }
    ensures { (result ≡ field_of half distance) × (result < 2 ^ 27) }
{
    let h = half as i64;
    let up = distance + h;
    if up < 0 {
        return 0;
    }
    if h <= distance {
        return 0;
    }
    if distance < 0 {
        return (up + h) as u32;
    }
    distance as u32
}

// Where a label stands.
fn label_at(table: &[u64; asm::TABLE], l: Label) -> u64
    ensures { (result ≡ label_in table.now l.0) × (result < 2 ^ 32) }
{
    let n = l.0;
    if n < asm::LABELS {
        return table[n as usize] % 4294967296;
    }
    0
}

// What is added to a word for its distance to a label, in words; the distance of `adr` is in bytes, its two lowest bits apart.
fn label_patch(table: &[u64; asm::TABLE], f: Fix, l: Label, here: u32) -> u32
    ensures { result ≡ patch_in f (dist (label_in table.now l.0) here) }
{
    let h = here as u64;
    match f {
        Fix::B26 => field(HALF26, distance(label_at(table, l), h)),
        Fix::B19 => field(HALF19, distance(label_at(table, l), h)) * 32,
        Fix::B14 => field(HALF14, distance(label_at(table, l), h)) * 32,
        Fix::Adr21 => {
            let bytes = field(HALF21, distance(4 * label_at(table, l), 4 * h));
            bytes % 4 * 536870912 + bytes / 4 * 32
        }
    }
}

// The same to where a reference leads: to a label, or to a literal of the pool.
fn patch(table: &[u64; asm::TABLE], base: u32, to: Reference, here: u32) -> u32
    ensures { result ≡ patch_in (field_in to) (dist (lead_in table.now base to) here) }
{
    match to {
        Reference::ToLabel(l, f) => label_patch(table, f, l, here),
        Reference::ToPool(i) => {
            let there = (base as u64) + 2 * (i as u64);
            field(HALF19, distance(there, here as u64)) * 32
        }
    }
}

// From here on words and table are taken, not the assembler: that the table stays as it is, `&` says.
fn patch_at(words: &mut [u32], at: u32, f: u32)
    ensures { words.new ≡ slice_set words.old at ((slice_index words.old at + f) % 2 ^ 32) }
{
    let i = at as usize;
    if i < words.len() {
        words[i] = words[i].wrapping_add(f);
    }
}

// Fix-up n.
fn patch_one(words: &mut [u32], table: &[u64; asm::TABLE], base: u32, n: u32)
    requires { n < fixup_room }
    ensures { words.new ≡ patched_at table.now base n words.old }
{
    let e = table[asm::FIXUPS_AT + (n as usize)];
    let at = high(e);
    let to = asm::ref_of(low(e));
    let f = patch(table, base, to, at);
    patch_at(words, at, f);
}

// The first `upto` fix-ups of the table, from number 0 on, each added to its word. Of a table that a block's code filled the positions
// rise (code, `OneWalk`). The Rust patches the literal references first, with the same words (code, `two_walks`).
pub fn patch_to(words: &mut [u32], table: &[u64; asm::TABLE], base: u32, upto: u32)
    ensures { words.new ≡ patched_to table.now base (at_most fixup_room upto) words.old }
{
    let end = asm::at_most(asm::FIXUPS, upto);
    for n in 0..end {
        patch_one(words, table, base, n);
    }
}

// A nop where a pool follows code of odd length; where the pool starts. That k has an end is asked here and in `pool`, and is no
// invariant of the counts: `finish` promises of any state of the assembler (docs/CLAIMS.md, 2026-02).
fn pad(words: &mut [u32], table: &[u64; asm::TABLE], n: u32, k: u32) -> u32
    requires { (n ≤ 1048576) × (k ≤ literal_room) }
    ensures { (result ≡ base_of n (literals_from 0 k table.now)) × (result ≤ 1048577) × (words.new ≡ write n (pad_of n (literals_from 0 k table.now)) words.old) }
{
    if k == 0 {
        return n;
    }
    if n % 2 == 0 {
        return n;
    }
    asm::store(words, n, 0xd503_201f);
    n + 1
}

// The literals, low word first.
fn pool(words: &mut [u32], table: &[u64; asm::TABLE], base: u32, k: u32)
    requires { (base ≤ 1048577) × (k ≤ literal_room) }
    ensures { words.new ≡ write base (halves (literals_from 0 k table.now)) words.old }
{
    for i in 0..k {
        let v = table[asm::LITERALS_AT + (i as usize)];
        asm::store(words, base + 2 * i, low(v));
        asm::store(words, base + 2 * i + 1, high(v));
    }
}

// Every lent word is 0.
pub fn zero(words: &mut [u32])
    ensures { words.new ≡ zeros words.old }
{
    words.fill(0);
}

// The lent words are the block's behind the first `upto` patches, or behind all where there are fewer, with those beyond the block
// untouched; or all 0 where they are too few.
pub fn finish(
    words: &mut [u32],
    table: &[u64; asm::TABLE],
    counts: Counts,
    upto: u32,
) -> Result<u32, Short>
    ensures told { result ≡ finished (parts words.old table.now counts) }
    ensures words_after { words.new ≡ finished_words upto (parts words.old table.now counts) }
{
    let k = asm::at_most(asm::LITERALS, counts.literals);
    let base = pad(words, table, asm::at_most(1048576, counts.at), k);
    pool(words, table, base, k);
    let total = base + 2 * k;
    if words.len() < (total as usize) {
        zero(words);
        return Err(Short(total));
    }
    patch_to(words, table, base, asm::at_most(counts.fixups, upto));
    Ok(total)
}
