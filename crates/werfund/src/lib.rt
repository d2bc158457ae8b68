// The functions that a host calls, by C's convention, with numbers and slices alone. host/werfund.h declares them.
#![tactic(auto)]

ghost use Rattle.std.specs.Prelude.{◌≡◌, true, ◌∷◌};
ghost use Rattle.record.specs.Record.{reading_faults, among};
ghost use Rattle.code.specs.Emit.{lay};
ghost use Rattle.chain.specs.Link.{linked};
ghost use Rattle.answers.specs.Translation.{accepted, translation, lent_after};
ghost use Rattle.answers.specs.Contract.{Sited, Runs, Meant};
ghost use Rattle.answers.specs.WordsNeeded.{words_needed, Exact, Included};
ghost use Rattle.translation.specs.Told.{listed, told, need_told};
ghost use Rattle.werfund.specs.Answers.{number_of, cells_of, need_number, need_cells, link_answer};

use translation::{Sites, Translation};

// Of an accepted record: place, words, body offset, sites, and two sites.
fn block_cells(t: &Translation) -> [u64; 8]
    ensures { result ≡ cells_of (accepted t.now.words t.now.body (listed t.now.sites)) }
{
    let w = u64::from(t.words);
    let b = u64::from(t.body);
    match t.sites {
        Sites::None => [0, w, b, 0, 0, 0, 0, 0],
        Sites::One(s) => [0, w, b, 1, u64::from(s.at), u64::from(s.target), 0, 0],
        Sites::Two(s, u) => [
            0,
            w,
            b,
            2,
            u64::from(s.at),
            u64::from(s.target),
            u64::from(u.at),
            u64::from(u.target),
        ],
    }
}

// As many as there is room for; those beyond are untouched.
fn put_cells(answer: &mut [u64], cells: &[u64])
    ensures { answer.new ≡ lay cells.now answer.old }
{
    let n = cells.len().min(answer.len());
    answer[..n].copy_from_slice(&cells[..n]);
}

// The fault's number, 0 where the record is accepted. `answer` gets place, words, body offset, sites, and the two sites, the one at the
// lower word position first (the fourth clause, of the answer that the cells tell). The table is working room: what it holds, before and
// after, does not matter.
#[unsafe(no_mangle)]
pub extern "C" fn werfund_translate(
    bytes: &[u8],
    words: &mut [u32],
    table: &mut [u64; 6152],
    answer: &mut [u64],
) -> u32
    ensures number { result ≡ number_of (translation bytes.now words.old) }
    ensures cells { answer.new ≡ lay (cells_of (translation bytes.now words.old)) answer.old }
    ensures words_after { words.new ≡ lent_after bytes.now words.old }
    ensures sited { Sited (translation bytes.now words.old) bytes.now }
    ensures runs { Runs (translation bytes.now words.old) bytes.now words.new }
    ensures meant { Meant (translation bytes.now words.old) bytes.now words.new }
    ensures known_fault { among result (0 ∷ 10 ∷ reading_faults) ≡ true }
{
    match translation::translate(bytes, words, table) {
        Ok(t) => {
            put_cells(answer, &block_cells(&t));
            0
        }
        Err(refusal) => {
            put_cells(answer, &[refusal.place as u64, 0, 0, 0, 0, 0, 0, 0]);
            u32::from(refusal.fault)
        }
    }
}

// The fault's number, 10 left out; 0 where there is none. `answer` gets place and words. The table is working room, as it is for
// `werfund_translate`.
#[unsafe(no_mangle)]
pub extern "C" fn werfund_words_needed(
    bytes: &[u8],
    table: &mut [u64; 6152],
    answer: &mut [u64],
) -> u32
    ensures number { result ≡ need_number (words_needed bytes.now) }
    ensures cells { answer.new ≡ lay (need_cells (words_needed bytes.now)) answer.old }
    ensures exact { Exact (words_needed bytes.now) bytes.now }
    ensures included { Included (words_needed bytes.now) bytes.now }
    ensures known_fault { among result (0 ∷ reading_faults) ≡ true }
{
    match translation::words_needed(bytes, table) {
        Ok(words) => {
            put_cells(answer, &[0, u64::from(words)]);
            0
        }
        Err(refusal) => {
            put_cells(answer, &[refusal.place as u64, 0]);
            u32::from(refusal.fault)
        }
    }
}

// The branch from a chain site to a body in the lower 32 bits, or the fault's number in the upper.
#[unsafe(no_mangle)]
pub extern "C" fn werfund_link(site: i64, body: i64) -> u64
    ensures { result ≡ link_answer (linked site body) }
{
    match chain::link(site, body) {
        Ok(word) => u64::from(word),
        Err(error) => u64::from(u32::from(error)) << 32,
    }
}
