// A case: a record with the answer that it must get.
use faults::Refusal;
use lowering::Site;
use translation::{Sites, Translation};

// Where the numbers of a case stand, in bytes: those of the answers follow each other from the fault's number on.
pub const FAULT: usize = 4;

pub const WORDS: usize = 12;

const LENGTH: usize = 52;

const RECORD: usize = 56;

// Number, place, words, body offset, sites, and two sites; then number, place and words whatever is lent.
const NUMBERS: usize = 12;

// What the lent words hold before the translation, so that a word that is left as it was can be told from one that is written.
const BEFORE: u32 = 0x5a5a_5a5a;

// The number at a place, little-endian; 0 behind the end.
pub fn number(case: &[u8], at: usize) -> u32 {
    case.get(at..)
        .and_then(|rest| rest.first_chunk())
        .map_or(0, |bytes| u32::from_le_bytes(*bytes))
}

// The numbers of both answers, in the order of a case.
fn numbers(
    translated: Result<Translation, Refusal>,
    needed: Result<u32, Refusal>,
) -> [u64; NUMBERS] {
    let mut n = [0; NUMBERS];
    match translated {
        Ok(t) => {
            n[2] = u64::from(t.words);
            n[3] = u64::from(t.body);
            let (count, first, second) = match t.sites {
                Sites::None => (0, Site::default(), Site::default()),
                Sites::One(s) => (1, s, Site::default()),
                Sites::Two(s, u) => (2, s, u),
            };
            n[4] = count;
            n[5] = u64::from(first.at);
            n[6] = u64::from(first.target);
            n[7] = u64::from(second.at);
            n[8] = u64::from(second.target);
        }
        Err(refusal) => {
            n[0] = u64::from(u32::from(refusal.fault));
            n[1] = refusal.place as u64;
        }
    }
    match needed {
        Ok(words) => {
            n[11] = u64::from(words);
        }
        Err(refusal) => {
            n[9] = u64::from(u32::from(refusal.fault));
            n[10] = refusal.place as u64;
        }
    }
    n
}

// The first place at which a case has another number than the answers.
fn other_number(case: &[u8], got: [u64; NUMBERS]) -> Option<usize> {
    (0..NUMBERS).position(|i| u64::from(number(case, FAULT + 4 * i)) != got[i])
}

// The first of the lent words that is not as it must be: `count` words from `from` on in the case, and `rest` behind them.
fn other_word(case: &[u8], from: usize, count: usize, rest: u32, words: &[u32]) -> Option<usize> {
    words.iter().enumerate().position(|(i, &word)| {
        let want = if i < count {
            number(case, from.wrapping_add(i.wrapping_mul(4)))
        } else {
            rest
        };
        word != want
    })
}

// The first difference: its place among the numbers of the answers, or that of a word behind them.
fn compare_lent(case: &[u8], words: &mut [u32], table: &mut [u64; 6152]) -> Option<usize> {
    let end = RECORD + number(case, LENGTH) as usize;
    let Some(record) = case.get(RECORD..end) else {
        return Some(NUMBERS);
    };
    let needed = translation::words_needed(record, table);
    words.fill(BEFORE);
    let translated = translation::translate(record, words, table);
    if let Some(place) = other_number(case, numbers(translated, needed)) {
        return Some(place);
    }
    let count = number(case, WORDS) as usize;
    let rest = if number(case, FAULT) == 0 { BEFORE } else { 0 };
    other_word(case, end, count, rest, words).map(|at| NUMBERS.wrapping_add(at))
}

// Lends as many words as the case says.
pub fn compare(case: &[u8], words: &mut [u32], table: &mut [u64; 6152]) -> Option<usize> {
    let Some(lent) = words.get_mut(..number(case, 0) as usize) else {
        return Some(NUMBERS);
    };
    compare_lent(case, lent, table)
}
