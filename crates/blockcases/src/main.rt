// Translates the records of the input, and compares each answer with a frozen one: the fault, the counts, the sites, every lent word, and
// the number of words that the block takes. Writes how much was compared, and the first difference where there is one.
// tools/block_cases.py makes the input, and says its form.
#![tactic(auto)]

mod case;

use std::io;
use std::io::Read;

// More words than any block takes (`Tables` in crates/bounds/specs/Whole.antt).
const LENT: usize = 28672;

// A case has up to as many words, and a record of up to 4,096 bytes.
const ROOM: usize = 118840;

// What has been compared, and the first case that differs, with the place of the difference in it.
#[derive(Clone, Copy, Default)]
struct Tally {
    cases: u64,
    refused: u64,
    words: u64,
    different: u64,
    first: Option<(u64, usize)>,
}

impl Tally {
    // One more case.
    fn add(&mut self, case: &[u8], words: &mut [u32], table: &mut [u64; 6152]) {
        self.cases = self.cases.wrapping_add(1);
        let count = u64::from(case::number(case, case::WORDS));
        self.words = self.words.wrapping_add(count);
        if 0 < case::number(case, case::FAULT) {
            self.refused = self.refused.wrapping_add(1);
        }
        if let Some(place) = case::compare(case, words, table) {
            self.different = self.different.wrapping_add(1);
            self.first = self.first.or(Some((self.cases, place)));
        }
    }
}

// Reads the next case: none at the input's end, or where there is no room for it.
fn read_case<'a, R: Read>(from: &mut R, room: &'a mut [u8]) -> io::Result<Option<&'a [u8]>> {
    let mut head = [0u8; 4];
    if input::read_full(from, &mut head)? < 4 {
        return Ok(None);
    }
    let Some(case) = room.get_mut(..u32::from_le_bytes(head) as usize) else {
        return Ok(None);
    };
    let n = input::read_full(from, case)?;
    if n == 0 {
        return Ok(None);
    }
    Ok(Some(&case[..n]))
}

// A proved loop has to end, and nothing says that the input does: so the loop counts its turns, to a number that no run comes to.
fn compare_all<R: Read>(
    from: &mut R,
    room: &mut [u8],
    words: &mut [u32],
    table: &mut [u64; 6152],
) -> io::Result<Tally> {
    let mut tally = Tally::default();
    for _ in 0..u64::MAX {
        let Some(case) = read_case(from, room)? else {
            return Ok(tally);
        };
        tally.add(case, words, table);
    }
    Ok(tally)
}

fn write_count(rt: &impl Print, name: &str, n: u64) -> io::Result<()> {
    println!(rt; "{name} {n}")
}

fn main(rt: HostRuntime) -> io::Result<()> {
    let mut room = [0u8; ROOM];
    let mut words = [0u32; LENT];
    let mut table = [0u64; 6152];
    let t = compare_all(&mut rt.reader(), &mut room, &mut words, &mut table)?;
    write_count(&rt, "cases", t.cases)?;
    write_count(&rt, "refused", t.refused)?;
    write_count(&rt, "words", t.words)?;
    write_count(&rt, "different", t.different)?;
    if let Some((case, place)) = t.first {
        write_count(&rt, "first case", case)?;
        write_count(&rt, "first place", place as u64)?;
    }
    Ok(())
}
