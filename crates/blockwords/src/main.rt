// Reads a block record from standard input, and writes its listing, or why it is refused: document 01, "A whole listing".
#![tactic(auto)]

ghost use Rattle.text.specs.Buffer.{Puts};
ghost use Rattle.listing.specs.Listing.{accepted};
ghost use Rattle.translation.specs.Told.{listed};
ghost use Rattle.answers.specs.Translation.{translation};
ghost use Rattle.answers.specs.Contract.{Sited};
ghost use Rattle.blockwords.specs.Text.{lent, answer_text};

use std::io;
use std::io::{Read, Write};
use text::Buffer;
use translation::Sites;

const LENT: usize = 16384;

// Nine bytes a word, and the lines of the counts and of two sites.
const ROOM: usize = 147584;

// The listing of an accepted record's words, with the sites that there are.
fn put_listing(out: &mut Buffer, words: &[u32], body: u32, sites: Sites)
    ensures { Puts (accepted words.now body (listed sites)) out.old out.new }
{
    match sites {
        Sites::None => listing::accepted(out, words, body, &[]),
        Sites::One(s) => listing::accepted(out, words, body, &[s]),
        Sites::Two(s, u) => listing::accepted(out, words, body, &[s, u]),
    }
}

// The listing of a record's words, its sites by rising word position (the second clause, of the answer that is listed), or why it is
// refused.
fn put_translation(out: &mut Buffer, bytes: &[u8])
    ensures placed { Puts (answer_text bytes.now) out.old out.new }
    ensures sited { Sited (translation bytes.now lent) bytes.now }
{
    let mut words = [0u32; LENT];
    let mut table = [0u64; 6152];
    match translation::translate(bytes, &mut words, &mut table) {
        Ok(t) => {
            let n = (t.words as usize).min(words.len());
            put_listing(out, &words[..n], t.body, t.sites);
        }
        Err(refusal) => listing::refused(out, u32::from(refusal.fault), refusal.place),
    }
}

fn put_answer<R: Read>(from: &mut R, out: &mut Buffer) -> io::Result<()> {
    let mut record = [0u8; 4096];
    match input::read_whole(from, &mut record)? {
        Some(n) => put_translation(out, &record[..n]),
        None => listing::long(out),
    }
    Ok(())
}

fn main(rt: HostRuntime) -> io::Result<()> {
    let mut room = [0u8; ROOM];
    let mut out = Buffer::new(&mut room);
    put_answer(&mut rt.reader(), &mut out)?;
    io::writer(&rt).write_all(out.written())
}
