// A line of the input and its answer.
use arrayvec::ArrayVec;
use calls::{CallError, Sequence};
use std::io;
use std::io::Write;
use text::{Buffer, Words};
use words::EncodeError;

// The words of a line behind its name, as numbers; none where one is no number, or there are more than four.
fn numbers(words: Words) -> Option<ArrayVec<u64, 4>> {
    let mut numbers = ArrayVec::new();
    for word in words {
        numbers.try_push(text::number_of(word)?).ok()?;
    }
    Some(numbers)
}

// What a line calls: a name and its numbers.
fn called(line: &[u8]) -> Result<Sequence, CallError> {
    let mut words = Words(line);
    let name = words.next().ok_or(CallError::Unknown)?;
    let numbers = numbers(words).ok_or(CallError::Unknown)?;
    calls::call(name, numbers.as_slice())
}

fn put_refused(out: &mut Buffer, e: EncodeError) {
    out.put(b"refused ");
    out.put_decimal(u64::from(u32::from(e)));
    out.put(b" 0\n");
}

fn put_words(out: &mut Buffer, words: Sequence) {
    match words {
        Sequence::Empty => out.put(b"\n"),
        Sequence::One(a) => out.put_rows(&[a]),
        Sequence::Two(a, b) => out.put_rows(&[a, b]),
        Sequence::Three(a, b, c) => out.put_rows(&[a, b, c]),
        Sequence::Four(a, b, c, d) => out.put_rows(&[a, b, c, d]),
    }
}

// Puts the line that answers a call.
fn put_answer(out: &mut Buffer, answer: Result<Sequence, CallError>) {
    match answer {
        Ok(words) => put_words(out, words),
        Err(CallError::Unknown) => out.put(b"unknown\n"),
        Err(CallError::Refused(e)) => put_refused(out, e),
    }
}

// Writes the answer to a line, or to one that was too long to be held.
pub fn answer<W: Write>(to: &mut W, line: Option<&[u8]>) -> io::Result<()> {
    let mut room = [0u8; 64];
    let mut out = Buffer::new(&mut room);
    put_answer(&mut out, line.map_or(Err(CallError::Unknown), called));
    to.write_all(out.written())
}
