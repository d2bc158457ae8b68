// Answers calls of the encoders: a call a line on standard input, its words a line on standard output. A refused call is answered
// `refused N 0`, and a line that is no call `unknown`.
#![tactic(auto)]

mod answer;

use std::io;
use std::io::{Read, Write};

// The line that is being read: how many of its bytes stand in the lent buffer, or none where it is too long for that. No heap, so no Vec.
#[derive(Drop)]
struct Line<'a> {
    bytes: &'a mut [u8],
    len: Option<usize>,
}

impl<'a> Line<'a> {
    fn keep(&mut self, part: &[u8]) {
        self.len = text::keep(self.bytes, self.len, part);
    }

    // Answers the line, and begins the next.
    fn answer<W: Write>(&mut self, to: &mut W) -> io::Result<()> {
        let line = self.len.and_then(|len| self.bytes.get(..len));
        answer::answer(to, line)?;
        self.len = Some(0);
        Ok(())
    }
}

// Answers the lines that end in a piece of the input, and keeps the start of the next.
fn answer_lines<W: Write>(to: &mut W, piece: &[u8], line: &mut Line) -> io::Result<()> {
    let mut rest = piece;
    while let Some((end, behind)) = text::split_line(rest) {
        line.keep(end);
        line.answer(to)?;
        rest = behind;
    }
    line.keep(rest);
    Ok(())
}

// The last line is answered too if the input does not end with a line feed. A proved loop has to end, and nothing says that the input does:
// so the loop counts its turns, to a number that no run comes to.
fn answer_all<R: Read, W: Write>(from: &mut R, to: &mut W, line: &mut Line) -> io::Result<()> {
    for _ in 0..u64::MAX {
        let mut piece = [0u8; 4096];
        let Some(n) = input::read_piece(from, &mut piece)? else {
            if line.len != Some(0) {
                line.answer(to)?;
            }
            return Ok(());
        };
        answer_lines(to, &piece[..n], line)?;
    }
    Ok(())
}

fn main(rt: HostRuntime) -> io::Result<()> {
    let mut bytes = [0u8; 4096];
    let mut line = Line {
        bytes: &mut bytes,
        len: Some(0),
    };
    answer_all(&mut rt.reader(), &mut io::writer(&rt), &mut line)
}
