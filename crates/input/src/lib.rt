// Reading an input piece by piece.
#![tactic(auto)]

ghost use Rattle.std.specs.Prelude.{◌<◌, ◌≤◌, length, take, IfOk};
ghost use Rattle.std.specs.Io.KnownBytes.{Consumes, IsAtEnd};
ghost use Rattle.input.specs.Input.{Gives, HoldsAll};

use std::io;
use std::io::{ErrorKind, Read};

// Reads once, and answers how many bytes it put at the start of the piece, 0 where a signal interrupted it; none at the input's end.
pub fn read_piece<R: Read>(from: &mut R, piece: &mut [u8]) -> io::Result<Option<usize>>
    ensures { IfOk result (Gives (R.remaining from.old) (R.remaining from.new) piece.new) }
{
    match from.read(piece) {
        Ok(0) => Ok(None),
        Ok(n) => Ok(Some(n)),
        Err(e) if e.kind() == ErrorKind::Interrupted => Ok(Some(0)),
        Err(e) => Err(e),
    }
}

// Reads the whole input, and answers how many bytes it put at the buffer's start; none where it is longer than the buffer, of which as much
// is read as shows that. A proved loop has to end, and nothing says that the input does: so the loop counts its turns, to a number that no
// run comes to.
pub fn read_whole<R: Read>(from: &mut R, buf: &mut [u8]) -> io::Result<Option<usize>>
    ensures { IfOk result (HoldsAll (R.remaining from.old) buf.new) }
{
    let mut len = 0;
    for _ in 0..u64::MAX {
        let mut piece = [0u8; 4096];
        let Some(n) = read_piece(from, &mut piece)? else {
            return Ok(Some(len));
        };
        let Some(end) = text::keep(buf, Some(len), &piece[..n]) else {
            return Ok(None);
        };
        len = end;
    }
    Err(io::Error::other("the input does not end"))
}

// Reads until the buffer is full or the input ends, and answers how many bytes it put at the buffer's start.
// It counts its turns as `read_whole` does.
pub fn read_full<R: Read>(from: &mut R, buf: &mut [u8]) -> io::Result<usize>
    ensures in_bounds { IfOk result (λ n. n ≤ length buf.new) }
    ensures bytes { IfOk result (λ n. Consumes (R.remaining from.old) (R.remaining from.new) (take n buf.new)) }
    ensures end { IfOk result (λ n. n < length buf.new → IsAtEnd (R.remaining from.new)) }
{
    let mut done = 0;
    for _ in 0..u64::MAX {
        if buf.len() <= done {
            return Ok(done);
        }
        let Some(n) = read_piece(from, &mut buf[done..])? else {
            return Ok(done);
        };
        done += n;
    }
    Err(io::Error::other("the input does not end"))
}
