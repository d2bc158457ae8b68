// The lines and the words of a text.
ghost use Rattle.std.specs.Prelude.{◌≡◌, not, length, position, MatchOption};
ghost use Rattle.std.specs.Iterator.{at_most};
ghost use Rattle.text.specs.Split.{line_feed, blank, IsLastLine, IsLine, IsBlank, IsWord};

// Tab, line feed, vertical tab, form feed, carriage return and space: ASCII's part of the blanks of Rust's split_whitespace.
fn is_blank(b: u8) -> bool
    ensures { result ≡ blank b }
{
    matches!(b, b' ' | 9..=13)
}

// A search stands in a function of its own: behind a `?` in one function what it found would not be known.
fn line_end(s: &[u8]) -> Option<usize>
    ensures { result ≡ position line_feed s.now }
{
    s.iter().position(|b| *b == b'\n')
}

fn word_start(s: &[u8]) -> Option<usize>
    ensures { result ≡ position (λ b. not (blank b)) s.now }
{
    s.iter().position(|b| !is_blank(*b))
}

fn word_end(s: &[u8]) -> Option<usize>
    ensures { result ≡ position blank s.now }
{
    s.iter().position(|b| is_blank(*b))
}

// The first line, without its line feed, and what stands behind that; none where no line ends.
pub fn split_line(s: &[u8]) -> Option<(&[u8], &[u8])>
    ensures { MatchOption result (IsLastLine s.now) (λ p. IsLine s.now p.0.now p.1.now) }
{
    let end = line_end(s)?;
    Some((&s[..end], &s[end + 1..]))
}

// The first word, and what stands behind it; none where there are only blanks.
pub fn split_word(s: &[u8]) -> Option<(&[u8], &[u8])>
    ensures { MatchOption result (IsBlank s.now) (λ p. IsWord s.now p.0.now p.1.now) }
{
    let rest = &s[word_start(s)?..];
    Some(rest.split_at(word_end(rest).unwrap_or(rest.len())))
}

// The words of a text, one behind the other.
#[derive(Clone, Copy)]
pub struct Words<'a>(pub &'a [u8]);

impl<'a> Iterator for Words<'a> {
    ghost use Rattle.text.specs.Words.{TakesWord};

    type Item = &'a [u8];

    ghost next_gives = { TakesWord };

    ghost remaining = { λ s. at_most (length s.0.now) };

    fn next(&mut self) -> Option<&'a [u8]> {
        let (word, rest) = split_word(self.0)?;
        self.0 = rest;
        Some(word)
    }
}
