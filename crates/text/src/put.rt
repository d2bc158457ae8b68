// Writing text into a lent buffer.
ghost use Rattle.std.specs.Prelude.{◌≡◌, ◌∷◌, [], ◌++◌, length, take};
ghost use Rattle.std.proofs.lemmas.List.Edits.{sets};
ghost use Rattle.text.specs.Put.{Ahead, hex8, decimal, Kept, separator_of, rows};

// Puts bytes at `at`, as far as there is room, and answers the position behind them: a slice and a position, so that a fact of one call is
// known before the lent buffer is.
fn put_at(out: &mut [u8], at: usize, bytes: &[u8]) -> usize
    ensures written { out.new ≡ sets out.old at bytes.now }
    ensures end { Ahead at (length bytes.now) (length out.old) result }
{
    if out.len() < at {
        return at;
    }
    let n = bytes.len().min(out.len() - at);
    out[at..at + n].copy_from_slice(&bytes[..n]);
    at + n
}

// A lent buffer, and how much of it is written: no heap here, so it is not a Vec.
#[derive(Drop)]
pub struct Buffer<'a> {
    pub out: &'a mut [u8],
    pub len: usize,
}

impl<'a> Buffer<'a> {
    ghost use Rattle.text.specs.Buffer.{Puts, PutsAll};

    // Nothing is written yet.
    pub fn new(out: &'a mut [u8]) -> Buffer<'a>
        ensures lent { result.out.ghost_name ≡ out.entry.ghost_name }
        ensures bytes { result.out.now ≡ out.old }
        ensures len { result.len ≡ 0 }
    {
        Buffer { out, len: 0 }
    }

    pub fn written(&self) -> &[u8]
        ensures { result.now ≡ take self.now.len self.now.out.now }
    {
        &self.out[..self.len.min(self.out.len())]
    }

    // Puts bytes, as far as there is room.
    pub fn put(&mut self, bytes: &[u8])
        ensures { PutsAll bytes.now self.old self.new }
    {
        self.len = put_at(self.out, self.len, bytes);
    }

    // Puts a word as eight hexadecimal digits.
    pub fn put_hex8(&mut self, w: u32)
        ensures { PutsAll (hex8 w) self.old self.new }
    {
        let mut text = [0u8; 16];
        let k = io::hex(w as u64, 8, &mut text);
        self.put(&text[..k]);
    }

    // Puts a number in decimal.
    pub fn put_decimal(&mut self, n: u64)
        ensures { Puts (decimal n) self.old self.new }
    {
        let mut text = [0u8; 20];
        let k = io::decimal(n, &mut text);
        self.put(&text[..k]);
    }

    // Puts a word and the byte that stands behind it.
    pub fn put_word(&mut self, w: u32, sep: u8)
        ensures { Puts (hex8 w ++ (sep ∷ [])) self.old self.new }
    {
        self.put_hex8(w);
        self.put(&[sep]);
    }

    // Puts words as a listing, five a line.
    pub fn put_rows(&mut self, words: &[u32])
        ensures { Puts (rows 0 words.now) self.old self.new }
    {
        for (i, w) in words.iter().enumerate() {
            self.put_word(*w, separator(i, words.len() - i));
        }
    }
}

// What stands behind the word at position `i`: a line feed behind the fifth of a line and behind the last, a blank behind any other.
#[tactic(auto, unfolding(crate::specs::Put::separator_of))]
fn separator(i: usize, left: usize) -> u8
    ensures { result ≡ separator_of i left }
{
    if left == 1 || i % 5 == 4 { b'\n' } else { b' ' }
}

// Puts one more part of a line behind what is held of it in a lent buffer: how many bytes are held, or none where there is no room or was
// none before.
pub fn keep(line: &mut [u8], held: Option<usize>, part: &[u8]) -> Option<usize>
    ensures { Kept held line.old part.now line.new result }
{
    let len = held?;
    let end = len.checked_add(part.len())?;
    if line.len() < end {
        return None;
    }
    line[len..end].copy_from_slice(part);
    Some(end)
}
