// Little-endian numbers of a part of the record. A byte beyond its end counts as 0.
ghost use Rattle.std.specs.Prelude.{◌≡◌, ◌<◌};
ghost use Rattle.operands.specs.Kinds.{low as low_of};
ghost use Rattle.operands.specs.Numbers.{byte_at, num16, num32, num64};

pub fn byte(s: &[u8], i: usize) -> u8
    ensures { result ≡ byte_at s.now i }
{
    match s.get(i) {
        Some(b) => *b,
        None => 0,
    }
}

pub fn get16(s: &[u8], i: usize) -> u32
    requires { i < 18446744073709551608 }
    ensures { (result ≡ num16 s.now i) × (result < 65536) }
{
    u16::from_le_bytes([byte(s, i), byte(s, i + 1)]) as u32
}

// With one test for all four bytes they compile to one load.
pub fn get32(s: &[u8], i: usize) -> u32
    requires { i < 18446744073709551604 }
    ensures { result ≡ num32 s.now i }
{
    if i + 3 < s.len() {
        return u32::from_le_bytes([s[i], s[i + 1], s[i + 2], s[i + 3]]);
    }
    get16(s, i) + 65536 * get16(s, i + 2)
}

pub fn get64(s: &[u8], i: usize) -> u64
    requires { i < 18446744073709551600 }
    ensures { result ≡ num64 s.now i }
{
    (get32(s, i) as u64) + 4294967296 * (get32(s, i + 4) as u64)
}

// The low byte of an operand.
pub fn low(x: u32) -> u8
    ensures { result ≡ low_of x }
{
    (x % 256) as u8
}
