// A number as a word of text.
ghost use Rattle.std.specs.Prelude.{◌≡◌, ◌≤◌};
ghost use Rattle.text.specs.Number.{whole, unsigned, number_of, signed_of};

const HALF: u64 = 1 << 63;

// Digits of a number that is at most `limit`.
fn digits(s: &[u8], base: u32, limit: u64) -> Option<u64>
    requires { (2 ≤ base) × (base ≤ 16) }
    ensures { result ≡ whole base limit s.now }
{
    if s.is_empty() {
        return None;
    }
    let mut value: u64 = 0;
    for b in s {
        let d = char::from(*b).to_digit(base)?;
        value = value.checked_mul(base as u64)?.checked_add(d as u64)?;
        if limit < value {
            return None;
        }
    }
    Some(value)
}

// Digits behind a plus sign, which may be missing.
fn unsigned(s: &[u8], base: u32, limit: u64) -> Option<u64>
    requires { (2 ≤ base) × (base ≤ 16) }
    ensures { result ≡ unsigned base limit s.now }
{
    match s {
        [b'+', rest @ ..] => digits(rest, base, limit),
        _ => digits(s, base, limit),
    }
}

// The number that a word says, as Rust reads an i64, or a u64 in hexadecimal behind `0x`: its 64 bits, a negative one in two's complement.
pub fn number_of(s: &[u8]) -> Option<u64>
    ensures { result ≡ number_of s.now }
{
    match s {
        [b'-', rest @ ..] => digits(rest, 10, HALF).map(u64::wrapping_neg),
        [b'0', b'x', rest @ ..] => unsigned(rest, 16, u64::MAX),
        _ => unsigned(s, 10, HALF - 1),
    }
}

// 64 bits as a signed number in two's complement.
#[tactic(auto, unfolding(crate::specs::Number::signed_of))]
pub fn signed(bits: u64) -> i64
    ensures { result ≡ signed_of bits }
{
    bits.cast_signed()
}
