// Signed numbers in fields of two's complement.
ghost use Rattle.std.specs.Prelude.{◌≡◌, ◌+◌, ◌≤◌, ◌<◌, ◌^◌};
ghost use Rattle.std.specs.Int.Signed.{mag};
ghost use Rattle.words.specs.Signed.{reaches, twos};

// n of n, and n of -(n + 1)
fn magnitude(x: i64) -> u64
    ensures { result ≡ mag x }
{
    if x < 0 {
        return (-1 - x) as u64;
    }
    x as u64
}

pub fn reaches(half: u32, x: i64) -> bool
    ensures { result ≡ reaches half x }
{
    magnitude(x) < half as u64
}

pub fn twos(half: u32, x: i64) -> u32
    requires { (1 ≤ half) × (half ≤ 2 ^ 30) }
    ensures { (result ≡ twos half x) × (result < half + half) }
{
    let n = (magnitude(x) % ((half + half) as u64)) as u32;
    if x < 0 {
        return half + half - 1 - n;
    }
    n
}
