// The link of a chain site with a body.
#![tactic(auto)]

ghost use Rattle.std.specs.Prelude.{◌≡◌};
ghost use Rattle.words.specs.Answers.{told};
ghost use Rattle.chain.specs.Link.{linked};

use arm::Instr;
use words::{EncodeError, encode, reaches, twos};

// Half of what a field of 26 bits holds.
const HALF_26: u32 = 0x200_0000;

pub fn link(site: i64, body: i64) -> Result<u32, EncodeError>
    ensures { told result ≡ told (linked site body) }
{
    if twos(2, site) != 0 {
        return Err(EncodeError::Unaligned);
    }
    if twos(2, body) != 0 {
        return Err(EncodeError::Unaligned);
    }
    // in words, so that the difference does not overflow
    let words = (body >> 2) - (site >> 2);
    if reaches(HALF_26, words) {
        return encode(Instr::Branch(twos(HALF_26, words)));
    }
    Err(EncodeError::Reach)
}
