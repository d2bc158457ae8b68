// Translation: a block record of any bytes to its block's words, in a lent slice; and how many words it takes, before any are lent.
#![tactic(auto)]

ghost use Rattle.std.specs.Prelude.{◌≡◌};
ghost use Rattle.answers.specs.Translation.{translation, lent_after};
ghost use Rattle.answers.specs.Contract.{Sited, Runs, Meant};
ghost use Rattle.answers.specs.WordsNeeded.{words_needed, Exact, Included};
ghost use Rattle.lowering.specs.Compile.{body_offset};
ghost use Rattle.translation.specs.Told.{listed, told, need_told};

pub use emission::Sites;
use faults::{Fault, Refusal};

// Chained blocks enter behind the opening words; in bytes.
const BODY: u32 = 52;

// An accepted record's block: its number of words, the body's offset in bytes, and the chain sites, at most two, by rising word position.
#[derive(Clone, Copy)]
pub struct Translation {
    pub words: u32,
    pub body: u32,
    pub sites: Sites,
}

// The answer where a block fits: a function of its own, so that what is said of the sites here is shown by them alone.
#[tactic(auto, unfolding(lowering::specs::Compile::body_offset, lowering::specs::Fragments::opening))]
fn accepted(words: u32, sites: Sites) -> Translation
    ensures words { result.words ≡ words }
    ensures body { result.body ≡ body_offset }
    ensures sites { listed result.sites ≡ listed sites }
{
    Translation {
        words,
        body: BODY,
        sites,
    }
}

// The words of an accepted record's block, those beyond untouched, and its chain sites by rising word position, each once; or the first
// fault, and every lent word 0.
pub fn translate(
    bytes: &[u8],
    words: &mut [u32],
    table: &mut [u64; 6152],
) -> Result<Translation, Refusal>
    ensures answer { told result ≡ translation bytes.now words.old }
    ensures words_after { words.new ≡ lent_after bytes.now words.old }
    ensures sited { Sited (told result) bytes.now }
    ensures runs { Runs (told result) bytes.now words.new }
    ensures meant { Meant (told result) bytes.now words.new }
{
    match record::read(bytes) {
        Ok(block) => {
            let c = compile::compile(words, table, block);
            match c.finished {
                Ok(n) => Ok(accepted(n, c.sites)),
                Err(_) => Err(Refusal {
                    fault: Fault::Room,
                    place: bytes.len(),
                }),
            }
        }
        Err(refusal) => {
            finish::zero(words);
            Err(refusal)
        }
    }
}

// The words that a record's block takes, by the lowering that `translate` calls: emitting counts also where there is no room. Nothing is
// lent, so nothing is written but the table, which is working space. A `match`, and no `?`: a must-fail edit changes an arm alone.
pub fn words_needed(bytes: &[u8], table: &mut [u64; 6152]) -> Result<u32, Refusal>
    ensures answer { need_told result ≡ words_needed bytes.now }
    ensures exact { Exact (need_told result) bytes.now }
    ensures included { Included (need_told result) bytes.now }
{
    match record::read(bytes) {
        Ok(block) => {
            let c = compile::compile(&mut [], table, block);
            Ok(finish::count(c.finished))
        }
        Err(refusal) => Err(refusal),
    }
}
