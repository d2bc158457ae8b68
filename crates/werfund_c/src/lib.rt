// The functions of `werfund` as a static library for C: under the same names, with the same contracts. They stand twice, since a crate is a
// library or an archive, and C calls them by these names. host/werfund.h declares them.
#![tactic(auto)]

ghost use Rattle.std.specs.Prelude.{◌≡◌, true, ◌∷◌};
ghost use Rattle.record.specs.Record.{reading_faults, among};
ghost use Rattle.code.specs.Emit.{lay};
ghost use Rattle.chain.specs.Link.{linked};
ghost use Rattle.answers.specs.Translation.{translation, lent_after};
ghost use Rattle.answers.specs.Contract.{Sited, Runs, Meant};
ghost use Rattle.answers.specs.WordsNeeded.{words_needed, Exact, Included};
ghost use Rattle.werfund.specs.Answers.{number_of, cells_of, need_number, need_cells, link_answer};

#[unsafe(no_mangle)]
pub extern "C" fn werfund_translate(
    bytes: &[u8],
    words: &mut [u32],
    table: &mut [u64; 6152],
    answer: &mut [u64],
) -> u32
    ensures number { result ≡ number_of (translation bytes.now words.old) }
    ensures cells { answer.new ≡ lay (cells_of (translation bytes.now words.old)) answer.old }
    ensures words_after { words.new ≡ lent_after bytes.now words.old }
    ensures sited { Sited (translation bytes.now words.old) bytes.now }
    ensures runs { Runs (translation bytes.now words.old) bytes.now words.new }
    ensures meant { Meant (translation bytes.now words.old) bytes.now words.new }
    ensures known_fault { among result (0 ∷ 10 ∷ reading_faults) ≡ true }
{
    werfund::werfund_translate(bytes, words, table, answer)
}

#[unsafe(no_mangle)]
pub extern "C" fn werfund_words_needed(
    bytes: &[u8],
    table: &mut [u64; 6152],
    answer: &mut [u64],
) -> u32
    ensures number { result ≡ need_number (words_needed bytes.now) }
    ensures cells { answer.new ≡ lay (need_cells (words_needed bytes.now)) answer.old }
    ensures exact { Exact (words_needed bytes.now) bytes.now }
    ensures included { Included (words_needed bytes.now) bytes.now }
    ensures known_fault { among result (0 ∷ reading_faults) ≡ true }
{
    werfund::werfund_words_needed(bytes, table, answer)
}

#[unsafe(no_mangle)]
pub extern "C" fn werfund_link(site: i64, body: i64) -> u64
    ensures { result ≡ link_answer (linked site body) }
{
    werfund::werfund_link(site, body)
}
