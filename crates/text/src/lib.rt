// The plain text that the programs read and write: lines, words and numbers. Every function is total: where nothing is found there is
// `None`, and what there is no room for is not written.
#![tactic(auto)]

mod number;
mod put;
mod split;

pub use number::{number_of, signed};
pub use put::{Buffer, keep};
pub use split::{Words, split_line, split_word};
