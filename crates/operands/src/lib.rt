// The operands of an operation: little-endian numbers of the record, the operands that choose, and the table of kinds.
#![tactic(auto)]

mod numbers;
mod rows;
mod selectors;

pub use numbers::{byte, get16, get32, get64, low};
pub use rows::{Shape, fast_of, shape_of};
