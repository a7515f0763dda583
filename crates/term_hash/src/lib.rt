//! The hash that spreads terms over the rows of a signature: FNV-1a of 64 bits, and the row that a word's hash names.
#![tactic(auto)]

mod hash;
mod row;
mod row_count;

pub use hash::fnv;
pub use row::{WordHash, row_of};
pub use row_count::RowCount;
