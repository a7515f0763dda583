//! How a configuration treats words: how many rows a word has and of which ranks, a rarer one at least as many, and how
//! large the rows, a slice and the pool then are. The layers above use that the class is the greatest that a word's count allows,
//! that the row count is the least that is enough for it, and that every rank and size is exact. Nothing is allocated.
#![tactic(auto)]

mod classes;
mod demands;
mod pool_sizes;
mod ranks;
mod sizing;

pub use classes::{LAST_CLASS, class, class_of, row_count};
pub use pool_sizes::Sizes;
pub use ranks::rank_of;
pub use sizing::sizes;
