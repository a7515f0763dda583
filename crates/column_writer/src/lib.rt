//! How a column gets its bits: one atomic step for each, so that no bit of another column is lost.
#![tactic(auto)]

mod write;

pub use write::write_column;
