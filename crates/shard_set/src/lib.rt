//! An index of several shards under one caller, parted by the lengths of the documents.
#![tactic(auto)]

mod asking;
mod home;
mod merging;
mod opening;
mod parting;
mod set;

pub use home::Home;
pub use parting::MOST_SHARDS;
pub use set::ShardSet;
