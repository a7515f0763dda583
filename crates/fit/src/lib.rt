//! A configuration for a number of documents, fitted to a sample of them: the words that many of them have are listed with
//! their counts, so that these words need few rows, and there are slices enough for documents that are replaced in any
//! order. The layer above uses that the counts are those of the lines that were read, that what is written is a valid
//! configuration, and that it is read as that configuration.
#![tactic(auto)]

mod ends;
mod fitting;
mod listing;
mod private;
mod ranking;
mod sample;
mod shape;
mod tally;
mod text;

pub use ends::{FitEnd, Misfit};
pub use fitting::fit;
