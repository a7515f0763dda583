//! The workload of a load and its summary: the documents that are generated from a seed, the queries, and the text
//! that tells how many documents and which results there were. Nothing here searches; the layer above makes the calls of
//! `jobs` and hands the results to `summary`.
#![tactic(auto)]

mod generator;
mod laws;
mod limits;
mod load;
mod queries;
mod report;

pub use laws::{example_jobs, texts_fit_in_their_room, workers_share_the_documents};
pub use limits::{CHECKED_ONE_IN, DELETED_ONE_IN, MOST_DOCS, MOST_WORDS};
pub use load::{Load, make};
pub use queries::query;
pub use report::summary;
