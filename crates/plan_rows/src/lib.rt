//! The plan of a query: every row of each of its words, once, in the order in which the rows are read. Beside it stands the
//! rest of the words, those that aren't exact: a document that has all planned bits is still looked at for these.
#![tactic(auto)]

mod planning;
mod rest;
mod searching;

pub use planning::plan;
pub use rest::Rest;
pub use searching::plan_search;
