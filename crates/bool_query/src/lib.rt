//! Boolean queries: a text is read as an expression of words with `|`, `-` and parentheses, and an expression is parted into the
//! words that it requires by its form, and its residue.
#![tactic(auto)]

mod cutting;
mod fault;
mod level;
mod parse;
mod parser;
mod sets;
mod wanted;

pub use fault::QueryFault;
pub use parse::parse_query;
pub use wanted::{Wanted, required};
