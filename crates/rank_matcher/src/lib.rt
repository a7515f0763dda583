//! Which columns of a slice may hold documents that meet a query.
//!
//! A column is a hit where its bit is set in every planned row. The contract of `scan` says so column by column over
//! whole rows. The code walks from the rows of the highest rank down: one word of a row of rank r rules out 64 * 2^r
//! columns at once where no bit is left, and only what is left is looked at in the rows of lower ranks.
//!
//! A search is evaluated for 64 columns at once: which of them may be kept by the bits that were read, and which surely are.
#![tactic(auto)]

mod evaluation;
mod hits;
mod laws;
mod left;
mod scanning;
mod search_scan;
mod searching;
mod walk;
mod words;

pub use evaluation::Told;
pub use hits::Hits;
pub use laws::{documents_with_all_bits_are_hits, written_bits_are_found};
pub use scanning::scan;
pub use search_scan::scan_search;
pub use searching::search_word;
