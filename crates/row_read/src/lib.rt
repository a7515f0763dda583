//! How a scan reads row words, whoever holds them.
//!
//! A scan is written once over `Rows`. Words that nobody changes are told, so that the scan is exact on them; words that
//! other threads set while they are read have a least value, which every read has. Where such a read
//! has a bit that a column owns, each document that stands in the column has it.
#![tactic(auto)]

mod image;
mod rows;
mod shared;

pub use image::Image;
pub use rows::Rows;
pub use shared::Shared;
