//! How a slice whose documents are all gone is made ready for new ones: its words are made zero beside running finds, its
//! documents are dropped, and then it is opened.
//!
//! Between the two turns at the desk, which begin and end it, the lock is free. The layer above may hand in the work of
//! that time, so that a test can see that it is.
#![tactic(auto)]

mod clearing;
mod recycling;
mod turns;

pub use clearing::{Clearer, clear_slice};
pub use recycling::{Recycled, recycle, recycle_by};
