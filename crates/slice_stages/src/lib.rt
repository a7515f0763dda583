//! How far each slice is: in use with so many columns claimed, retired, or being cleared.
//!
//! The desk asks here for the lowest slice that has a column left, for the slices that a find may read, and for the
//! lowest slice that can be cleared. None of these looks through the slices: each comes from a set that is kept beside
//! them. A slice that retires while finds are running waits, in the order of retirement, until the oldest of the running
//! finds has begun after it retired; then it can be cleared.
#![tactic(auto)]

mod stage;
mod stages;

pub use stage::Stage;
pub use stages::{Stages, all_below};
