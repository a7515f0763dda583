//! Tests of the pool that all threads share, and of what works in it without a lock: events that are counted, a slice
//! that is cleared beside a find, and columns that two threads write beside each other.
#![tactic(auto)]

#[cfg(test)]
mod clearing;
#[cfg(test)]
mod counting;
#[cfg(test)]
mod setting;
#[cfg(test)]
mod writing;
