//! Tests of crates below the engine that stand by themselves: the words of texts and their hashes, the tables of classes and
//! sizes, the rows of words and their bits, the plans of queries, scans of words, documents in their columns and live numbers,
//! how far slices are, the tokens of finds, and queries as they are read.
#![tactic(auto)]

#[cfg(test)]
mod documents;
#[cfg(test)]
mod faults;
#[cfg(test)]
mod hashes;
#[cfg(test)]
mod layouts;
#[cfg(test)]
mod live_numbers;
#[cfg(test)]
mod plans;
#[cfg(test)]
mod queries;
#[cfg(test)]
mod scans;
#[cfg(test)]
mod search_scans;
#[cfg(test)]
mod setting;
#[cfg(test)]
mod stages;
#[cfg(test)]
mod tokens;
#[cfg(test)]
mod treatments;
#[cfg(test)]
mod words;
