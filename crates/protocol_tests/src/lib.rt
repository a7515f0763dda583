//! Tests of the crates of the protocol that stand by themselves: lines and replies, configurations and tunings, the documents
//! of a load, configurations fitted to a sample, sessions, and requests over HTTP. What the program shows of them from outside
//! is in the rows that the gate tries (`.ci/rows.txt`).
#![tactic(auto)]

#[cfg(test)]
mod configurations;
#[cfg(test)]
mod documents;
#[cfg(test)]
mod fits;
#[cfg(test)]
mod lines;
#[cfg(test)]
mod requests;
#[cfg(test)]
mod sessions;
#[cfg(test)]
mod tunings;
