//! Tests of the program as one call, over streams and gates in memory: which of them fail, which commands the words are, and what
//! workers do beside each other. Lines and replies, configurations and summaries are in the rows that the gate tries on the
//! program itself (`.ci/rows.txt`).
#![tactic(auto)]

#[cfg(test)]
mod closed;
#[cfg(test)]
mod commands;
#[cfg(test)]
mod endings;
#[cfg(test)]
mod faults;
#[cfg(test)]
mod fits;
#[cfg(test)]
mod gates;
#[cfg(test)]
mod meetings;
#[cfg(test)]
mod requests;
#[cfg(test)]
mod rows;
#[cfg(test)]
mod serving;
#[cfg(test)]
mod setting;
#[cfg(test)]
mod texts;
