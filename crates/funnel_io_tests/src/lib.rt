//! Tests of streams, lines and gates: over memory, over the system's streams and files, and over TCP.
#![tactic(auto)]

#[cfg(test)]
mod files;
#[cfg(test)]
mod gates;
#[cfg(test)]
mod lines;
#[cfg(test)]
mod memory;
#[cfg(test)]
mod network;
#[cfg(test)]
mod ports;
#[cfg(test)]
mod readers;
#[cfg(test)]
mod streams;
