//! Tests of whole engines: what passes are answered beside each other, on one thread and on several.
#![tactic(auto)]

#[cfg(test)]
mod answers;
#[cfg(test)]
mod beside;
#[cfg(test)]
mod caller;
#[cfg(test)]
mod events;
#[cfg(test)]
mod example;
#[cfg(test)]
mod four_passes;
#[cfg(test)]
mod free_lock;
#[cfg(test)]
mod guards;
#[cfg(test)]
mod hooked;
#[cfg(test)]
mod large;
#[cfg(test)]
mod many_hits;
#[cfg(test)]
mod moving;
#[cfg(test)]
mod puts;
#[cfg(test)]
mod queries;
#[cfg(test)]
mod replacing;
#[cfg(test)]
mod reports;
#[cfg(test)]
mod retuning;
#[cfg(test)]
mod setting;
#[cfg(test)]
mod solo;
#[cfg(test)]
mod steps;
#[cfg(test)]
mod threads;
#[cfg(test)]
mod together;
#[cfg(test)]
mod waiting;
