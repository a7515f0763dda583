//! Tests of sets of shards: what they answer, beside a plain list, and what is left of each shard.
#![tactic(auto)]

#[cfg(test)]
mod answers;
#[cfg(test)]
mod beside_a_list;
#[cfg(test)]
mod setting;
