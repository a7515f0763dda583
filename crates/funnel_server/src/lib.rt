//! Workers: passes of an engine that answer connections beside each other.
//!
//! A [`Worker`] has a gate, from which its connections come, and a client, by whose pass it answers them. It answers one
//! connection after another: one session for each, of lines or of requests over HTTP, which takes at most `MOST_BYTES` of
//! `session`. It hands the connection back to its gate with the end of its session, and asks for the next one. It stops where it has served as many as it may,
//! or its gate is closed or fails, and then ends its gate. Whoever hands it the gate has opened it.
//!
//! A fault of a connection ends that connection's session alone: its worker goes on with the next one. So does a worker
//! whose session found no memory, and notes it. A fault of a gate ends its worker and no other.
//!
//! [`run_workers`] runs each worker in a thread of its own, and waits for all of them. A worker waits for its gate, for the
//! bytes of its connection, and for the engine's lock. None asks for a connection before each has its thread; where the system
//! gives one of them none, none does anything.
//!
//! [`run_load`] puts a load to an engine by several workers of another kind: each has a share of the load's documents and
//! queries in place of a gate, and a thread and a pass of its own too. They work in three parts, and meet after each.
#![tactic(auto)]

mod laws;
mod loader;
mod loads;
mod meeting;
mod parts;
mod share;
mod threads;
mod worker;
mod workers;

pub use laws::{
    a_workers_calls_are_those_of_its_sessions, kept_ends_have_their_cause,
    sessions_without_a_fault_end_well, turns_without_memory_leave_the_connection,
    workers_ask_until_they_get_none, workers_give_back_what_they_are_handed,
    workers_of_a_load_ask_their_share, workers_without_a_fault_serve_all,
};
pub use loads::run_load;
pub use worker::Worker;
pub use workers::{NoThread, run_workers};
