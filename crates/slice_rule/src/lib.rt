//! The pool: the row words that all threads share, under one rule that holds between any two atomic steps.
//!
//! Word 0 of the pool counts the events of the history, and its step is the event. What a thread knows of the history
//! it carries in a seat: a `PassSeat` for each pass, the one `Home`, and a `Note` of what a seat knows at a time. Seats
//! exist for the proofs; at run time a `Home` and a `Note` have no bytes, and a `PassSeat` has its number and the
//! number of events that it asked.
//!
//! The layers above take from here the calls of `Pool`, and what a seat knows after each:
//!
//! - `new` makes a pool, numbers its passes and gives each its seat. No other call numbers a pass.
//! - `split_pass` and `split_home` make a note, and `join` and `join_home` take one in.
//! - `ask`, `append`, `set_bit`, `read_word` and `clear_word` make one step each.
//! - `catch_up` and then `make_event` make all steps of one event: the first lets a pass see the whole history, and the
//!   second asks for the event, appends it, and lets the pass see it.
//! - `end_pass` takes a pass back, and `close` ends the pool.
#![tactic(auto)]

mod close;
mod entry;
mod events;
pub mod laws;
mod made;
mod plays;
mod pool;
mod rows;
mod rule;
mod seats;
mod sizes;
mod steps;
mod view;

pub use close::Ended;
pub use entry::Entry;
pub use pool::{Pool, PoolName};
pub use seats::{Home, Note, PassSeat};
