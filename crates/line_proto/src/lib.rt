//! The line protocol: what a client's line asks of the engine, and the line that a reply is written as. A
//! session reads lines, hands each that is not too long to `parse_line`, and writes what `reply_text` makes of the answer.
#![tactic(auto)]

mod laws;
mod parse;
mod reply;
mod request;
mod service;

pub use laws::{lines_are_read_by_the_grammar, tunings_are_answered_by_their_texts};
pub use parse::{parse_line, parse_number};
pub use reply::reply_text;
pub use request::{Request, Search};
pub use service::Service;
