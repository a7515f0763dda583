//! An HTTP front of the engine: the requests of one connection (RFC 9112), answered by a service. A request's head and
//! body are read into one buffer and parsed where they lie. Each response is written whole, at one go, before anything
//! more is read than the next request needs, so pipelined requests are answered in order. Heads are read by `httparse`,
//! bodies by `json`.
#![tactic(auto)]

mod answering;
mod buffer;
mod cause;
mod closing;
mod document;
mod fields;
mod framing;
mod head_end;
mod keys;
mod laws;
mod measures;
mod numbers;
mod outcome;
mod query;
mod response;
mod routing;
mod serving;
mod texts;

pub use cause::Cause;
pub use framing::{MAX_BODY, MAX_FIELDS, MAX_HEAD};
pub use laws::{
    a_connection_is_one_run_of_calls, bytes_have_one_list_of_requests,
    responses_come_after_their_requests, turns_write_their_responses,
};
pub use outcome::{Outcome, Shape};
pub use serving::serve_http;
