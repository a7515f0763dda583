//! A session: the lines of one connection, answered by a service. Each line that has ended is
//! answered, and its reply written whole, before anything more is read, so that who sends a line and
//! waits gets its reply.
#![tactic(auto)]

mod answering;
mod laws;
mod serving;

pub use laws::{
    a_last_line_leaves_nothing, a_session_is_one_run_of_calls, failed_writes_cut_the_text,
    finds_without_memory_are_over, replies_come_after_their_lines, sessions_end_at_their_limit,
    sessions_end_by_their_bytes, sessions_that_are_done_found_the_end, spent_fronts_take_no_call,
    turns_write_their_replies,
};
pub use serving::{MOST_BYTES, serve_session};
