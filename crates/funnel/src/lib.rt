//! A search engine over a stream of documents: it answers which of them have every word of a query, or which a boolean query
//! keeps. This is the program as one call: [`funnel_main`] takes the words after the program's name, a configuration, an input,
//! an output and gates, and runs the command that the words are. It can be handed real streams, as the crate `funnel_program`
//! does, or streams in memory, as `program_tests` does.
//!
//! [`ports`], [`shares_port`] and [`idle`] tell on which ports a serve listens, whether that is one for all workers, and how
//! long its connections may wait, and [`gates_on`] makes the gates, before the call, which opens them. [`ProgramEnd`] is what a
//! program gives back: why it ended, which tells its exit status, its gates, and what is left of its engine.
//!
//! Words may ask for the help or the version alone ([`text_asked`]), which the program then writes on its output. What is wrong with
//! words that are neither is a [`UsageFault`].
#![tactic(auto)]

mod ends;
mod first_pass;
mod fitting;
mod laws;
mod listening;
mod port_list;
mod program;
mod running;
mod sampling;
mod serving;
mod text;
mod workload;

pub use command_line::{
    Command, CommandFault, FitCommand, LoadCommand, MOST_CONNECTIONS, MOST_FITTED, MOST_IDLE,
    MOST_PORT, ServeCommand, UsageFault, read_command, usage_fault,
    words_are_a_command_where_clap_takes_them,
};
pub use ends::{Misfit, ProgramEnd, Why};
pub use laws::{
    connections_without_a_fault_are_done, ends_are_told_with_their_turns,
    gate_faults_are_answers_of_gates, gates_come_back,
    gates_that_do_not_open_leave_their_connections,
    gates_that_stay_open_are_served_to_their_number, gates_without_a_fault_are_served,
    numbers_of_the_program, numbers_of_what_is_read, programs_without_a_fault_end_well,
    runs_take_every_call, the_calls_of_a_serve_are_those_of_its_sessions,
};
pub use listening::{gates_on, idle, ports, shares_port};
pub use port_list::Ports;
pub use program::funnel_main;
pub use text::{HELP, Text, VERSION, text_asked, words_for_a_text_are_no_command};
