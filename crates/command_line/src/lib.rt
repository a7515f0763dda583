//! The command line of funnel: which command the words after the program's name are. [`read_command`] reads them by `clap`, whose
//! own definitions tell what each list of words comes to, and [`usage_fault`] says what is wrong with words that are none.
#![tactic(auto)]

mod command;
mod usage;

pub use command::{
    Command, CommandFault, FitCommand, LoadCommand, MOST_CONNECTIONS, MOST_FITTED, MOST_IDLE,
    MOST_PORT, ServeCommand, read_command, words_are_a_command_where_clap_takes_them,
};
pub use usage::{UsageFault, usage_fault};
