//! The configuration of an engine, of bytes (`parse_config`) or read from a source (`read_config`): one JSON object, whose values are
//! whole numbers, and the listed words with their counts. What is read is hostile: a fault says why it is no configuration. The layers above use
//! that a configuration that was read is valid, with exactly the values of the object and the defaults of the keys that
//! it leaves out, and that a fault is the first in the order of faults that applies. The same is said of a text with new
//! statistics for a running engine, whose other values stay.
#![tactic(auto)]

mod fault;
mod kept;
mod key;
mod laws;
mod listing;
mod numbers;
mod object;
mod parsing;
mod reading;
mod tuning;
mod values;

pub use fault::ConfigFault;
pub use kept::Kept;
pub use key::{KEYS, Key, Limits};
pub use laws::{
    entries_are_in_byte_order, texts_are_tuned_by_what_they_give, the_empty_text_gives_defaults,
    tunings_change_statistics_alone,
};
pub use listing::is_word;
pub use parsing::parse_config;
pub use reading::read_config;
pub use tuning::read_tuning;
