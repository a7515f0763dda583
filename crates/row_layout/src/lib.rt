//! Where the rows of a word lie in a slice, and which bits a document sets in them.
//!
//! A slice has its private rows first, one for each very common listed word, and then the shared rows of each rank. A
//! row of rank r has one bit for 2^r columns. Behind its rows a slice may have room to spare, as where an engine got new
//! statistics by which it needs fewer rows. The layers above take from here a word's rows, the bits of a document at any
//! column, and the type of a query's plan; every answer is exact by the definitions on the configuration and the room.
#![tactic(auto)]

mod bits;
mod class_table;
mod column_places;
mod fault;
mod laws;
mod layout;
mod listed_rows;
mod looking_up;
mod plan;
mod row;
mod search_plan;
mod word_rows;
mod word_table;

pub use bits::{Bits, fill_bits};
pub use fault::LayoutFault;
pub use laws::{
    columns_have_the_bits_of_their_events, documents_have_bits_of_parts,
    documents_have_one_list_of_bits, documents_keep_their_bits, each_row_has_its_bit,
    histories_are_sound_event_by_event, owned_bits_have_one_owner, owned_bits_tell_words,
    read_searches_tell_texts, set_bits_tell_words,
};
pub use layout::Layout;
pub use plan::Plan;
pub use row::{MOST_ROWS, Row};
pub use search_plan::{Node, NodeKind, SearchPlan};
