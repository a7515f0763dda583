//! Laws of a load. Each is the contract of a function that does nothing, and is over definitions alone.
//!
//! The calls of a load that one worker makes are answered as the load's summary tells, where the worker's pass is alone in its
//! history: `whole_load` says so. It rests on two other parts. `lone_pass` says that a pass that is alone, in a history that moves
//! nothing, is answered as by a plain list of documents, and `plain_texts` which words the generated texts have. `workers` says of any number of workers that
//! they are answered as the summary tells, where each part of the load came whole before the next one.
#![tactic(auto)]

mod lone_pass;
mod plain_texts;
mod whole_load;
mod workers;

pub use lone_pass::{
    a_pass_is_alone_where_no_other_has_events, a_small_load_is_made, adds_are_committed,
    calls_and_moves_make_at_most_four_events, deletes_are_committed, finds_are_answered,
    loads_are_answered_as_by_a_list, loads_go_on, queries_find_what_meets_them,
};
pub use plain_texts::{names_find_their_own_text, plain_texts_have_their_pieces_as_words};
pub use whole_load::{
    example_replies, loads_are_answered_as_told, loads_are_short, loads_fit, loads_miss_nothing,
    loads_move_nothing, one_more_document_is_walked, one_worker_walks_the_documents,
};
pub use workers::{
    a_load_of_two_workers_is_made, deletes_and_queries_move_nothing, loads_of_workers_are_short,
    loads_of_workers_move_nothing, shares_tell_the_results, workers_are_answered_as_told,
    workers_leave_what_is_not_deleted, workers_that_meet_at_last_have_seen_all,
    workers_that_meet_keep_to_the_parts,
};
