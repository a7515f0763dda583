//! The desk: what the lock of an engine holds. Every event of the history is made here, one call at a time.
//!
//! Beside the pool's home, which stands for the history, the desk keeps what answers calls by that history: the journal
//! of its last commits, the records of its columns, the live numbers, the tokens of running finds, and how far each slice is.
//! Each call makes the events that its contract names, in the order of the checks that it names too, and afterwards the
//! pass that made it has seen the whole history. All memory is taken when the desk is made, but for that of a journal's
//! answer, of the copy of a document that is looked at to move it, and of the layouts of a find's slices. Sharing a layout may be
//! refused too, where it has too many owners; then the call makes no event.
#![tactic(auto)]

mod adding;
mod answers;
mod clearing;
mod deleting;
mod desk;
mod entries;
mod find_layouts;
mod finding;
mod gone;
mod journal;
pub mod laws;
mod leaving;
mod look;
mod making;
mod moving;
mod named;
mod reading;
mod refusing;
mod shared_layout;
mod slice_layouts;
mod tuning;

pub use answers::{
    AddFault, ClearRefusal, CommitFault, DeleteFault, EndedMove, FindFault, JournalFault, NotTaken,
    Put, Spent, Taken, TakenMove, TextRead, ToClear,
};
pub use desk::Desk;
pub use find_layouts::{FindLayout, FindLayouts};
pub use finding::Part;
pub use gone::{Gone, MOST_FREED};
pub use look::{Look, Looks, OpenLook};
pub use named::Named;
pub use shared_layout::SharedLayout;
