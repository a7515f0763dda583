//! What an engine keeps of documents beside their bits: the document in each column and what became of it, and the
//! column of each live number. A find resolves its candidates here: those that were live in their columns as it
//! began and are kept by its judge, as that of a set of words which each has to have, are the answer, in the order
//! in which they were added.
#![tactic(auto)]

mod column;
mod doc;
mod found;
mod judging;
mod leaving;
mod live_list;
mod records;
mod resolving;
mod slots;

pub use column::Column;
pub use doc::{Doc, verify};
pub use found::Found;
pub use judging::{Judge, LEAST_COST};
pub use leaving::Leaving;
pub use live_list::LiveList;
pub use records::Records;
pub use resolving::{MOST_LOOK_UPS, MOST_LOOKED_FOR, resolve_part};
pub use slots::{FreeSlots, OldSlots, Slot};
