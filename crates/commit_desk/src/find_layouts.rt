//! Slices with one treatment and their layout: an entry of those that the desk keeps for all slices, and of those by which a find reads
//! the slices of its token.
ghost use Rattle.std.specs.Prelude.{◌≡◌, ◌≤◌, [], ◌∷◌, ◌++◌, IfOk, vec_capacity};

use crate::shared_layout::SharedLayout;
use funnel_model::{Memory, SliceSet};
use std::alloc::Global;

/// Slices with one treatment, and their layout.
#[derive(Debug, Drop)]
pub struct FindLayout {
    /// The number of the treatment: how many tunings had come when these slices were last cleared.
    pub number: u64,
    pub layout: SharedLayout,
    pub slices: SliceSet,
}

/// The slices of a find by their layouts, one entry for each treatment that some of them has.
#[derive(Debug, Drop)]
pub struct FindLayouts {
    pub entries: Vec<FindLayout>,
}

impl FindLayouts {
    /// No entry. It takes no memory.
    pub fn new(alloc: Global) -> FindLayouts
        ensures { result.entries.items ≡ [] }
    {
        FindLayouts {
            entries: Vec::new(alloc),
        }
    }

    /// No entry, with room for n: a find whose slices have no more treatments takes no memory for them. With room for each slice, none does.
    pub fn with_room(alloc: Global, n: usize) -> Result<FindLayouts, Memory>
        ensures empty { IfOk result (λ layouts. layouts.entries.items ≡ []) }
        ensures room { IfOk result (λ layouts. n ≤ vec_capacity layouts.entries) }
    {
        Ok(FindLayouts {
            entries: Vec::with_capacity(alloc, n)?,
        })
    }

    // One more entry. It never has less room than before.
    pub(crate) fn push(&mut self, entry: FindLayout) -> Result<(), Memory>
        ensures pushed { IfOk result (λ _. self.new.entries.items ≡ self.old.entries.items ++ entry ∷ []) }
        ensures room { vec_capacity self.old.entries ≤ vec_capacity self.new.entries }
    {
        self.entries.push(entry)?;
        Ok(())
    }
}
