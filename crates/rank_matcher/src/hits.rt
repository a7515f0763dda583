ghost use Rattle.std.specs.Prelude.{◌≡◌, []};

use funnel_model::Candidates;
use std::alloc::Global;

/// The columns that scans for a search found: those where the search is sure to keep a document that has the required words, and those
/// where it only may.
#[derive(Debug, Drop)]
pub struct Hits {
    pub sure: Candidates,
    pub unsure: Candidates,
    /// The columns of the slice that is scanned, which the required words leave. It keeps its memory from slice to slice.
    pub(crate) left: Candidates,
}

impl Hits {
    /// None. It takes no memory.
    pub fn new(alloc: Global) -> Hits
        ensures sure { result.sure ≡ [] }
        ensures unsure { result.unsure ≡ [] }
    {
        Hits {
            sure: Candidates::new(Vec::new(alloc)),
            unsure: Candidates::new(Vec::new(alloc)),
            left: Candidates::new(Vec::new(alloc)),
        }
    }
}
