use crate::slice_set::SliceSet;

/// A column that a pass has claimed for a document that it adds or moves there, if it doesn't leave it without. It must be spent.
#[derive(Debug)]
pub struct Claim {
    pub slice: u32,
    pub column: u32,
}

/// A slice that a pass is clearing, and which it opens afterwards. It must be spent.
#[derive(Debug)]
pub struct ClearJob {
    pub slice: u32,
}

/// What a running find holds. While it is open, no slice is cleared that the find may read. It must be spent.
#[derive(Debug)]
pub struct Token {
    /// The number of commits before the find.
    pub place: u64,
    /// The number of the event that began the find, from 1.
    pub opened_at: u64,
    /// The slices that the find may read.
    pub slices: SliceSet,
}
