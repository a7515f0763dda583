/// What became of a column since its slice was opened.
#[derive(Clone, Copy, Debug, PartialEq, Eq)]
pub enum Column {
    /// No pass has claimed it.
    Free,
    /// This pass has claimed it for a document.
    Pending(u32),
    /// Its document is live in it; the place of its add, and the number of the event that put it here.
    Live { place: u64, since: u64 },
    /// Its document was deleted or moved away; the place of its add, the number of the event that put it here, and that of
    /// the event that took it off.
    Over { place: u64, since: u64, until: u64 },
    /// The document for it was refused after all.
    Dropped,
}
