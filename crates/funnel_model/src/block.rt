/// Why no document can be taken into a slice.
#[derive(Clone, Copy, Debug, PartialEq, Eq)]
pub enum Block {
    /// The document of this column is live. It is the lowest column that is live or pending.
    Live { column: u32 },
    /// The pass has claimed this column for a document. It is the lowest column that is live or pending.
    Pending { column: u32, pass: u32 },
    /// Each column of the slice is over. This is the lowest pass that runs a find begun before the slice retired,
    /// and the number of the event that began it.
    Guarded { pass: u32, opened_at: u64 },
    /// The pass is clearing the slice.
    Clearing { pass: u32 },
}
