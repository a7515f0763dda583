/// How full an engine is, in numbers.
#[derive(Clone, Copy, Debug, PartialEq, Eq)]
pub struct Stats {
    /// The documents that are live.
    pub documents: u64,
    /// The commits so far.
    pub place: u64,
    /// The commits before those that the journal keeps.
    pub base: u64,
    /// The columns of all slices.
    pub columns: u64,
    /// Those of them that are unclaimed. A column that is over is none of these until its slice is opened again.
    pub free: u64,
    /// The slices that are retired.
    pub retired: u64,
    /// The finds that are running.
    pub finds: u64,
}
