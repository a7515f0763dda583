/// How large the rows, a slice and the pool of a configuration are.
#[derive(Debug, Clone, Copy, PartialEq, Eq, Drop)]
pub struct Sizes {
    /// The private rows: one for each listed word of a class up to `private`.
    pub private: u32,
    /// The shared rows of each rank from 0 to 6, and 0 above the highest rank.
    pub rows: [u32; 7],
    /// The words of all rows in one slice.
    pub slice_words: u64,
    /// The words of all rows in all slices.
    pub pool_words: u64,
    /// The columns of all slices.
    pub columns: u64,
}
