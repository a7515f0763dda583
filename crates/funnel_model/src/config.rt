use crate::listed::Listed;

/// The most passes.
pub const MOST_PASSES: u32 = 64;

/// The most slices.
pub const MOST_SLICES: u32 = 1_024;

/// The most words of a row of the highest rank in a slice.
pub const MOST_BLOCKS: u32 = 64;

/// The highest rank that a row may have.
pub const MOST_RANK: u8 = 6;

/// The most commits that a journal keeps.
pub const MOST_COMMITS: u64 = 16_777_216;

/// The most columns that are kept free.
pub const MOST_RESERVE: u32 = 4_194_304;

/// The least number of bits of a shared row of which one is set.
pub const LEAST_ONE_IN: u64 = 2;

/// The greatest number of bits of a shared row of which one is set.
pub const MOST_ONE_IN: u64 = 20;

/// The greatest wanted ratio of signal to noise.
pub const MOST_SNR: u64 = 1_000;

/// The most documents of a corpus that was counted.
pub const MOST_DOCUMENTS: u64 = 4_294_967_296;

/// The most unlisted words of a document.
pub const MOST_TAIL: u64 = 100_000;

/// The greatest number that `max_rows` may be.
pub const MOST_MAX_ROWS: u32 = 1_048_576;

/// The highest class of listed words that have a row of their own.
pub const MOST_PRIVATE: u8 = 15;

/// The most listed words.
pub const MOST_WORDS: u64 = 65_536;

/// The most columns over all slices.
pub const MOST_COLUMNS: u64 = 4_194_304;

/// The most row words over all slices.
pub const MOST_ROW_WORDS: u64 = 33_554_432;

/// How an engine is laid out, and how its words are treated.
#[derive(Debug, Drop)]
pub struct Config {
    /// The number of passes, each of which one caller uses: 1 to [`MOST_PASSES`].
    pub passes: u32,
    /// The number of slices of the pool: 1 to [`MOST_SLICES`].
    pub slices: u32,
    /// The words that a row of the highest rank has in a slice: 1 to [`MOST_BLOCKS`].
    pub blocks: u32,
    /// The highest rank of a row: 0 to [`MOST_RANK`].
    pub max_rank: u8,
    /// The commits that the journal keeps, which are the last ones: 1 to [`MOST_COMMITS`].
    pub commits: u64,
    /// The columns that are kept free: 0 to [`MOST_RESERVE`].
    pub reserve: u32,
    /// One bit in this many is set in a shared row: [`LEAST_ONE_IN`] to [`MOST_ONE_IN`].
    pub one_in: u64,
    /// The wanted ratio of signal to noise: 1 to [`MOST_SNR`].
    pub snr: u64,
    /// The documents of the corpus that was counted: 1 to [`MOST_DOCUMENTS`].
    pub documents: u64,
    /// The unlisted words of a document: 0 to [`MOST_TAIL`].
    pub tail: u64,
    /// The greatest number of shared rows of one rank: 1 to [`MOST_MAX_ROWS`].
    pub max_rows: u32,
    /// The highest class of the listed words that have a row of their own: 0 to [`MOST_PRIVATE`].
    pub private: u8,
    /// The listed words, each with the number of those documents that hold it: at most
    /// [`MOST_WORDS`] of them.
    pub words: Listed,
}
