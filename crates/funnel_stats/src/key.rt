ghost use Rattle.std.specs.Prelude.{◌≡◌, ◌≤◌, ◌&&◌, nat_le};
ghost use Rattle.funnel_stats.specs.Keys.{name_of, range_of, is_name};

use funnel_model::{
    LEAST_ONE_IN, MOST_BLOCKS, MOST_COMMITS, MOST_DOCUMENTS, MOST_MAX_ROWS, MOST_ONE_IN,
    MOST_PASSES, MOST_PRIVATE, MOST_RANK, MOST_RESERVE, MOST_SLICES, MOST_SNR, MOST_TAIL,
    MOST_WORDS,
};

/// A key of a configuration. The order of the variants is that of the table of keys.
#[derive(Clone, Copy, Debug, PartialEq, Eq, Drop)]
pub enum Key {
    /// The number of passes.
    Passes,
    /// The number of slices of the pool.
    Slices,
    /// The words that a row of the highest rank has in a slice.
    Blocks,
    /// The highest rank of a row.
    MaxRank,
    /// The commits that the journal keeps, which are the last ones.
    Commits,
    /// The columns that are kept free.
    Reserve,
    /// One bit in this many is set in a shared row.
    OneIn,
    /// The wanted ratio of signal to noise.
    Snr,
    /// The documents of the corpus that was counted.
    Documents,
    /// The unlisted words of a document.
    Tail,
    /// The greatest number of shared rows of one rank.
    MaxRows,
    /// The highest class of listed words that have a row of their own.
    Private,
    /// The listed words with their counts.
    Words,
}

/// The numbers that a key takes, and the one that stands where the key is left out. Of the listed words this is how many
/// they are.
#[derive(Clone, Copy, Debug, PartialEq, Eq, Drop)]
pub struct Limits {
    /// The least number.
    pub least: u64,
    /// The greatest number.
    pub greatest: u64,
    /// The number of a key that is left out.
    pub default: u64,
}

impl Limits {
    /// Whether the number is one of them.
    pub fn contain(&self, n: u64) -> bool
        ensures { result ≡ (nat_le self.now.least n && nat_le n self.now.greatest) }
    {
        self.least <= n && n <= self.greatest
    }
}

// The numbers of the keys that are left out.
const PASSES: u64 = 2;

const SLICES: u64 = 2;

const BLOCKS: u64 = 1;

const MAX_RANK: u64 = 0;

const COMMITS: u64 = 1_024;

const RESERVE: u64 = 0;

const ONE_IN: u64 = 10;

const SNR: u64 = 10;

const DOCUMENTS: u64 = 1_000;

const TAIL: u64 = 10;

const MAX_ROWS: u64 = 65_536;

const PRIVATE: u64 = 2;

/// All keys in the order of the table.
pub const KEYS: [Key; 13] = [
    Key::Passes,
    Key::Slices,
    Key::Blocks,
    Key::MaxRank,
    Key::Commits,
    Key::Reserve,
    Key::OneIn,
    Key::Snr,
    Key::Documents,
    Key::Tail,
    Key::MaxRows,
    Key::Private,
    Key::Words,
];

/// The keys of the statistics, which a tuning may have.
pub const STATISTIC_KEYS: [Key; 7] = [
    Key::OneIn,
    Key::Snr,
    Key::Documents,
    Key::Tail,
    Key::MaxRows,
    Key::Private,
    Key::Words,
];

impl Key {
    /// Its name in a configuration.
    pub fn name(self) -> &'static str
        ensures { result.now ≡ name_of self }
    {
        match self {
            Key::Passes => "passes",
            Key::Slices => "slices",
            Key::Blocks => "blocks",
            Key::MaxRank => "max_rank",
            Key::Commits => "commits",
            Key::Reserve => "reserve",
            Key::OneIn => "one_in",
            Key::Snr => "snr",
            Key::Documents => "documents",
            Key::Tail => "tail",
            Key::MaxRows => "max_rows",
            Key::Private => "private",
            Key::Words => "words",
        }
    }

    /// The numbers that it takes.
    pub fn limits(self) -> Limits
        ensures value { result ≡ range_of self }
        ensures low { result.least ≤ result.default }
        ensures high { result.default ≤ result.greatest }
    {
        let (least, greatest, default) = match self {
            Key::Passes => (1, MOST_PASSES as u64, PASSES),
            Key::Slices => (1, MOST_SLICES as u64, SLICES),
            Key::Blocks => (1, MOST_BLOCKS as u64, BLOCKS),
            Key::MaxRank => (0, MOST_RANK as u64, MAX_RANK),
            Key::Commits => (1, MOST_COMMITS, COMMITS),
            Key::Reserve => (0, MOST_RESERVE as u64, RESERVE),
            Key::OneIn => (LEAST_ONE_IN, MOST_ONE_IN, ONE_IN),
            Key::Snr => (1, MOST_SNR, SNR),
            Key::Documents => (1, MOST_DOCUMENTS, DOCUMENTS),
            Key::Tail => (0, MOST_TAIL, TAIL),
            Key::MaxRows => (1, MOST_MAX_ROWS as u64, MAX_ROWS),
            Key::Private => (0, MOST_PRIVATE as u64, PRIVATE),
            Key::Words => (0, MOST_WORDS, 0),
        };
        Limits {
            least,
            greatest,
            default,
        }
    }
}

/// Whether one of the keys has this name.
pub fn is_name(known: &[Key], name: &str) -> bool
    ensures { result ≡ is_name known.now name.now }
{
    known.iter().any(|key| key.name() == name)
}
