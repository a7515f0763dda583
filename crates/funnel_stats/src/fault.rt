ghost use Rattle.std.specs.Prelude.{◌≡◌};
ghost use Rattle.funnel_stats.specs.declared.fault.ConfigFault.TheVariants.{Memory};
ghost use Rattle.funnel_stats.specs.FaultNumbers.{number_of_fault};

use crate::kept::Kept;
use crate::key::Key;
use funnel_model::Text;
use std::alloc::{AllocError, AllocFailed};
use std::error::Error;
use std::fmt;
use word_cut::WordFault;

/// Why no configuration was read. Where several faults apply the one that stands first here is answered; want of memory
/// may be answered at any time.
#[derive(Debug, Drop)]
pub enum ConfigFault {
    /// A read failed.
    ReadFault,
    /// The source has more bytes than this.
    TooLong(u64),
    /// The bytes are no JSON object in UTF-8 that nests at most 127 deep, or a number in it is too large for a float of
    /// 64 bits.
    NotJson,
    /// The object has this key, which no configuration has, or which is no statistic, in a tuning.
    UnknownKey(Text),
    /// The value of the key is not of its kind, or not in its range.
    BadValue(Key, Kept),
    /// This text is listed, and is not one folded word.
    NotWord(Text),
    /// The count of this listed word is not a whole number from 1 to the number of documents.
    WordCount(Text, Kept),
    /// All slices together have so many columns.
    TooManyColumns(u64),
    /// The rows of the pool have so many words.
    PoolTooLarge(u64),
    /// No memory was found.
    Memory,
}

impl ConfigFault {
    /// Its number, from 1 on, in the order of the faults.
    pub fn number(&self) -> u8
        ensures { result ≡ number_of_fault self.now }
    {
        match self {
            ConfigFault::ReadFault => 1,
            ConfigFault::TooLong(_) => 2,
            ConfigFault::NotJson => 3,
            ConfigFault::UnknownKey(_) => 4,
            ConfigFault::BadValue(_, _) => 5,
            ConfigFault::NotWord(_) => 6,
            ConfigFault::WordCount(_, _) => 7,
            ConfigFault::TooManyColumns(_) => 8,
            ConfigFault::PoolTooLarge(_) => 9,
            ConfigFault::Memory => 10,
        }
    }
}

impl fmt::Display for ConfigFault {
    fn fmt<W: fmt::Write>(&self, f: &mut fmt::Formatter<W>) -> fmt::Result {
        match self {
            ConfigFault::ReadFault => f.write_str("a read failed"),
            ConfigFault::TooLong(limit) => write!(f, "more than {limit} bytes"),
            ConfigFault::NotJson => f.write_str("no JSON object"),
            ConfigFault::UnknownKey(key) => write!(f, "unknown key {:?}", key.as_str()),
            ConfigFault::BadValue(key, kept) => write!(f, "{} is {kept}", key.name()),
            ConfigFault::NotWord(text) => write!(f, "{:?} is no folded word", text.as_str()),
            ConfigFault::WordCount(word, kept) => {
                write!(f, "the count of {:?} is {kept}", word.as_str())
            }
            ConfigFault::TooManyColumns(columns) => write!(f, "{columns} columns"),
            ConfigFault::PoolTooLarge(words) => write!(f, "{words} words in the pool"),
            ConfigFault::Memory => f.write_str("out of memory"),
        }
    }
}

impl Error for ConfigFault {}

impl From<AllocError> for ConfigFault {
    ghost from_gives = { λ _ fault. fault ≡ Memory };

    fn from(_error: AllocError) -> Self {
        ConfigFault::Memory
    }
}

impl<T: Drop> From<AllocFailed<T>> for ConfigFault {
    ghost from_gives = { λ _ fault. fault ≡ Memory };

    fn from(_error: AllocFailed<T>) -> Self {
        ConfigFault::Memory
    }
}

impl From<funnel_model::Memory> for ConfigFault {
    ghost from_gives = { λ _ fault. fault ≡ Memory };

    fn from(_error: funnel_model::Memory) -> Self {
        ConfigFault::Memory
    }
}

impl From<WordFault> for ConfigFault {
    ghost from_gives = { λ _ fault. fault ≡ Memory };

    fn from(fault: WordFault) -> Self {
        match fault {
            WordFault::Memory => ConfigFault::Memory,
        }
    }
}
