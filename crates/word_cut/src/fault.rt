ghost use Rattle.std.specs.Prelude.{Some, codes};

use funnel_model::Memory;
use std::alloc::{AllocError, AllocFailed};
use std::error::Error;
use std::fmt;

/// Why a text was not cut.
#[derive(Clone, Copy, Debug, PartialEq, Eq)]
pub enum WordFault {
    /// No memory was found for the words.
    Memory,
}

impl fmt::Display for WordFault {
    ghost output = { λ _. Some (codes "out of memory") };

    fn fmt<W: fmt::Write>(&self, f: &mut fmt::Formatter<W>) -> fmt::Result {
        f.write_str("out of memory")
    }
}

impl Error for WordFault {}

impl From<Memory> for WordFault {
    fn from(_error: Memory) -> Self {
        WordFault::Memory
    }
}

impl From<AllocError> for WordFault {
    fn from(_error: AllocError) -> Self {
        WordFault::Memory
    }
}

impl<T: Drop> From<AllocFailed<T>> for WordFault {
    fn from(_error: AllocFailed<T>) -> Self {
        WordFault::Memory
    }
}
