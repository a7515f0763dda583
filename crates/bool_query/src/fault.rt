ghost use Rattle.std.specs.Prelude.{◌≡◌};
ghost use Rattle.bool_query.specs.declared.fault.QueryFault.TheVariants.{Memory};

use std::alloc::{AllocError, AllocFailed};
use std::error::Error;
use std::fmt;

/// Why a text was not read as a query. Places are bytes of the text.
#[derive(Clone, Copy, Debug, PartialEq, Eq)]
pub enum QueryFault {
    /// A token starts here that can't stand where it does, and it is the first; or the text, which ends here, ends too early.
    Syntax(u64),
    /// A `(` or `-` starts here that is the first to open a 65th level.
    Deep(u64),
    /// No memory was found for the expression.
    Memory,
}

impl fmt::Display for QueryFault {
    fn fmt<W: fmt::Write>(&self, f: &mut fmt::Formatter<W>) -> fmt::Result {
        match self {
            QueryFault::Syntax(at) => write!(f, "no query at byte {at}"),
            QueryFault::Deep(at) => write!(f, "too many levels at byte {at}"),
            QueryFault::Memory => f.write_str("out of memory"),
        }
    }
}

impl Error for QueryFault {}

impl From<AllocError> for QueryFault {
    ghost from_gives = { λ _ e. e ≡ Memory };

    fn from(_error: AllocError) -> Self {
        QueryFault::Memory
    }
}

impl<T: Drop> From<AllocFailed<T>> for QueryFault {
    ghost from_gives = { λ _ e. e ≡ Memory };

    fn from(_error: AllocFailed<T>) -> Self {
        QueryFault::Memory
    }
}

impl From<funnel_model::Memory> for QueryFault {
    ghost from_gives = { λ _ e. e ≡ Memory };

    fn from(_error: funnel_model::Memory) -> Self {
        QueryFault::Memory
    }
}
