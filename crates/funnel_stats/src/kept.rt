ghost use Rattle.std.specs.Prelude.{◌≡◌};
ghost use Rattle.funnel_stats.specs.Values.{kept};

use std::fmt;

/// What a fault keeps of a value.
#[derive(Clone, Copy, Debug, PartialEq, Eq, Drop)]
pub enum Kept {
    /// A whole number from 0 to 2^64 - 1, written without sign, point or exponent, or how many words are listed.
    Number(u64),
    /// Any other value.
    Other,
}

impl From<Option<u64>> for Kept {
    ghost from_gives = { λ number result. result ≡ kept number };

    fn from(number: Option<u64>) -> Self {
        match number {
            Some(n) => Kept::Number(n),
            None => Kept::Other,
        }
    }
}

impl fmt::Display for Kept {
    fn fmt<W: fmt::Write>(&self, f: &mut fmt::Formatter<W>) -> fmt::Result {
        match self {
            Kept::Number(n) => write!(f, "{n}"),
            Kept::Other => f.write_str("another value"),
        }
    }
}
