ghost use Rattle.std.specs.Prelude.{◌≡◌, ◌≤◌, ◌<◌, ◌%◌};

use std::marker::Model;

/// A number of rows, which brings a hash below it by two products, as a division takes several times as long (Granlund and
/// Montgomery, "Division by Invariant Integers using Multiplication", PLDI 1994). Contracts see the number.
#[derive(Debug, Drop)]
pub struct RowCount {
    rows: u32,
    /// 2^64 - 1 divided by the number.
    reciprocal: u64,
}

impl Model for RowCount {
    ghost use Rattle.std.specs.Prelude.{◌≡◌, ◌≤◌, ◌/◌, ℕ};

    ghost Value = { ℕ };

    ghost view = { λ r. r.rows };

    ghost invariant = { λ r. (1 ≤ r.rows) × (r.reciprocal ≡ 18446744073709551615 / r.rows) };
}

impl RowCount {
    /// So many rows.
    pub fn new(rows: u32) -> RowCount
        requires { 1 ≤ rows }
        ensures { result ≡ rows }
    {
        RowCount {
            rows,
            reciprocal: u64::MAX / u64::from(rows),
        }
    }

    /// What is left of a hash modulo the number of rows.
    pub(crate) fn remainder(&self, hash: u64) -> u32
        ensures value { result ≡ hash % self.now }
        ensures within { result < self.now }
    {
        let rows = u64::from(self.rows);
        let quotient = (u128::from(hash) * u128::from(self.reciprocal) >> 64) as u64;
        // The quotient is at most one too low.
        let rest = hash - quotient * rows;
        if rest < rows {
            rest as u32
        } else {
            (rest - rows) as u32
        }
    }
}
