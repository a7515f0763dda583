ghost use Rattle.std.specs.Prelude.{◌≡◌, ◌++◌, [], ◌∷◌, length, OnErr, OnOk};

use crate::memory::Memory;
use std::marker::Model;

/// Columns whose documents may meet a query, as pairs of slice and column. Contracts see them as a list.
#[derive(Debug, Drop)]
pub struct Candidates {
    columns: Vec<(u32, u32)>,
}

impl Model for Candidates {
    ghost use Rattle.std.specs.Prelude.{ℕ, List};

    ghost Value = { List (ℕ × ℕ) };

    ghost view = { λ l. l.columns.items };
}

impl Candidates {
    pub fn new(columns: Vec<(u32, u32)>) -> Self
        ensures { result ≡ columns.items }
    {
        Candidates { columns }
    }

    pub fn len(&self) -> usize
        ensures { result ≡ length self.now }
    {
        self.columns.len()
    }

    pub fn as_slice(&self) -> &[(u32, u32)]
        ensures { result.now ≡ self.now }
    {
        self.columns.as_slice()
    }

    /// Adds a column of a slice.
    pub fn push(&mut self, slice: u32, column: u32) -> Result<(), Memory>
        ensures added { OnOk result (self.new ≡ self.old ++ (slice, column) ∷ []) }
        ensures same { OnErr result (self.new ≡ self.old) }
    {
        self.columns.push((slice, column))?;
        Ok(())
    }

    /// Takes all out. It keeps its memory.
    pub fn clear(&mut self)
        ensures { self.new ≡ [] }
    {
        self.columns.clear();
    }

    /// The pairs that it was made of.
    pub fn into_inner(self) -> Vec<(u32, u32)>
        ensures { result.items ≡ self }
    {
        self.columns
    }
}
