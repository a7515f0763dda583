//! What the bits of one column have in common.
ghost use Rattle.std.specs.Prelude.{◌≡◌, ◌+◌, ◌*◌, ◌/◌, ◌^◌, ◌<◌};
ghost use Rattle.row_layout.specs.ColumnPlaces.{ArePlaces};
ghost use Rattle.row_layout.specs.Rows.{IsRowOf};
ghost use Rattle.row_layout.specs.declared.row.Row.{Row};

use crate::layout::Layout;
use crate::listed_rows::width_of;

/// Where the bits of one column stand in the rows of each rank, which is worked out once for all words of a document.
#[derive(Debug, Drop)]
pub(crate) struct ColumnPlaces {
    /// The first word of the column's slice in the pool.
    pub(crate) first: u32,
    pub(crate) column: u32,
    /// The word of the column in the first shared row of each rank.
    pub(crate) words: [u32; 7],
    /// The words of a row of each rank.
    pub(crate) widths: [u32; 7],
}

impl Layout {
    /// The places of a column of the slice that begins at the pool's word `first`.
    pub(crate) fn places(&self, first: u32, column: u32) -> ColumnPlaces
        requires { (row : Row) → IsRowOf self.now.config row → first + row.start + column / (64 * 2 ^ row.rank) < 2 ^ 32 }
        ensures first { result.first ≡ first }
        ensures column { result.column ≡ column }
        ensures places { ArePlaces self.now.config result }
    {
        let mut words = [0; 7];
        let mut widths = [0; 7];
        for rank in 0..self.config.max_rank + 1 {
            words[rank as usize] = first + self.bases[rank as usize] + column / (64 << rank);
            widths[rank as usize] = width_of(&self.config, rank);
        }
        ColumnPlaces {
            first,
            column,
            words,
            widths,
        }
    }
}
