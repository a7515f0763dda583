//! How many slices documents need, and of which rank.

ghost use Rattle.std.specs.Prelude.{◌≤◌, ◌<◌, ◌^◌, ◌↔◌, IsTrue};
ghost use Rattle.funnel_model.specs.declared.config.TheConstants.{MOST_COLUMNS};
ghost use Rattle.fit.specs.Shapes.{IsBestRank, IsLeastRoom, Serves};

use funnel_model::MOST_RANK;

/// A rank above 0 serves where it makes at least so many slices: with fewer, one slice is too large a part of all.
const LEAST_SLICES: u64 = 16;

/// The least number of slices of this rank that have room for the documents, in whatever order they are replaced.
pub(crate) fn slices_at(documents: u32, rank: u8) -> u64
    requires some { 1 ≤ documents }
    requires few { documents ≤ MOST_COLUMNS }
    requires rank { rank ≤ 6 }
    ensures least { IsLeastRoom documents rank result }
    ensures small { result < 2 ^ 32 }
{
    let columns: u64 = (64 << rank) - 1;
    1 + (17 * u64::from(documents)).div_ceil(columns * 16)
}

/// Whether the rank serves the documents.
fn serves(documents: u32, rank: u8) -> bool
    requires some { 1 ≤ documents }
    requires few { documents ≤ MOST_COLUMNS }
    requires rank { rank ≤ 6 }
    ensures { IsTrue result ↔ Serves documents rank }
{
    rank == 0 || slices_at(documents, rank) >= LEAST_SLICES
}

/// The greatest rank that serves the documents.
pub(crate) fn best_rank(documents: u32) -> u8
    requires some { 1 ≤ documents }
    requires few { documents ≤ MOST_COLUMNS }
    ensures { IsBestRank documents result }
{
    let mut rank = MOST_RANK;
    while !serves(documents, rank) {
        rank -= 1;
    }
    rank
}
