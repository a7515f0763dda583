//! The ranks of a word's rows.

ghost use Rattle.std.specs.Prelude.{◌≡◌, ◌<◌, ◌≤◌};
ghost use Rattle.funnel_model.specs.Treatment.{rank_of_row, rows_at_rank};

/// The rank of row `j` of the `count` shared rows of a word of this class. The last row has rank 0, and the others go
/// down by 2 from the highest rank that the class allows.
pub fn rank_of(class: u8, count: u8, max_rank: u8, j: u8) -> u8
    requires class { class ≤ 15 }
    requires max_rank { max_rank ≤ 6 }
    requires j { j < count }
    ensures value { result ≡ rank_of_row class count max_rank j }
    ensures bound { result ≤ max_rank }
{
    if j + 1 == count {
        0
    } else {
        max_rank
            .min(class.saturating_sub(3))
            .saturating_sub(j)
            .saturating_sub(j)
    }
}

/// How many of the `count` shared rows of a word of this class have this rank.
pub fn rows_at(class: u8, count: u8, max_rank: u8, rank: u8) -> u8
    requires class { class ≤ 15 }
    requires max_rank { max_rank ≤ 6 }
    ensures value { result ≡ rows_at_rank class count max_rank rank }
    ensures bound { result ≤ count }
{
    let mut rows = 0;
    for j in 0..count {
        if rank_of(class, count, max_rank, j) == rank {
            rows += 1;
        }
    }
    rows
}
