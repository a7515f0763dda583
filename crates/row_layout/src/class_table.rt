//! The rows of each class of words, which a layout counts once.

ghost use Rattle.std.specs.Prelude.{◌≡◌, ◌<◌, ◌≤◌, ℕ, [], length, slice_index, slice_index_or};
ghost use Rattle.funnel_model.specs.Configuration.{IsInRange};
ghost use Rattle.funnel_model.specs.Treatment.{row_count_of_class};
ghost use Rattle.row_layout.specs.Rows.{rank_in_class};

use funnel_model::Config;
use treatment::{LAST_CLASS, rank_of, row_count};

/// How many shared rows a word of each class has, and the rank of each of them.
#[derive(Debug, Drop)]
pub(crate) struct ClassTable {
    pub(crate) counts: [u8; 16],
    pub(crate) ranks: [[u8; 26]; 16],
}

impl ClassTable {
    ghost use Rattle.row_layout.specs.Layouts.{IsClassTable};

    /// Counts the rows of each class.
    pub(crate) fn new(config: &Config) -> ClassTable
        requires { IsInRange config.now }
        ensures { IsClassTable config.now result }
    {
        let counts = counts_of(config);
        let ranks = ranks_of(config);
        ClassTable { counts, ranks }
    }
}

/// The number of rows of each class.
fn counts_of(config: &Config) -> [u8; 16]
    requires { IsInRange config.now }
    ensures { (class : ℕ) → class ≤ 15 → slice_index result class ≡ row_count_of_class config.now.one_in config.now.snr class }
{
    let mut counts = [0; 16];
    for class in 0..LAST_CLASS + 1 {
        counts[class as usize] = row_count(class, config.one_in, config.snr);
    }
    counts
}

/// The ranks of the shared rows of each class.
fn ranks_of(config: &Config) -> [[u8; 26]; 16]
    requires { IsInRange config.now }
    ensures ranks { (class j : ℕ) → class ≤ 15 → j < row_count_of_class config.now.one_in config.now.snr class →
        slice_index (slice_index_or result class []) j ≡ rank_in_class config.now class j }
    ensures low { (class j : ℕ) → class ≤ 15 → j < row_count_of_class config.now.one_in config.now.snr class →
        slice_index (slice_index_or result class []) j ≤ config.now.max_rank }
{
    let mut ranks = [[0; 26]; 16];
    for class in 0..LAST_CLASS + 1 {
        ranks[class as usize] = ranks_in_class(config, class);
    }
    ranks
}

/// The ranks of the rows of this class.
fn ranks_in_class(config: &Config, class: u8) -> [u8; 26]
    requires in_range { IsInRange config.now }
    requires class { class ≤ 15 }
    ensures ranks { (j : ℕ) → j < row_count_of_class config.now.one_in config.now.snr class → slice_index result j ≡ rank_in_class config.now class j }
    ensures low { (j : ℕ) → j < row_count_of_class config.now.one_in config.now.snr class → slice_index result j ≤ config.now.max_rank }
{
    let count = row_count(class, config.one_in, config.snr);
    let mut ranks = [0; 26];
    for j in 0..count {
        ranks[j as usize] = rank_of(class, count, config.max_rank, j);
    }
    ranks
}
