//! What a layout takes from its configuration once.

ghost use Rattle.std.specs.Prelude.{◌≡◌, ℕ, ◌≤◌, ◌^◌, length, map, IfOk, slice_index};
ghost use Rattle.funnel_model.specs.declared.config.TheConstants.{MOST_ROW_WORDS};
ghost use Rattle.funnel_model.specs.Configuration.{IsInRange};
ghost use Rattle.funnel_model.specs.Sizes.{private_words, base_of_rank, row_table, width_of_rank, words_of_slice};
ghost use Rattle.row_layout.specs.Layouts.{word_rows};

use crate::word_rows::WordRows;
use funnel_model::{Config, Listed, Memory};
use std::alloc::Global;
use std::cmp::Ord;
use term_hash::RowCount;
use treatment::{Sizes, class};

/// A copy of a configuration.
pub(crate) fn copy_of(alloc: Global, config: &Config) -> Result<Config, Memory>
    ensures { IfOk result (λ copy. copy ≡ config.now) }
{
    let words = copy_of_words(alloc, &config.words)?;
    Ok(Config {
        passes: config.passes,
        slices: config.slices,
        blocks: config.blocks,
        max_rank: config.max_rank,
        commits: config.commits,
        reserve: config.reserve,
        one_in: config.one_in,
        snr: config.snr,
        documents: config.documents,
        tail: config.tail,
        max_rows: config.max_rows,
        private: config.private,
        words,
    })
}

/// A copy of listed words.
fn copy_of_words(alloc: Global, words: &Listed) -> Result<Listed, Memory>
    ensures { IfOk result (λ copy. copy ≡ words.now) }
{
    let mut copy = Vec::with_capacity(alloc, words.len())?;
    for (word, count) in words.as_slice() {
        copy.push((String::from_str(alloc, word.as_str())?, *count))?;
    }
    Ok(Listed::new(copy))
}

/// The rows of each listed word.
pub(crate) fn rows_of_listed(alloc: Global, config: &Config) -> Result<Vec<WordRows>, Memory>
    requires { IsInRange config.now }
    ensures { IfOk result (λ rows. rows.items ≡ map (λ entry. word_rows config.now entry.0) config.now.words) }
{
    let mut rows = Vec::with_capacity(alloc, config.words.len())?;
    let mut private = 0;
    for (_, count) in config.words.as_slice() {
        let class = class(*count, config.documents);
        if class <= config.private {
            rows.push(WordRows::Private(private))?;
            private += 1;
        } else {
            rows.push(WordRows::Shared(class))?;
        }
    }
    Ok(rows)
}

/// The numbers of rows of each rank. A rank without rows counts as one row.
pub(crate) fn row_counts(rows: &[u32; 7]) -> [RowCount; 7]
    ensures { (rank : ℕ) → 1 ≤ slice_index rows.now rank → slice_index result rank ≡ slice_index rows.now rank }
{
    [
        RowCount::new(rows[0].max(1)),
        RowCount::new(rows[1].max(1)),
        RowCount::new(rows[2].max(1)),
        RowCount::new(rows[3].max(1)),
        RowCount::new(rows[4].max(1)),
        RowCount::new(rows[5].max(1)),
        RowCount::new(rows[6].max(1)),
    ]
}

/// Where the rows of each rank begin in a slice.
pub(crate) fn bases_of(config: &Config, sizes: &Sizes) -> [u32; 7]
    requires in_range { IsInRange config.now }
    requires small { words_of_slice config.now ≤ MOST_ROW_WORDS }
    requires private { sizes.now.private ≡ length (private_words config.now) }
    requires rows { sizes.now.rows ≡ row_table config.now }
    ensures { (rank : ℕ) → rank ≤ config.now.max_rank → slice_index result rank ≡ base_of_rank config.now rank }
{
    let mut bases = [0; 7];
    let mut base = sizes.private * width_of(config, 0);
    for rank in 0..config.max_rank + 1 {
        bases[rank as usize] = base;
        base += sizes.rows[rank as usize] * width_of(config, rank);
    }
    bases
}

/// The words of a row of a rank in a slice.
pub(crate) fn width_of(config: &Config, rank: u8) -> u32
    requires range { IsInRange config.now }
    requires rank { rank ≤ config.now.max_rank }
    ensures value { result ≡ width_of_rank config.now rank }
    ensures positive { 1 ≤ result }
    ensures bound { result ≤ 2 ^ 12 }
{
    (1 << (config.max_rank - rank)) * config.blocks
}
