//! The sizes of a configuration.

ghost use Rattle.std.specs.Prelude.{◌≡◌, ℕ, ◌+◌, ◌*◌, ◌<◌, ◌≤◌, ◌^◌, length};
ghost use Rattle.funnel_model.specs.declared.config.TheConstants.{MOST_MAX_ROWS};
ghost use Rattle.funnel_model.specs.Configuration.{IsInRange};
ghost use Rattle.funnel_model.specs.Sizes.{private_words, row_table, shared_rows, bits_at_rank, width_of_rank, words_of_slice, words_of_pool, columns_of_pool};

use crate::classes::{LAST_CLASS, row_count};
use crate::demands::demand_of;
use crate::pool_sizes::Sizes;
use crate::ranks::rows_at;
use funnel_model::Config;

/// How large the rows, a slice and the pool are. The configuration may ask for more than a pool can have.
pub fn sizes(config: &Config) -> Sizes
    requires { IsInRange config.now }
    ensures private { result.private ≡ length (private_words config.now) }
    ensures rows { result.rows ≡ row_table config.now }
    ensures slice_words { result.slice_words ≡ words_of_slice config.now }
    ensures pool_words { result.pool_words ≡ words_of_pool config.now }
    ensures columns { result.columns ≡ columns_of_pool config.now }
{
    let demand = demand_of(config);
    let mut rows = [0; 7];
    let mut slice_words = u64::from(demand.private) * width(config, 0);
    for rank in 0..config.max_rank + 1 {
        let count = rows_of_rank(config, rank, demand.bits[rank as usize]);
        rows[rank as usize] = count;
        slice_words += u64::from(count) * width(config, rank);
    }
    Sizes {
        private: demand.private,
        rows,
        slice_words,
        pool_words: u64::from(config.slices) * slice_words,
        columns: u64::from(config.slices) * 64 * width(config, 0),
    }
}

/// The shared rows of a rank, where the listed words set `bits` bits in them.
fn rows_of_rank(config: &Config, rank: u8, bits: u64) -> u32
    requires range { IsInRange config.now }
    requires rank { rank ≤ 6 }
    requires bits { bits ≡ bits_at_rank config.now rank }
    ensures value { result ≡ shared_rows config.now rank }
    ensures bound { result ≤ MOST_MAX_ROWS }
{
    let listed = (config.one_in * bits).div_ceil(config.documents);
    let rows = rows_at(
        LAST_CLASS,
        row_count(LAST_CLASS, config.one_in, config.snr),
        config.max_rank,
        rank,
    );
    let unlisted = config.one_in * config.tail * (1 << rank) * u64::from(rows);
    (listed + unlisted).min(u64::from(config.max_rows)).max(1) as u32
}

/// The words of a row of a rank in a slice.
fn width(config: &Config, rank: u8) -> u64
    requires range { IsInRange config.now }
    requires rank { rank ≤ config.now.max_rank }
    ensures value { result ≡ width_of_rank config.now rank }
    ensures bound { result ≤ 2 ^ 12 }
{
    (1 << (config.max_rank - rank)) * u64::from(config.blocks)
}
