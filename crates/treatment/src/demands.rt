//! What the listed words ask of the pool.

ghost use Rattle.std.specs.Prelude.{◌≡◌, ℕ, ◌+◌, ◌*◌, ◌<◌, ◌≤◌, ◌^◌, min, length, slice_index};
ghost use Rattle.funnel_model.specs.declared.config.TheConstants.{MOST_DOCUMENTS};
ghost use Rattle.funnel_model.specs.Configuration.{IsInRange};
ghost use Rattle.funnel_model.specs.Sizes.{private_words, bits_at_rank, ranked_rows};

use crate::classes::{class, row_count};
use crate::ranks::rank_of;
use funnel_model::Config;

/// What the listed words ask for, by one pass over them.
#[derive(Drop)]
pub struct Demand {
    /// The words with a private row.
    pub private: u32,
    /// The bits that the other words set over all documents, by the rank of the row.
    pub bits: [u64; 7],
}

/// Goes through the listed words once.
pub fn demand_of(config: &Config) -> Demand
    requires { IsInRange config.now }
    ensures private { result.private ≡ length (private_words config.now) }
    ensures bits { (r : ℕ) → r < 7 → slice_index result.bits r ≡ bits_at_rank config.now r }
{
    let mut private = 0;
    let mut bits = [0; 7];
    for (_, count) in config.words.as_slice() {
        let class = class(*count, config.documents);
        if class <= config.private {
            private += 1;
        } else {
            add_bits(config, class, *count, &mut bits);
        }
    }
    Demand { private, bits }
}

/// Adds what a word of this class and count sets in each of its shared rows, at the row's rank.
fn add_bits(config: &Config, class: u8, count: u64, bits: &mut [u64; 7])
    requires range { IsInRange config.now }
    requires class { class ≤ 15 }
    requires count { count ≤ MOST_DOCUMENTS }
    requires room { (r : ℕ) → r < 7 → slice_index bits.old r ≤ 2 ^ 60 }
    ensures { (r : ℕ) → r < 7
        → slice_index bits.new r
        ≡ slice_index bits.old r
        + min config.now.documents (count * 2 ^ r) * ranked_rows config.now class r }
{
    let rows = row_count(class, config.one_in, config.snr);
    for j in 0..rows {
        let rank = rank_of(class, rows, config.max_rank, j);
        bits[rank as usize] += config.documents.min(count << rank);
    }
}
