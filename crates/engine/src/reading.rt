//! What a text gives an engine as new statistics.
ghost use Rattle.std.specs.Prelude.{◌≡◌, [], Ok, IfOk, MatchResult};
ghost use Rattle.funnel_model.specs.Configuration.{IsTuning};
ghost use Rattle.funnel_model.specs.Sizes.{words_of_slice};
ghost use Rattle.funnel_stats.specs.Reading.{IsFaultOfBytes};
ghost use Rattle.funnel_stats.specs.Tunings.{tuning};

use crate::engine::Engine;
use funnel_model::{Config, Listed};
use funnel_stats::ConfigFault;
use slice_rule::PoolName;
use std::alloc::Global;

impl<N: PoolName> Engine<N> {
    /// The configuration that a text gives the engine, for `retune`: the statistics that the text has, defaults for those that it
    /// leaves out, and all else as the engine was opened. A fault has one of the numbers 3 to 7, or is want of memory. It waits for
    /// nobody.
    pub fn read_tuning(&self, alloc: Global, text: &str) -> Result<Config, ConfigFault>
        ensures read { MatchResult result (λ config. tuning N.pool.config text.now ≡ Ok config)
            (λ fault. IsFaultOfBytes fault (tuning N.pool.config text.now)) }
        ensures tunes { IfOk result (IsTuning N.pool.config) }
        // A slice has room for the rows of the opening configuration.
        ensures room { N.pool.limits.slice_words ≡ words_of_slice N.pool.config }
    {
        self.pool.read_tuning(alloc, text)
    }
}

/// The configuration without its listed words. It takes no memory.
pub(crate) fn without_words(alloc: Global, config: &Config) -> Config
    ensures { result ≡ record config.now { words = [] } }
{
    Config {
        passes: config.passes,
        slices: config.slices,
        blocks: config.blocks,
        max_rank: config.max_rank,
        commits: config.commits,
        reserve: config.reserve,
        one_in: config.one_in,
        snr: config.snr,
        documents: config.documents,
        tail: config.tail,
        max_rows: config.max_rows,
        private: config.private,
        words: no_words(alloc),
    }
}

fn no_words(alloc: Global) -> Listed
    ensures { result ≡ [] }
{
    Listed::new(Vec::new(alloc))
}
