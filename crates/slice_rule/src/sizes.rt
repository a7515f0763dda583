//! The sizes of a pool, for its rule alone.
ghost use Rattle.std.specs.Prelude.{◌≡◌};
ghost use Rattle.funnel_model.specs.Configuration.{IsInRange};
ghost use Rattle.slice_rule.specs.Pools.{limits_of};

use funnel_model::Config;
use std::marker::Model;

/// What the rule is told when a pool is made. Contracts see it as the limits of the engine.
#[derive(Drop)]
pub struct Sizes {
    pub(crate) passes: u64,
    pub(crate) slices: u64,
    pub(crate) columns: u64,
    pub(crate) slice_words: u64,
    pub(crate) commits: u64,
    pub(crate) events: u64,
}

impl Model for Sizes {
    ghost use Rattle.funnel_model.specs.Legal.{Limits};

    ghost Value = { Limits };

    ghost view = { λ s. record { passes = s.passes; slices = s.slices; columns = s.columns; slice_words = s.slice_words; commits = s.commits; events = s.events } };
}

impl Sizes {
    pub fn of(config: &Config, slice_words: u32) -> Self
        requires { IsInRange config.now }
        ensures { result ≡ limits_of config.now slice_words }
    {
        Sizes {
            passes: config.passes as u64,
            slices: config.slices as u64,
            columns: 64 * (1 << config.max_rank as u64) * config.blocks as u64,
            slice_words: slice_words as u64,
            commits: config.commits,
            events: 1 << 62,
        }
    }
}
