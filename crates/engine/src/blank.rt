ghost use Rattle.std.specs.Prelude.{◌≡◌, IfOk};
ghost use Rattle.funnel_model.specs.Configuration.{IsValid};
ghost use Rattle.funnel_model.specs.Sizes.{words_of_slice};
ghost use Rattle.slice_rule.specs.Pools.{limits_of};

use funnel_model::{Config, Memory};
use slice_rule::{Home, PassSeat, Pool};
use std::alloc::Global;
use std::marker::Model;
use treatment::sizes;

/// The row words of an engine that isn't open yet. Whoever opens one gives its pool a name first: a function over
/// `N: PoolName` takes the blank, opens the engine, uses it and closes it.
#[derive(Drop)]
pub struct Blank {
    pub(crate) pool: Pool,
    pub(crate) home: Home,
    pub(crate) passes: Vec<PassSeat>,
}

impl Model for Blank {
    ghost use Rattle.engine.specs.Engines.{IsBlank};
    ghost use Rattle.slice_rule.specs.Pools.{PoolId};

    ghost Value = { PoolId };

    ghost view = { λ b. b.pool };

    ghost invariant = { λ b. IsBlank b.pool b.home b.passes.items };
}

impl Blank {
    /// The words of an engine with this configuration, all zero, and its passes. It takes the memory of the words, and for a
    /// moment that much once more.
    pub fn new(alloc: Global, config: &Config) -> Result<Blank, Memory>
        requires valid { IsValid config.now }
        ensures config { IfOk result (λ blank. blank.config ≡ config.now) }
        ensures limits { IfOk result (λ blank. blank.limits ≡ limits_of config.now (words_of_slice config.now)) }
    {
        let slice_words = sizes(config).slice_words as u32;
        let (pool, home, passes) = Pool::new(alloc, config, slice_words)?;
        Ok(Blank { pool, home, passes })
    }
}
