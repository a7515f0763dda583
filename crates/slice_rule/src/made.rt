//! What a pool was made with, for its rule alone.
ghost use Rattle.std.specs.Prelude.{◌≡◌, IfOk};

use crate::sizes::Sizes;
use atomic_table::{Table, TableRule};
use funnel_model::{Config, Memory};
use std::alloc::Global;

/// The sizes of a pool and its configuration. The configuration isn't kept: it is the key of a table without words, and
/// contracts alone see a key.
#[derive(Drop)]
pub struct Made {
    pub(crate) sizes: Sizes,
    pub(crate) config: Table<(), (), Config, NoRule, Global>,
}

impl Made {
    pub fn with(alloc: Global, config: &Config, sizes: Sizes) -> Result<Made, Memory>
        ensures sizes { IfOk result (λ made. made.sizes ≡ sizes) }
        ensures config { IfOk result (λ made. made.config.shared.key ≡ config.now) }
    {
        let (config, _) = Table::of_words(alloc, &[], config)?;
        Ok(Made { sizes, config })
    }
}

/// A table without words needs no rule.
pub struct NoRule;

impl TableRule<(), (), Config> for NoRule {
    ghost holds = { λ _ _. Unit {0} };

    ghost first = { λ _. tt };
}
