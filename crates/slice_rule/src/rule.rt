//! The rule of the pool.
use crate::made::Made;
use crate::view::View;
use atomic_table::TableRule;

pub struct PoolRule;

impl TableRule<(), View, Made> for PoolRule {
    ghost use Rattle.slice_rule.specs.Rule.{IsKept};
    ghost use Rattle.slice_rule.specs.Views.{home_at_start};

    ghost holds = { λ made. IsKept made.sizes made.config.shared.key };

    ghost first = { λ made. home_at_start made.sizes made.config.shared.key };
}
