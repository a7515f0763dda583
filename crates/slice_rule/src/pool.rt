ghost use Rattle.std.specs.Prelude.{◌≡◌, ◌*◌, ◌+◌, ◌<◌, ◌≤◌, [], IfOk, OnOk, map, replicate};
ghost use Rattle.std.specs.List.{range_with_len};
ghost use Rattle.funnel_model.specs.declared.config.TheConstants.{MOST_PASSES, MOST_ROW_WORDS, MOST_SLICES};
ghost use Rattle.funnel_model.specs.Configuration.{IsInRange};
ghost use Rattle.slice_rule.specs.Pools.{limits_of};
ghost use Rattle.slice_rule.specs.Seats.{new_home_state, new_pass_state};
ghost use Rattle.slice_rule.specs.Views.{view_at_start};
ghost use Rattle.slice_rule.specs.declared.view.Role.TheVariants as role;

use crate::made::Made;
use crate::plays::{Number, ToPass};
use crate::rule::PoolRule;
use crate::seats::{Home, PassSeat};
use crate::sizes::Sizes;
use crate::view::View;
use atomic_table::{Seat, Table};
use funnel_model::{Config, Memory};
use std::alloc::Global;
use std::marker::{Brand, Model};

/// The words that threads share: the count of events, the count of passes, a word for each pass, and the row words.
/// Contracts see which pool it is, its sizes, and the configuration that it was made with.
#[derive(Drop)]
pub struct Pool {
    pub(crate) table: Table<(), View, Made, PoolRule, Global>,
    pub(crate) row_base: usize,
}

impl Model for Pool {
    ghost use Rattle.slice_rule.specs.Pools.{PoolId, IsPool};

    ghost Value = { PoolId };

    ghost view = { λ p. record { table = p.table.shared.table_id; limits = p.table.shared.key.sizes; config = p.table.shared.key.config.shared.key } };

    ghost invariant = { λ p. IsPool p.row_base (record { table = p.table.shared.table_id; limits = p.table.shared.key.sizes; config = p.table.shared.key.config.shared.key }) };
}

/// A pool and its configuration, named by a type. All types that have to agree on a pool have it as a parameter.
pub trait PoolName {
    ghost use Rattle.slice_rule.specs.Pools.{PoolId};

    ghost pool: { PoolId };
}

impl PoolName for Brand {
    ghost use Rattle.std.specs.Prelude.{[]};
    ghost use Rattle.slice_rule.specs.Views.{no_config};

    ghost pool = { record {
      table = record { words = 0; slots = 0; views_name = 0; atom = 0; block = 0; offset = 0; slot_names = [] };
      limits = record { passes = 0; slices = 0; columns = 0; slice_words = 0; commits = 0; events = 0 };
      config = no_config;
    } };
}

impl Pool {
    /// A pool whose words are all 0, with its home and the seats of its passes, by their numbers. For a moment it takes
    /// twice the memory of its words.
    pub fn new(
        alloc: Global,
        config: &Config,
        slice_words: u32,
    ) -> Result<(Pool, Home, Vec<PassSeat>), Memory>
        requires config { IsInRange config.now }
        requires rows { 1 ≤ config.now.slices * slice_words }
        requires few { config.now.slices * slice_words ≤ MOST_ROW_WORDS }
        ensures config { IfOk result (λ made. made.0.config ≡ config.now) }
        ensures sizes { IfOk result (λ made. made.0.limits ≡ limits_of config.now slice_words) }
        ensures home { IfOk result (λ made. made.1 ≡ new_home_state made.0) }
        ensures passes { IfOk result (λ made. made.2.items ≡ map (new_pass_state made.0) (range_with_len 0 config.now.passes)) }
    {
        Pool::of_sizes(alloc, config, Sizes::of(config, slice_words))
    }

    pub(crate) fn of_sizes(
        alloc: Global,
        config: &Config,
        sizes: Sizes,
    ) -> Result<(Pool, Home, Vec<PassSeat>), Memory>
        requires passes { sizes.passes ≤ MOST_PASSES }
        requires rows { sizes.slices ≤ MOST_SLICES }
        requires few { sizes.slices * sizes.slice_words ≤ MOST_ROW_WORDS }
        ensures config { IfOk result (λ made. made.0.config ≡ config.now) }
        ensures sizes { IfOk result (λ made. made.0.limits ≡ sizes) }
        ensures home { IfOk result (λ made. made.1 ≡ new_home_state made.0) }
        ensures passes { IfOk result (λ made. made.2.items ≡ map (new_pass_state made.0) (range_with_len 0 sizes.passes)) }
    {
        let count = sizes.passes as u32;
        let row_base = 2 + count as usize;
        let row_words = sizes.slices as usize * sizes.slice_words as usize;
        let words = zeros(alloc, row_base + row_words)?;
        let made = Made::with(alloc, config, sizes)?;
        let (table, mut seat) = Table::of_words(alloc, words.as_slice(), &made)?;
        let pool = Pool { table, row_base };
        let passes = pool.seat_passes(alloc, &mut seat, count)?;
        Ok((pool, Home { seat }, passes))
    }

    // The seats of so many passes, by their numbers.
    #[tactic(auto, using(crate::proofs::Opening::new_passes_push))]
    fn seat_passes(
        &self,
        alloc: Global,
        home: &mut Seat<(), View>,
        count: u32,
    ) -> Result<Vec<PassSeat>, Memory>
        requires table { home.old.table_id ≡ self.now.table }
        requires home { home.old.me ≡ (view_at_start self.now.limits self.now.config (role.Home 0 0), []) }
        requires in_range { count ≤ self.now.limits.passes }
        ensures table { home.new.table_id ≡ home.old.table_id }
        ensures home { OnOk result (home.new.me ≡ (view_at_start self.now.limits self.now.config (role.Home count count), [])) }
        ensures passes { IfOk result (λ passes. passes.items ≡ map (new_pass_state self.now) (range_with_len 0 count)) }
    {
        let mut passes = Vec::with_capacity(alloc, count as usize)?;
        for number in 0..count {
            passes.push(self.number_pass(home, number))?;
        }
        Ok(passes)
    }

    // The home numbers one more pass and gives it its seat.
    fn number_pass(&self, home: &mut Seat<(), View>, number: u32) -> PassSeat
        requires table { home.old.table_id ≡ self.now.table }
        requires home { home.old.me ≡ (view_at_start self.now.limits self.now.config (role.Home number number), []) }
        requires in_range { number < self.now.limits.passes }
        ensures table { home.new.table_id ≡ home.old.table_id }
        ensures home { home.new.me ≡ (view_at_start self.now.limits self.now.config (role.Home (number + 1) (number + 1)), []) }
        ensures pass { result ≡ new_pass_state self.now number }
    {
        self.table.shared.fetch_add::<Number>(home, 1, 1);
        PassSeat {
            number,
            asked: 0,
            seat: self.table.shared.split_seat::<ToPass>(home),
        }
    }
}

// So many words of 0.
fn zeros(alloc: Global, count: usize) -> Result<Vec<u64>, Memory>
    ensures { IfOk result (λ words. words.items ≡ replicate count 0) }
{
    Ok(vec![in alloc; 0; count]?)
}
