//! Tunings: an engine gets new statistics while it serves.
ghost use Rattle.std.specs.Prelude.{◌≡◌};
ghost use Rattle.funnel_model.specs.Configuration.{IsTuning};
ghost use Rattle.funnel_model.specs.Legal.{IsLegal};
ghost use Rattle.commit_desk.specs.Answers.{events_of_tune};
ghost use Rattle.commit_desk.specs.Layouts.{TunesWith};
ghost use Rattle.commit_desk.specs.Passes.{IsResting};
ghost use Rattle.engine.specs.Turns.{AnswersTuning, HasRoomFor, MakesTuneCall, TuneTurn, fault_of_layout};
ghost use Rattle.slice_recycler.specs.Turns.{IsTurn};

use crate::engine::Engine;
use crate::pass::Pass;
use commit_desk::{SharedLayout, Spent};
use funnel_model::Config;
use row_layout::{Layout, LayoutFault};
use slice_rule::{PassSeat, PoolName};
use std::alloc::Global;
use std::sync::Wait;

/// Why an engine did not take new statistics.
#[derive(Clone, Copy, Debug, PartialEq, Eq)]
pub enum TuneFault {
    /// By these statistics a slice would need so many row words, and it has room for fewer.
    Wide { needed: u64, room: u64 },
    /// The history has this many events, and no call is taken any more.
    Spent(u64),
    /// There was no memory for the layout of the rows.
    Memory,
}

impl<N: PoolName> Engine<N> {
    /// Gives the engine new statistics, and tells how many tunings there were with this one. Each slice is treated by them once it is
    /// cleared, and till then as before: so nothing is written anew, and finds go on. It lays out the rows first, and takes all its
    /// memory then; where they don't fit into the slices it does no more. Then it waits for the lock once. A layout of a tuning before that
    /// no slice got is dropped when the lock is free again.
    pub fn retune<R: Wait>(
        &self,
        rt: &R,
        alloc: Global,
        pass: &mut Pass<N>,
        config: &Config,
    ) -> Result<u64, TuneFault>
        requires tuning { IsTuning N.pool.config config.now }
        ensures call { MakesTuneCall N.pool.limits config.now result pass.old pass.new }
        ensures turn { TuneTurn N.pool.limits config.now result pass.old pass.new }
    {
        let _ = pass.seat.number();
        match self.pool.lay_out(alloc, config) {
            Ok(layout) => self.tune_by(rt, alloc, pass, config, layout),
            Err(fault) => Err(unfit(fault)),
        }
    }

    // A tuning whose rows are laid out within the slices.
    fn tune_by<R: Wait>(
        &self,
        rt: &R,
        alloc: Global,
        pass: &mut Pass<N>,
        config: &Config,
        layout: Layout,
    ) -> Result<u64, TuneFault>
        requires tuning { IsTuning N.pool.config config.now }
        requires fits { HasRoomFor N.pool.limits config.now }
        requires laid { layout ≡ record { config = config.now; room = N.pool.limits.slice_words } }
        ensures call { MakesTuneCall N.pool.limits config.now result pass.old pass.new }
        ensures turn { TuneTurn N.pool.limits config.now result pass.old pass.new }
    {
        let _ = pass.seat.number();
        let Ok(shared) = SharedLayout::new(alloc, layout) else {
            return Err(TuneFault::Memory);
        };
        let mut layout = Some(shared);
        match self.tune_turn(rt, &mut pass.seat, config, &mut layout) {
            Ok(count) => Ok(count),
            Err(spent) => Err(TuneFault::Spent(spent.events)),
        }
    }

    // The turn of a tuning, with the layout that each slice gets when it is cleared. Unless it is refused, the one that was
    // current before comes back in its place where no slice has its treatment, so that it is dropped when the lock is free again.
    fn tune_turn<R: Wait>(
        &self,
        rt: &R,
        pass: &mut PassSeat,
        config: &Config,
        layout: &mut Option<SharedLayout>,
    ) -> Result<u64, Spent>
        requires rests { IsResting N.pool pass.old }
        requires tunes { TunesWith N.pool config.now layout.old }
        ensures turn { IsTurn pass.old.number pass.old.front pass.new.front (AnswersTuning N.pool layout.old layout.new result)
            (events_of_tune pass.old.number config.now result) }
        ensures rests { IsResting N.pool pass.new }
        ensures number { pass.new.number ≡ pass.old.number }
        ensures legal { IsLegal N.pool.limits pass.new.front }
    {
        let pool = self.pool.shared();
        self.desk.lock(rt).desk.tune(pool, pass, config, layout)
    }
}

// What a tuning is answered whose rows were not laid out.
fn unfit(fault: LayoutFault) -> TuneFault
    ensures { result ≡ fault_of_layout fault }
{
    match fault {
        LayoutFault::Wide { needed, room } => TuneFault::Wide { needed, room },
        LayoutFault::Memory => TuneFault::Memory,
    }
}
