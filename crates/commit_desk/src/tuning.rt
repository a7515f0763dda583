ghost use Rattle.std.specs.Prelude.{◌≡◌, [], ◌∷◌, MatchResult};
ghost use Rattle.funnel_model.specs.declared.event.Event.TheVariants as event;
ghost use Rattle.funnel_model.specs.Legal.{IsIdle};
ghost use Rattle.slice_rule.specs.Seats.{HasNoneOutstanding, IsSeated};
ghost use Rattle.commit_desk.specs.Answers.{AnswersTune, TakesCalls, events_of_tune};
ghost use Rattle.commit_desk.specs.Desks.{IsCaughtUp, Makes};
ghost use Rattle.commit_desk.specs.Layouts.{HandsBackUnused, IsTuned, TunesWith};

use crate::answers::Spent;
use crate::desk::Desk;
use crate::entries::Tunes;
use crate::shared_layout::SharedLayout;
use funnel_model::Config;
use slice_rule::{PassSeat, Pool};

impl Desk {
    /// Gives the engine this configuration, and tells how many tunings there were with this one. Each slice keeps its layout until it is
    /// cleared. `layout` has the configuration's layout, and gets the one that was current before where no slice has its treatment, and
    /// else none, for its owner to drop where the desk is free. Where no call is taken any more it stays as it is. It takes no memory.
    pub fn tune(
        &mut self,
        pool: &Pool,
        seat: &mut PassSeat,
        config: &Config,
        layout: &mut Option<SharedLayout>,
    ) -> Result<u64, Spent>
        requires pool { pool.now ≡ self.old.pool }
        requires seat { IsSeated self.old.pool seat.old }
        requires idle { IsIdle seat.old.number seat.old.front }
        requires tunes { TunesWith self.old.pool config.now layout.old }
        ensures answer { AnswersTune self.old.events_limit self.old.history result }
        ensures events { Makes (events_of_tune seat.old.number config.now result) self.old self.new seat.old seat.new }
        ensures none_outstanding { HasNoneOutstanding seat.new }
        ensures layout { MatchResult result (λ _. HandsBackUnused self.old.pool self.old.history layout.new) (λ _. layout.new ≡ layout.old) }
    {
        pool.catch_up(&mut self.home, seat);
        if self.is_spent() {
            return Err(Spent {
                events: self.events,
            });
        }
        Ok(self.make_tune(pool, seat, config, layout))
    }

    // Makes the event of a tuning, and gives its number; `layout` gets what is handed back.
    fn make_tune(
        &mut self,
        pool: &Pool,
        seat: &mut PassSeat,
        config: &Config,
        layout: &mut Option<SharedLayout>,
    ) -> u64
        requires pool { pool.now ≡ self.old.pool }
        requires caught_up { IsCaughtUp self.old seat.old }
        requires idle { IsIdle seat.old.number self.old.history }
        requires takes_calls { TakesCalls self.old.events_limit self.old.history }
        requires tunes { TunesWith self.old.pool config.now layout.old }
        ensures tuned { IsTuned self.old.pool self.old.history result layout.new }
        ensures made { Makes (event.Tune seat.old.number config.now ∷ []) self.old self.new seat.old seat.new }
        ensures none_outstanding { HasNoneOutstanding seat.new }
    {
        let pass = seat.number();
        self.events = pool.make_event(&mut self.home, seat, &Tunes { pass, config });
        self.layouts.tune(layout);
        self.layouts.tunings()
    }
}
