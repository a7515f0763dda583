//! Events that change nothing that the desk keeps but their number.
ghost use Rattle.std.specs.Prelude.{◌≡◌, [], ◌∷◌};
ghost use Rattle.funnel_model.specs.Events.{pass_of};
ghost use Rattle.funnel_model.specs.Legal.{MayFollow};
ghost use Rattle.slice_rule.specs.Seats.{HasNoneOutstanding};
ghost use Rattle.commit_desk.specs.Answers.{TakesCalls};
ghost use Rattle.commit_desk.specs.Desks.{IsCaughtUp, Makes};
ghost use Rattle.commit_desk.specs.Kept.{IsPlain};

use crate::desk::Desk;
use slice_rule::{Entry, PassSeat, Pool};

impl Desk {
    // Makes an event of a refusal or a read.
    pub(crate) fn make_plain<E: Entry>(&mut self, pool: &Pool, seat: &mut PassSeat, entry: &E)
        requires pool { pool.now ≡ self.old.pool }
        requires caught_up { IsCaughtUp self.old seat.old }
        requires plain { IsPlain (E.event entry.now) }
        requires own { pass_of (E.event entry.now) ≡ seat.old.number }
        requires may { MayFollow self.old.pool.limits self.old.history (E.event entry.now) }
        requires takes_calls { TakesCalls self.old.events_limit self.old.history }
        ensures made { Makes (E.event entry.now ∷ []) self.old self.new seat.old seat.new }
        ensures none_outstanding { HasNoneOutstanding seat.new }
    {
        self.events = pool.make_event(&mut self.home, seat, entry);
    }
}
