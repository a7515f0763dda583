ghost use Rattle.std.specs.Prelude.{◌≡◌, length};
ghost use Rattle.funnel_model.specs.Legal.{IsLegal};
ghost use Rattle.slice_rule.specs.Seats.{HasEnded, IsSeated};

use crate::pool::Pool;
use crate::seats::{Home, Note, PassSeat};
use std::marker::Model;

/// A pool that is closed. Contracts see the whole history.
#[derive(Drop)]
pub struct Ended {
    /// How many events the history has.
    pub events: u64,
    seen: Note,
}

impl Model for Ended {
    ghost use Rattle.std.specs.Coded.{codes};
    ghost use Rattle.funnel_model.specs.contracts.expr.Expr as e;
    ghost use Rattle.std.specs.Prelude.{◌≡◌, length};
    ghost use Rattle.slice_rule.specs.Seats.{EndedState};

    ghost Value = { EndedState };

    ghost coded = { Prim.hlevel (codes, e.the_row.coded) };

    ghost view = { λ e. record { events = e.events; history = e.seen.front } };

    ghost invariant = { λ e. e.events ≡ length e.seen.front };
}

impl Pool {
    /// A pass comes back to its pool before this is closed, without an event that it asked and the history lacks. Then the pass's events
    /// in the history are those that it asked.
    pub fn end_pass(&self, home: &mut Home, mut seat: PassSeat)
        requires home { home.old.pool ≡ self.now }
        requires seated { IsSeated self.now seat }
        ensures pool { home.new.pool ≡ home.old.pool }
        ensures history { home.new.history ≡ home.old.history }
        ensures pass { HasEnded home.old.history seat }
    {
        self.catch_up(home, &mut seat);
    }

    /// Ends the pool, whose whole history the home has seen.
    pub fn close(self, mut home: Home) -> Ended
        requires home { home.pool ≡ self }
        ensures history { result.history ≡ home.history }
        ensures events { result.events ≡ length home.history }
        ensures legal { IsLegal self.limits result.history }
    {
        let seen = self.split_home(&mut home);
        let Pool { table, row_base: _ } = self;
        let closed = table.close_with(home.seat);
        let events = closed.word(0);
        closed.free();
        Ended { events, seen }
    }
}
