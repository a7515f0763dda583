//! One event of a pass: what it sees before, and then all from the ask to its own sight of the event.
ghost use Rattle.std.specs.Prelude.{◌≡◌, ◌-◌, ◌^◌, ◌<◌, ◌++◌, length, All};
ghost use mathlib.Core.List.{IsPrefix};
ghost use Rattle.funnel_model.specs.Events.{pass_of};
ghost use Rattle.funnel_model.specs.History.{IsFrontOf};
ghost use Rattle.funnel_model.specs.Legal.{IsAllowed, IsLegal};
ghost use Rattle.slice_rule.specs.Seats.{HasMade, HasNoneOutstanding, IsSameHome, IsReady, IsSamePass, after_append, facts_of_pass, number_under};
ghost use Rattle.slice_rule.specs.Views.{longer};
ghost use Rattle.slice_rule.specs.Worlds.{LacksAtMostOne, made_by};

use crate::entry::Entry;
use crate::pool::Pool;
use crate::seats::{Home, PassSeat};

impl Pool {
    /// The pass sees the whole history. It has nothing outstanding, so the history has no event of it that its front
    /// lacked. Whoever holds the home then knows what the next event of the pass may be.
    pub fn catch_up(&self, home: &mut Home, seat: &mut PassSeat)
        requires home { home.old.pool ≡ self.now }
        requires seat { seat.old.pool ≡ self.now }
        requires none_outstanding { HasNoneOutstanding seat.old }
        ensures home { IsSameHome home.old home.new }
        ensures seat { IsSamePass seat.old seat.new }
        ensures front { seat.new.front ≡ home.new.history }
        ensures none_since { IsFrontOf seat.new.number seat.old.front seat.new.front }
        ensures none_outstanding { HasNoneOutstanding seat.new }
        ensures in_range { seat.new.number < self.now.limits.passes }
        ensures legal { IsLegal self.now.limits home.new.history }
    {
        let _ = &seat.number;
        self.tell_pass(home, seat);
        self.tell_home(home, seat);
    }

    /// Makes one event of a pass that has seen the whole history, and answers the event's number.
    pub fn make_event<E: Entry>(&self, home: &mut Home, seat: &mut PassSeat, entry: &E) -> u64
        requires home { home.old.pool ≡ self.now }
        requires seat { seat.old.pool ≡ self.now }
        requires front { seat.old.front ≡ home.old.history }
        requires none_outstanding { HasNoneOutstanding seat.old }
        requires own { pass_of (E.event entry.now) ≡ seat.old.number }
        requires allowed { IsAllowed self.now.limits home.old.history (E.event entry.now) }
        requires room { length home.old.history < 2 ^ 63 - 1 }
        requires ready { IsReady self.now.limits seat.old (E.event entry.now) }
        ensures home { IsSameHome (after_append home.old (E.event entry.now)) home.new }
        ensures seat { HasMade (E.event entry.now) seat.old seat.new }
        ensures none_outstanding { HasNoneOutstanding seat.new }
        ensures number { result ≡ length home.new.history }
        ensures nothing_yet { All (λ f. number_under f < result) seat.new.own }
    {
        let _ = &seat.number;
        self.ask(seat, entry);
        self.tell_home(home, seat);
        let number = self.append(home, entry);
        self.tell_pass(home, seat);
        number
    }

    // The pass learns what the home knows.
    fn tell_pass(&self, home: &mut Home, seat: &mut PassSeat)
        requires home { home.old.pool ≡ self.now }
        requires seat { seat.old.pool ≡ self.now }
        ensures home { home.new ≡ home.old }
        ensures seat { seat.new ≡ record seat.old { front = longer seat.old.front home.old.history; told = home.old.told ++ seat.old.told } }
        ensures own { IsPrefix seat.old.front seat.new.front }
        ensures met { IsPrefix home.old.history seat.new.front }
        ensures asked { LacksAtMostOne (made_by seat.new.number seat.new.front) seat.new.asked }
    {
        let note = self.split_home(home);
        self.join(seat, note);
    }

    // The home learns what the pass knows.
    fn tell_home(&self, home: &mut Home, seat: &mut PassSeat)
        requires home { home.old.pool ≡ self.now }
        requires seat { seat.old.pool ≡ self.now }
        ensures home { home.new ≡ record home.old { told = facts_of_pass seat.old ++ home.old.told } }
        ensures seat { seat.new ≡ seat.old }
        ensures met { IsPrefix seat.old.front home.old.history }
        ensures legal { IsLegal self.now.limits home.old.history }
    {
        let note = self.split_pass(seat);
        self.join_home(home, note);
    }
}
