//! The steps of seats that touch no row word.
ghost use Rattle.std.specs.Prelude.{◌≡◌, ◌-◌, ◌^◌, ◌<◌, ◌++◌, length};
ghost use mathlib.Core.List.{IsPrefix};
ghost use Rattle.funnel_model.specs.Events.{pass_of};
ghost use Rattle.funnel_model.specs.History.{IsFrontOf};
ghost use Rattle.funnel_model.specs.Legal.{IsAllowed, IsLegal};
ghost use Rattle.slice_rule.specs.Seats.{HasNoneOutstanding, IsBacked, IsOutstanding, IsReady, after_append, after_ask, facts_of_pass};
ghost use Rattle.slice_rule.specs.Views.{longer};
ghost use Rattle.slice_rule.specs.Worlds.{LacksAtMostOne, made_by};

use crate::entry::Entry;
use crate::plays::{Appends, Asks, EventName, Settle, TakeIn, ToNote};
use crate::pool::Pool;
use crate::seats::{Home, Note, PassSeat};
use std::marker::Brand;

impl Pool {
    /// A note of what a pass knows.
    pub fn split_pass(&self, seat: &mut PassSeat) -> Note
        requires { seat.old.pool ≡ self.now }
        ensures seat { seat.new ≡ seat.old }
        ensures note { result ≡ record { pool = seat.old.pool; front = seat.old.front; facts = facts_of_pass seat.old } }
    {
        Note {
            seat: self.table.shared.split_seat::<ToNote>(&mut seat.seat),
        }
    }

    /// A note of what the home knows.
    pub fn split_home(&self, home: &mut Home) -> Note
        requires { home.old.pool ≡ self.now }
        ensures home { home.new ≡ home.old }
        ensures note { result ≡ record { pool = home.old.pool; front = home.old.history; facts = home.old.told } }
    {
        Note {
            seat: self.table.shared.split_seat::<ToNote>(&mut home.seat),
        }
    }

    /// A pass learns what a note says.
    pub fn join(&self, seat: &mut PassSeat, note: Note)
        requires pool { seat.old.pool ≡ self.now }
        requires note { note.pool ≡ self.now }
        ensures seat { seat.new ≡ record seat.old { front = longer seat.old.front note.front; told = note.facts ++ seat.old.told } }
        ensures own { IsPrefix seat.old.front seat.new.front }
        ensures met { IsPrefix note.front seat.new.front }
        ensures asked { LacksAtMostOne (made_by seat.new.number seat.new.front) seat.new.asked }
        ensures none_since { HasNoneOutstanding seat.old → IsFrontOf seat.new.number seat.old.front seat.new.front }
        ensures legal { IsLegal self.now.limits seat.new.front }
    {
        self.take_in(seat, note);
    }

    fn take_in(&self, seat: &mut PassSeat, note: Note)
        requires pool { seat.old.pool ≡ self.now }
        requires note { note.pool ≡ self.now }
        ensures seat { seat.new ≡ record seat.old { front = longer seat.old.front note.front; told = note.facts ++ seat.old.told } }
        ensures own { IsPrefix seat.old.front seat.new.front }
        ensures met { IsPrefix note.front seat.new.front }
        ensures asked { LacksAtMostOne (made_by seat.new.number seat.new.front) seat.new.asked }
        ensures legal { IsLegal self.now.limits seat.new.front }
    {
        self.table
            .shared
            .join_seat::<TakeIn>(&mut seat.seat, note.seat);
        self.table.shared.load::<Settle>(&mut seat.seat, 0);
    }

    /// The home learns what a note says. The history has all that the note has seen.
    pub fn join_home(&self, home: &mut Home, note: Note)
        requires pool { home.old.pool ≡ self.now }
        requires note { note.pool ≡ self.now }
        ensures home { home.new ≡ record home.old { told = note.facts ++ home.old.told } }
        ensures met { IsPrefix note.front home.new.history }
        ensures legal { IsLegal self.now.limits home.new.history }
    {
        self.table
            .shared
            .join_seat::<TakeIn>(&mut home.seat, note.seat);
        self.table.shared.load::<Settle>(&mut home.seat, 0);
    }

    /// A pass asks for an event. It asks for no other one until its front has it.
    pub fn ask<E: Entry>(&self, seat: &mut PassSeat, entry: &E)
        requires pool { seat.old.pool ≡ self.now }
        requires own { pass_of (E.event entry.now) ≡ seat.old.number }
        requires none_outstanding { HasNoneOutstanding seat.old }
        requires ready { IsReady self.now.limits seat.old (E.event entry.now) }
        ensures { seat.new ≡ after_ask seat.old (E.event entry.now) }
    {
        self.ask_named::<Brand, E>(seat, entry);
    }

    fn ask_named<J: EventName, E: Entry>(&self, seat: &mut PassSeat, entry: &E)
        requires pool { seat.old.pool ≡ self.now }
        requires own { pass_of (E.event entry.now) ≡ seat.old.number }
        requires none_outstanding { HasNoneOutstanding seat.old }
        requires ready { IsReady self.now.limits seat.old (E.event entry.now) }
        requires named { J.named ≡ E.event entry.now }
        ensures { seat.new ≡ after_ask seat.old (E.event entry.now) }
    {
        seat.asked += 1;
        self.table
            .shared
            .store::<Asks<J>>(&mut seat.seat, 2 + seat.number as usize, seat.asked);
    }

    /// The home appends an event that its pass asked, and answers its number.
    pub fn append<E: Entry>(&self, home: &mut Home, entry: &E) -> u64
        requires pool { home.old.pool ≡ self.now }
        requires asked { IsOutstanding home.old (E.event entry.now) }
        requires allowed { IsAllowed self.now.limits home.old.history (E.event entry.now) }
        requires room { length home.old.history < 2 ^ 63 - 1 }
        requires backed { IsBacked self.now.limits home.old.told home.old.history (E.event entry.now) }
        ensures home { home.new ≡ after_append home.old (E.event entry.now) }
        ensures number { result ≡ length home.new.history }
    {
        self.append_named::<Brand, E>(home, entry)
    }

    fn append_named<J: EventName, E: Entry>(&self, home: &mut Home, entry: &E) -> u64
        requires pool { home.old.pool ≡ self.now }
        requires asked { IsOutstanding home.old (E.event entry.now) }
        requires allowed { IsAllowed self.now.limits home.old.history (E.event entry.now) }
        requires room { length home.old.history < 2 ^ 63 - 1 }
        requires backed { IsBacked self.now.limits home.old.told home.old.history (E.event entry.now) }
        requires named { J.named ≡ E.event entry.now }
        ensures home { home.new ≡ after_append home.old (E.event entry.now) }
        ensures number { result ≡ length home.new.history }
    {
        self.table
            .shared
            .fetch_add::<Appends<J>>(&mut home.seat, 0, 1)
            + 1
    }
}
