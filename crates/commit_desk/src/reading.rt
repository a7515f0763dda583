ghost use Rattle.std.specs.Prelude.{◌≡◌, [], ◌∷◌, MatchOption, None, Some, string_bytes, string_capacity};
ghost use Rattle.funnel_model.specs.History.{document_with};
ghost use Rattle.funnel_model.specs.declared.call.Call.TheVariants as call;
ghost use Rattle.funnel_model.specs.declared.event.Event.TheVariants as event;
ghost use Rattle.funnel_model.specs.Legal.{IsIdle};
ghost use Rattle.funnel_model.specs.Numbers.{AreStats};
ghost use Rattle.slice_rule.specs.Seats.{HasNoneOutstanding, IsSeated};
ghost use Rattle.commit_desk.specs.Answers.{AnswersJournal, AnswersPlace, AnswersStats, AnswersText, TakesCalls, TellsText};
ghost use Rattle.commit_desk.specs.Answers.{events_of_journal, events_of_place, events_of_stats, events_of_text};
ghost use Rattle.commit_desk.specs.Desks.{IsCaughtUp, Makes};

use crate::answers::{JournalFault, Spent, TextRead};
use crate::desk::Desk;
use document_store::{Column, Doc};
use funnel_model::{Call, Commits, Event, Stats};
use slice_rule::{PassSeat, Pool};
use std::alloc::Global;

impl Desk {
    /// The number of commits so far. It takes no memory.
    pub fn read_place(&mut self, pool: &Pool, seat: &mut PassSeat) -> Result<u64, Spent>
        requires pool { pool.now ≡ self.old.pool }
        requires seat { IsSeated self.old.pool seat.old }
        requires idle { IsIdle seat.old.number seat.old.front }
        ensures answer { AnswersPlace self.old.events_limit self.old.history result }
        ensures events { Makes (events_of_place seat.old.number result) self.old self.new seat.old seat.new }
        ensures none_outstanding { HasNoneOutstanding seat.new }
    {
        pool.catch_up(&mut self.home, seat);
        if self.is_spent() {
            return Err(Spent {
                events: self.events,
            });
        }
        let place = self.journal.place();
        let pass = seat.number();
        let call = Call::Place;
        self.make_plain(pool, seat, &Event::Read { pass, call });
        Ok(place)
    }

    /// The commits after the first so many, in order, where the journal keeps them all, and else how many it no longer keeps. It
    /// takes memory for them, and makes its event after that.
    pub fn read_journal(
        &mut self,
        alloc: Global,
        pool: &Pool,
        seat: &mut PassSeat,
        from: u64,
    ) -> Result<Commits, JournalFault>
        requires pool { pool.now ≡ self.old.pool }
        requires seat { IsSeated self.old.pool seat.old }
        requires idle { IsIdle seat.old.number seat.old.front }
        ensures answer { AnswersJournal self.old.events_limit self.old.pool.limits self.old.history from result }
        ensures events { Makes (events_of_journal seat.old.number from result) self.old self.new seat.old seat.new }
        ensures none_outstanding { HasNoneOutstanding seat.new }
    {
        pool.catch_up(&mut self.home, seat);
        if self.is_spent() {
            return Err(JournalFault::Spent(self.events));
        }
        let base = self.journal.base();
        if from < base {
            self.note_journal(pool, seat, from);
            return Err(JournalFault::Trimmed(base));
        }
        let Ok(commits) = self.journal.read(alloc, from) else {
            return Err(JournalFault::Memory);
        };
        self.note_journal(pool, seat, from);
        Ok(commits)
    }

    /// The place and the text of the live document with this number, of which the text is copied into `room`, an empty string. It takes no
    /// memory: where there is no room for the text, it makes no event and tells how long the text is, so that the get is made again with as
    /// much room, which is taken where the desk is free.
    pub fn read_text(
        &mut self,
        pool: &Pool,
        seat: &mut PassSeat,
        id: u64,
        room: &mut String,
    ) -> TextRead
        requires pool { pool.now ≡ self.old.pool }
        requires seat { IsSeated self.old.pool seat.old }
        requires idle { IsIdle seat.old.number seat.old.front }
        requires empty { string_bytes room.old ≡ [] }
        ensures answer { AnswersText self.old.events_limit self.old.history id (string_capacity room.old) (string_bytes room.new) result }
        ensures events { Makes (events_of_text seat.old.number id result) self.old self.new seat.old seat.new }
        ensures none_outstanding { HasNoneOutstanding seat.new }
    {
        pool.catch_up(&mut self.home, seat);
        if self.is_spent() {
            return TextRead::Spent(self.events);
        }
        match self.copy_text(id, room) {
            TextRead::Read(place) => {
                self.note_get(pool, seat, id);
                TextRead::Read(place)
            }
            TextRead::Absent => {
                self.note_get(pool, seat, id);
                TextRead::Absent
            }
            TextRead::Short(bytes) => TextRead::Short(bytes),
            TextRead::Spent(_) => unreachable!(),
        }
    }

    /// How full the engine is. It takes no memory, and looks through the slices and the passes, but through no columns.
    pub fn read_stats(&mut self, pool: &Pool, seat: &mut PassSeat) -> Result<Stats, Spent>
        requires pool { pool.now ≡ self.old.pool }
        requires seat { IsSeated self.old.pool seat.old }
        requires idle { IsIdle seat.old.number seat.old.front }
        ensures answer { AnswersStats self.old.events_limit self.old.pool.limits self.old.history result }
        ensures events { Makes (events_of_stats seat.old.number result) self.old self.new seat.old seat.new }
        ensures none_outstanding { HasNoneOutstanding seat.new }
    {
        pool.catch_up(&mut self.home, seat);
        if self.is_spent() {
            return Err(Spent {
                events: self.events,
            });
        }
        let stats = self.stats();
        let pass = seat.number();
        let call = Call::Stats;
        self.make_plain(pool, seat, &Event::Read { pass, call });
        Ok(stats)
    }

    // How full the engine is.
    fn stats(&self) -> Stats
        ensures { AreStats self.now.pool.limits self.now.history result }
    {
        let _ = &self.home;
        Stats {
            documents: self.journal.documents(),
            place: self.journal.place(),
            base: self.journal.base(),
            columns: self.slices as u64 * self.columns as u64,
            free: self.stages.free(),
            retired: self.stages.retired(),
            finds: self.tokens.count(),
        }
    }

    // Copies the text of the live document with this number, where there is one and there is room for it.
    fn copy_text(&self, id: u64, room: &mut String) -> TextRead
        requires { string_bytes room.old ≡ [] }
        ensures { TellsText self.now.history id (string_capacity room.old) (string_bytes room.new) result }
    {
        let Some((place, doc)) = self.live_doc(id) else {
            return TextRead::Absent;
        };
        let text = doc.text();
        if room.capacity() < text.len() {
            return TextRead::Short(text.len());
        }
        let Ok(()) = room.push_str(text) else {
            unreachable!()
        };
        TextRead::Read(place)
    }

    // The live document with this number, and the place of its add.
    fn live_doc(&self, id: u64) -> Option<(u64, &Doc)>
        ensures { MatchOption result (document_with id self.now.history ≡ None)
            (λ found. document_with id self.now.history ≡ Some (record { id = id; text = found.1.now.text; place = found.0 })) }
    {
        let _ = &self.home;
        let (slice, column) = self.live.get(id)?;
        let Column::Live { place, .. } = self.records.state(slice, column) else {
            unreachable!()
        };
        let Some(doc) = self.records.doc(slice, column) else {
            unreachable!()
        };
        Some((place, doc))
    }

    // Makes the event of a get.
    fn note_get(&mut self, pool: &Pool, seat: &mut PassSeat, id: u64)
        requires pool { pool.now ≡ self.old.pool }
        requires caught_up { IsCaughtUp self.old seat.old }
        requires idle { IsIdle seat.old.number self.old.history }
        requires takes_calls { TakesCalls self.old.events_limit self.old.history }
        ensures made { Makes (event.Read seat.old.number (call.Get id) ∷ []) self.old self.new seat.old seat.new }
        ensures none_outstanding { HasNoneOutstanding seat.new }
    {
        let pass = seat.number();
        let call = Call::Get { id };
        self.make_plain(pool, seat, &Event::Read { pass, call });
    }

    // Makes the event of a journal.
    fn note_journal(&mut self, pool: &Pool, seat: &mut PassSeat, from: u64)
        requires pool { pool.now ≡ self.old.pool }
        requires caught_up { IsCaughtUp self.old seat.old }
        requires idle { IsIdle seat.old.number self.old.history }
        requires takes_calls { TakesCalls self.old.events_limit self.old.history }
        ensures made { Makes (event.Read seat.old.number (call.Journal from) ∷ []) self.old self.new seat.old seat.new }
        ensures none_outstanding { HasNoneOutstanding seat.new }
    {
        let pass = seat.number();
        let call = Call::Journal { from };
        self.make_plain(pool, seat, &Event::Read { pass, call });
    }
}
