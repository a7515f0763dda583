ghost use Rattle.std.specs.Prelude.{◌≡◌, ◌+◌, [], ◌∷◌, MatchResult, Ok, Err};
ghost use Rattle.funnel_model.specs.declared.call.Call.TheVariants as call;
ghost use Rattle.funnel_model.specs.declared.event.Event.TheVariants as event;
ghost use Rattle.funnel_model.specs.History.{place};
ghost use Rattle.funnel_model.specs.Legal.{IsIdle, IsRefused};
ghost use Rattle.slice_rule.specs.Seats.{HasNoneOutstanding, IsSeated};
ghost use Rattle.commit_desk.specs.Answers.{AnswersDelete, MayDeleteNow, TakesCalls, events_of_delete};
ghost use Rattle.commit_desk.specs.Desks.{IsCaughtUp, Makes};
ghost use Rattle.commit_desk.specs.Leaving.{GivesBackDeleted, GivesBackOld};

use crate::answers::DeleteFault;
use crate::desk::Desk;
use crate::leaving::{Ended, let_go};
use document_store::Doc;
use funnel_model::{Call, Commit, Event};
use slice_rule::{PassSeat, Pool};

impl Desk {
    /// Deletes the live document with this number, and gives the place of the delete. The document's slice keeps its
    /// column until it is cleared. The document is given back, for its owner to drop where the desk is free, unless an open find may ask for
    /// it. It takes no memory.
    pub fn delete(
        &mut self,
        pool: &Pool,
        seat: &mut PassSeat,
        id: u64,
    ) -> (Result<u64, DeleteFault>, Option<Doc>)
        requires pool { pool.now ≡ self.old.pool }
        requires seat { IsSeated self.old.pool seat.old }
        requires idle { IsIdle seat.old.number seat.old.front }
        ensures answer { AnswersDelete self.old.events_limit self.old.history id result.0 }
        ensures events { Makes (events_of_delete seat.old.number id result.0) self.old self.new seat.old seat.new }
        ensures gone { GivesBackDeleted self.old.history id result.0 result.1 }
        ensures none_outstanding { HasNoneOutstanding seat.new }
    {
        pool.catch_up(&mut self.home, seat);
        match self.check_delete(id) {
            Ok(()) => {
                let made = self.make_delete(pool, seat, id);
                let (place, gone) = made;
                (Ok(place), gone)
            }
            Err(DeleteFault::Spent(events)) => (Err(DeleteFault::Spent(events)), None),
            Err(DeleteFault::Absent) => {
                self.refuse_delete(pool, seat, id);
                (Err(DeleteFault::Absent), None)
            }
        }
    }

    // Makes the event of a refused delete.
    fn refuse_delete(&mut self, pool: &Pool, seat: &mut PassSeat, id: u64)
        requires pool { pool.now ≡ self.old.pool }
        requires caught_up { IsCaughtUp self.old seat.old }
        requires idle { IsIdle seat.old.number self.old.history }
        requires refused { IsRefused self.old.pool.limits self.old.history (call.Delete id) }
        requires takes_calls { TakesCalls self.old.events_limit self.old.history }
        ensures made { Makes (event.No seat.old.number (call.Delete id) ∷ []) self.old self.new seat.old seat.new }
        ensures none_outstanding { HasNoneOutstanding seat.new }
    {
        let call = Call::Delete { id };
        let pass = seat.number();
        self.make_plain(pool, seat, &Event::No { pass, call });
    }

    // Whether the document with this number can be deleted, or why not.
    fn check_delete(&self, id: u64) -> Result<(), DeleteFault>
        ensures { MatchResult result (λ _. MayDeleteNow self.now.events_limit self.now.history id)
            (λ fault. AnswersDelete self.now.events_limit self.now.history id (Err fault)) }
    {
        if self.is_spent() {
            return Err(DeleteFault::Spent(self.events));
        }
        if self.place_of(id).is_none() {
            return Err(DeleteFault::Absent);
        }
        Ok(())
    }

    // Makes the delete of a live document, and gives its place, and the document unless an open find may ask for it.
    fn make_delete(&mut self, pool: &Pool, seat: &mut PassSeat, id: u64) -> (u64, Option<Doc>)
        requires pool { pool.now ≡ self.old.pool }
        requires caught_up { IsCaughtUp self.old seat.old }
        requires idle { IsIdle seat.old.number self.old.history }
        requires may { MayDeleteNow self.old.events_limit self.old.history id }
        ensures place { result.0 ≡ place self.old.history + 1 }
        ensures gone { GivesBackOld self.old.history id result.1 }
        ensures made { Makes (event.Del seat.old.number id ∷ []) self.old self.new seat.old seat.new }
        ensures none_outstanding { HasNoneOutstanding seat.new }
    {
        let place = self.journal.place() + 1;
        let documents = self.journal.documents() - 1;
        let pass = seat.number();
        let number = pool.make_event(&mut self.home, seat, &Event::Del { pass, id });
        let Some((slice, column)) = self.live.remove(id) else {
            unreachable!()
        };
        let since = self.records.delete(slice, column, number);
        let ended = Ended {
            slice,
            column,
            columns: self.columns,
            since,
            until: number,
        };
        let gone = let_go(&self.tokens, &mut self.leaving, &mut self.records, ended);
        self.stages.end_column(slice, number);
        self.journal.push(Commit { add: false, id }, documents);
        self.events = number;
        (place, gone)
    }
}
