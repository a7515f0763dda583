ghost use Rattle.std.specs.Prelude.{◌≡◌, ℕ, ◌+◌, ◌<◌, ◌≤◌, true, [], ◌∷◌, length, vec_capacity};
ghost use Rattle.std.specs.Prelude.{All, Err, IfOk, MatchOption, MatchResult, Ok};
ghost use Rattle.funnel_model.specs.declared.event.Event.TheVariants as event;
ghost use Rattle.funnel_model.specs.History.{is_live, place};
ghost use Rattle.funnel_model.specs.Legal.{IsIdle, IsRefused, MayClear, MayTake};
ghost use Rattle.funnel_model.specs.Slices.{claimed};
ghost use Rattle.slice_rule.specs.Seats.{HasNoneOutstanding, HoldsClaim, IsSeated};
ghost use Rattle.commit_desk.specs.Answers.{AnswersCommit, AnswersLastTake, AnswersPut, IsClearWork, MayAdd, MayMakeRoom, TakesCalls};
ghost use Rattle.commit_desk.specs.Answers.{call_asked, events_of_commit, events_of_opened_take, events_of_take};
ghost use Rattle.commit_desk.specs.Desks.{HandsOver, IsCaughtUp, IsFresh, IsReused, IsUnwritten, Makes};
ghost use Rattle.commit_desk.specs.Layouts.{IsCurrentLayout, IsLayoutOf};
ghost use Rattle.commit_desk.specs.Leaving.{GivesBackOld, GivesBackReplaced};
ghost use Rattle.commit_desk.specs.Passes.{HasWritten, HoldsCleared};

use crate::answers::{AddFault, CommitFault, Put, Taken, ToClear};
use crate::desk::Desk;
use crate::entries::{Adds, Drops, Refuses};
use crate::leaving::{Ended, let_go};
use crate::shared_layout::SharedLayout;
use document_store::{Doc, FreeSlots};
use funnel_model::{Block, Blocked, Claim, ClearJob, Commit, Event, Memory};
use row_layout::Bits;
use slice_rule::{PassSeat, Pool};

impl Desk {
    /// Claims a column for a document that is added, or put where it `replaces`, or begins to clear a slice for it, or says why there is
    /// none for it. With a column or a slice comes the layout by which the document's bits are to be set; where it can't be shared, no
    /// event is made. Where the engine is full but another pass is clearing a slice, it makes no event either, unless this is the `last`
    /// look of the call. `room` is an empty list with room for a block of each slice, for the answer `Full`, which alone takes it: else it
    /// stays the caller's, who drops it where the desk is free.
    pub fn take(
        &mut self,
        pool: &Pool,
        seat: &mut PassSeat,
        doc: &Doc,
        replaces: bool,
        room: &mut Option<Vec<Block>>,
        last: bool,
    ) -> Taken
        requires pool { pool.now ≡ self.old.pool }
        requires seat { IsSeated self.old.pool seat.old }
        requires idle { IsIdle seat.old.number seat.old.front }
        requires room { MatchOption room.old ⊥ (λ empty. (empty.items ≡ []) × (self.old.pool.limits.slices ≤ vec_capacity empty)) }
        ensures answer { AnswersLastTake self.old.events_limit self.old.pool.limits self.old.history seat.old.number replaces doc.now.id last result }
        ensures events { Makes (events_of_take seat.old.number replaces doc.now.id doc.now.text result) self.old self.new seat.old seat.new }
        ensures none_outstanding { HasNoneOutstanding seat.new }
        ensures handed { HandsOver self.old result seat.new room.old room.new }
    {
        pool.catch_up(&mut self.home, seat);
        if self.is_spent() {
            return Taken::Refused(AddFault::Spent(self.events));
        }
        if let Some(place) = self.in_the_way(replaces, doc.id()) {
            self.refuse_add(pool, seat, doc, replaces);
            return Taken::Refused(AddFault::Present(place));
        }
        self.take_room(pool, seat, doc, replaces, room, last)
    }

    /// Opens the slice that the pass cleared for an add, and claims its first column. Its slots, which the pass has emptied,
    /// come back to the records. It has the layout that it had since its Clear.
    pub fn opened_take(
        &mut self,
        pool: &Pool,
        seat: &mut PassSeat,
        job: ClearJob,
        slots: FreeSlots,
    ) -> Claim
        requires pool { pool.now ≡ self.old.pool }
        requires seat { IsSeated self.old.pool seat.old }
        requires cleared { HoldsCleared self.old.pool.limits job seat.old }
        requires slots { slots ≡ self.old.pool.limits.columns }
        ensures claim { result ≡ record { slice = job.slice; column = 0 } }
        ensures events { Makes (events_of_opened_take seat.old.number job.slice) self.old self.new seat.old seat.new }
        ensures none_outstanding { HasNoneOutstanding seat.new }
        ensures prepared { IsReused job.slice seat.old seat.new }
    {
        pool.catch_up(&mut self.home, seat);
        let ClearJob { slice } = job;
        let pass = seat.number();
        let alone = false;
        let opens = Event::Opened { pass, slice, alone };
        pool.make_event(&mut self.home, seat, &opens);
        self.records.put_back(slice, slots);
        self.stages.open(slice);
        let column = self.stages.claim(slice);
        let takes = Event::Take {
            pass,
            slice,
            column,
        };
        self.events = pool.make_event(&mut self.home, seat, &takes);
        self.records.claim(slice, column, pass);
        Claim { slice, column }
    }

    /// Adds the document to its column, all of whose bits the pass has set, and gives the place of the add; or drops it
    /// where its number is live by now. It takes no memory.
    pub fn commit(
        &mut self,
        pool: &Pool,
        seat: &mut PassSeat,
        claim: Claim,
        doc: Doc,
        bits: &Bits,
    ) -> Result<u64, CommitFault>
        requires pool { pool.now ≡ self.old.pool }
        requires written { HasWritten self.old.pool claim doc.words bits.now.bits seat.old }
        ensures answer { AnswersCommit self.old.history doc.id result }
        ensures events { Makes (events_of_commit seat.old.number doc.id doc.text claim bits.now.bits result) self.old self.new seat.old seat.new }
        ensures none_outstanding { HasNoneOutstanding seat.new }
    {
        pool.catch_up(&mut self.home, seat);
        match self.check_commit(doc.id()) {
            Ok(()) => Ok(self.make_add(pool, seat, claim, doc, bits)),
            Err(fault) => {
                self.make_drop(pool, seat, claim, doc);
                Err(fault)
            }
        }
    }

    /// Adds the document to its column, all of whose bits the pass has set, in the place of the live document with its number where
    /// there is one, whose column is over then. That document is given back, for its owner to drop where the desk is free, unless an open
    /// find may ask for it. It takes no memory, and its document is never dropped.
    pub fn put(
        &mut self,
        pool: &Pool,
        seat: &mut PassSeat,
        claim: Claim,
        doc: Doc,
        bits: &Bits,
    ) -> (Put, Option<Doc>)
        requires pool { pool.now ≡ self.old.pool }
        requires written { HasWritten self.old.pool claim doc.words bits.now.bits seat.old }
        ensures answer { AnswersPut self.old.history doc.id result.0 }
        ensures gone { GivesBackReplaced self.old.history doc.id result.0 result.1 }
        ensures events { Makes (event.Add seat.old.number doc.id doc.text claim.slice claim.column bits.now.bits ∷ []) self.old self.new seat.old seat.new }
        ensures none_outstanding { HasNoneOutstanding seat.new }
    {
        pool.catch_up(&mut self.home, seat);
        if self.place_of(doc.id()).is_some() {
            let made = self.make_replace(pool, seat, claim, doc, bits);
            let (place, gone) = made;
            return (Put::Replaced(place), gone);
        }
        (
            Put::Added(self.make_add(pool, seat, claim, doc, bits)),
            None,
        )
    }

    // Whether a document with this number can be added, or why not.
    fn check_commit(&self, id: u64) -> Result<(), CommitFault>
        ensures { MatchResult result (λ _. AnswersCommit self.now.history id (Ok (place self.now.history + 1)))
            (λ fault. AnswersCommit self.now.history id (Err fault)) }
    {
        if let Some(place) = self.place_of(id) {
            return Err(CommitFault::Present(place));
        }
        Ok(())
    }

    // Claims a column, or begins to clear a slice, or refuses the document for want of room or of memory.
    fn take_room(
        &mut self,
        pool: &Pool,
        seat: &mut PassSeat,
        doc: &Doc,
        replaces: bool,
        room: &mut Option<Vec<Block>>,
        last: bool,
    ) -> Taken
        requires pool { pool.now ≡ self.old.pool }
        requires caught_up { IsCaughtUp self.old seat.old }
        requires may { MayAdd self.old.events_limit self.old.history seat.old.number replaces doc.now.id }
        requires room { MatchOption room.old ⊥ (λ empty. (empty.items ≡ []) × (self.old.pool.limits.slices ≤ vec_capacity empty)) }
        ensures answer { AnswersLastTake self.old.events_limit self.old.pool.limits self.old.history seat.old.number replaces doc.now.id last result }
        ensures events { Makes (events_of_take seat.old.number replaces doc.now.id doc.now.text result) self.old self.new seat.old seat.new }
        ensures none_outstanding { HasNoneOutstanding seat.new }
        ensures handed { HandsOver self.old result seat.new room.old room.new }
    {
        if let Some(slice) = self.stages.with_room() {
            return match self.claim_laid(pool, seat, slice) {
                Ok((claim, layout)) => Taken::Claim(claim, layout),
                Err(Memory) => Taken::Refused(AddFault::Memory),
            };
        }
        self.make_room(pool, seat, doc, replaces, room, last)
    }

    // Begins to clear a slice, where none has room, or waits for one that is being cleared, or refuses the document for want of a slice or
    // of memory.
    fn make_room(
        &mut self,
        pool: &Pool,
        seat: &mut PassSeat,
        doc: &Doc,
        replaces: bool,
        room: &mut Option<Vec<Block>>,
        last: bool,
    ) -> Taken
        requires pool { pool.now ≡ self.old.pool }
        requires caught_up { IsCaughtUp self.old seat.old }
        requires may { MayMakeRoom self.old.events_limit self.old.pool.limits self.old.history seat.old.number replaces doc.now.id }
        requires room { MatchOption room.old ⊥ (λ empty. (empty.items ≡ []) × (self.old.pool.limits.slices ≤ vec_capacity empty)) }
        ensures answer { AnswersLastTake self.old.events_limit self.old.pool.limits self.old.history seat.old.number replaces doc.now.id last result }
        ensures events { Makes (events_of_take seat.old.number replaces doc.now.id doc.now.text result) self.old self.new seat.old seat.new }
        ensures none_outstanding { HasNoneOutstanding seat.new }
        ensures handed { HandsOver self.old result seat.new room.old room.new }
    {
        let _ = &self.home;
        if self.clearable().is_some() {
            return match self.clear_laid(pool, seat) {
                Ok((work, layout)) => Taken::Clear(work, layout),
                Err(Memory) => Taken::Refused(AddFault::Memory),
            };
        }
        if !last {
            if let Some(slice) = self.being_cleared() {
                return Taken::Wait(slice);
            }
        }
        let Some(room) = room.take() else {
            unreachable!()
        };
        let blocks = self.blocks(room);
        self.refuse_add(pool, seat, doc, replaces);
        Taken::Refused(AddFault::Full(blocks))
    }

    // Claims the next column of the slice, and shares the slice's layout before; where it can't be shared, it does nothing.
    pub(crate) fn claim_laid(
        &mut self,
        pool: &Pool,
        seat: &mut PassSeat,
        slice: u32,
    ) -> Result<(Claim, SharedLayout), Memory>
        requires pool { pool.now ≡ self.old.pool }
        requires caught_up { IsCaughtUp self.old seat.old }
        requires takes_calls { TakesCalls self.old.events_limit self.old.history }
        requires may { MayTake self.old.pool.limits self.old.history seat.old.number slice (length (claimed slice self.old.history)) }
        ensures claim { IfOk result (λ taken. taken.0 ≡ record { slice = slice; column = length (claimed slice self.old.history) }) }
        ensures made { MatchResult result (λ taken. Makes (event.Take seat.old.number slice taken.0.column ∷ []) self.old self.new seat.old seat.new)
            (λ _. Makes [] self.old self.new seat.old seat.new) }
        ensures none_outstanding { HasNoneOutstanding seat.new }
        ensures fresh { IfOk result (λ taken. IsFresh taken.0 taken.1 seat.new) }
    {
        let _ = &self.home;
        let Ok(layout) = self.layout_of(slice) else {
            return Err(Memory);
        };
        let claim = self.claim(pool, seat, slice);
        Ok((claim, layout))
    }

    // Begins to clear the lowest slice that can be cleared, and shares the layout that it gets before; where it can't be shared, it does
    // nothing.
    fn clear_laid(
        &mut self,
        pool: &Pool,
        seat: &mut PassSeat,
    ) -> Result<(ToClear, SharedLayout), Memory>
        requires pool { pool.now ≡ self.old.pool }
        requires caught_up { IsCaughtUp self.old seat.old }
        requires takes_calls { TakesCalls self.old.events_limit self.old.history }
        requires may { (slice : ℕ) × MayClear self.old.pool.limits self.old.history seat.old.number slice }
        ensures work { IfOk result (λ begun. MayClear self.old.pool.limits self.old.history seat.old.number begun.0.job.slice
            × IsClearWork self.old.pool self.old.history begun.0) }
        ensures made { MatchResult result (λ begun. Makes (event.Clear seat.old.number begun.0.job.slice ∷ []) self.old self.new seat.old seat.new)
            (λ _. Makes [] self.old self.new seat.old seat.new) }
        ensures none_outstanding { HasNoneOutstanding seat.new }
        ensures laid { IfOk result (λ begun. IsLayoutOf seat.new.pool.config begun.0.job.slice seat.new.front begun.1) }
    {
        let _ = &self.home;
        let Ok(layout) = self.current_layout() else {
            return Err(Memory);
        };
        let Some(work) = self.begin_clear(pool, seat) else {
            unreachable!()
        };
        Ok((work, layout))
    }

    // The layout that a slice has once it is cleared now.
    fn current_layout(&self) -> Result<SharedLayout, Memory>
        ensures { IfOk result (λ layout. IsCurrentLayout self.now.pool.config self.now.history layout) }
    {
        let _ = &self.home;
        self.layouts.current()
    }

    // The layout of a slice.
    pub(crate) fn layout_of(&self, slice: u32) -> Result<SharedLayout, Memory>
        requires { slice < self.now.pool.limits.slices }
        ensures { IfOk result (λ layout. IsLayoutOf self.now.pool.config slice self.now.history layout) }
    {
        let _ = &self.home;
        self.layouts.of(slice)
    }

    // Claims the next column of the slice.
    pub(crate) fn claim(&mut self, pool: &Pool, seat: &mut PassSeat, slice: u32) -> Claim
        requires pool { pool.now ≡ self.old.pool }
        requires caught_up { IsCaughtUp self.old seat.old }
        requires takes_calls { TakesCalls self.old.events_limit self.old.history }
        requires may { MayTake self.old.pool.limits self.old.history seat.old.number slice (length (claimed slice self.old.history)) }
        ensures claim { result ≡ record { slice = slice; column = length (claimed slice self.old.history) } }
        ensures made { Makes (event.Take seat.old.number slice result.column ∷ []) self.old self.new seat.old seat.new }
        ensures none_outstanding { HasNoneOutstanding seat.new }
        ensures nothing_yet { IsUnwritten seat.new }
    {
        let pass = seat.number();
        let column = self.stages.claim(slice);
        let entry = Event::Take {
            pass,
            slice,
            column,
        };
        self.events = pool.make_event(&mut self.home, seat, &entry);
        self.records.claim(slice, column, pass);
        Claim { slice, column }
    }

    // Makes the event of a refused add, or put where it replaces.
    fn refuse_add(&mut self, pool: &Pool, seat: &mut PassSeat, doc: &Doc, replaces: bool)
        requires pool { pool.now ≡ self.old.pool }
        requires caught_up { IsCaughtUp self.old seat.old }
        requires idle { IsIdle seat.old.number self.old.history }
        requires refused { IsRefused self.old.pool.limits self.old.history (call_asked replaces doc.now.id doc.now.text) }
        requires takes_calls { TakesCalls self.old.events_limit self.old.history }
        ensures made { Makes (event.No seat.old.number (call_asked replaces doc.now.id doc.now.text) ∷ []) self.old self.new seat.old seat.new }
        ensures none_outstanding { HasNoneOutstanding seat.new }
    {
        let pass = seat.number();
        self.make_plain(
            pool,
            seat,
            &Refuses {
                pass,
                replaces,
                doc,
            },
        );
    }

    // Makes the add of the document, and gives its place.
    fn make_add(
        &mut self,
        pool: &Pool,
        seat: &mut PassSeat,
        claim: Claim,
        doc: Doc,
        bits: &Bits,
    ) -> u64
        requires pool { pool.now ≡ self.old.pool }
        requires caught_up { IsCaughtUp self.old seat.old }
        requires written { HasWritten self.old.pool claim doc.words bits.now.bits seat.old }
        requires of_words { All (λ b. b.bit < 64) bits.now.bits }
        requires may { AnswersCommit self.old.history doc.id (Ok (place self.old.history + 1)) }
        ensures place { result ≡ place self.old.history + 1 }
        ensures made { Makes (event.Add seat.old.number doc.id doc.text claim.slice claim.column bits.now.bits ∷ []) self.old self.new seat.old seat.new }
        ensures none_outstanding { HasNoneOutstanding seat.new }
    {
        let place = self.journal.place() + 1;
        let documents = self.journal.documents() + 1;
        let pass = seat.number();
        let id = doc.id();
        let _ = doc.words();
        let entry = Adds {
            pass,
            doc: &doc,
            claim: &claim,
            bits,
        };
        let number = pool.make_event(&mut self.home, seat, &entry);
        let Claim { slice, column } = claim;
        self.records.live(slice, column, doc, place, number);
        self.live.add(id, slice, column);
        self.journal.push(Commit { add: true, id }, documents);
        self.events = number;
        place
    }

    // Makes the add of the document in the place of the live one with its number, and gives its place, and the old
    // document unless an open find may ask for it.
    fn make_replace(
        &mut self,
        pool: &Pool,
        seat: &mut PassSeat,
        claim: Claim,
        doc: Doc,
        bits: &Bits,
    ) -> (u64, Option<Doc>)
        requires pool { pool.now ≡ self.old.pool }
        requires caught_up { IsCaughtUp self.old seat.old }
        requires written { HasWritten self.old.pool claim doc.words bits.now.bits seat.old }
        requires of_words { All (λ b. b.bit < 64) bits.now.bits }
        requires present { is_live doc.id self.old.history ≡ true }
        ensures place { result.0 ≡ place self.old.history + 1 }
        ensures gone { GivesBackOld self.old.history doc.id result.1 }
        ensures made { Makes (event.Add seat.old.number doc.id doc.text claim.slice claim.column bits.now.bits ∷ []) self.old self.new seat.old seat.new }
        ensures none_outstanding { HasNoneOutstanding seat.new }
    {
        let place = self.journal.place() + 1;
        let documents = self.journal.documents();
        let pass = seat.number();
        let id = doc.id();
        let _ = doc.words();
        let entry = Adds {
            pass,
            doc: &doc,
            claim: &claim,
            bits,
        };
        let number = pool.make_event(&mut self.home, seat, &entry);
        let Some((from, left)) = self.live.remove(id) else {
            unreachable!()
        };
        let Claim { slice, column } = claim;
        let since = self.records.delete(from, left, number);
        let ended = Ended {
            slice: from,
            column: left,
            columns: self.columns,
            since,
            until: number,
        };
        let gone = let_go(&self.tokens, &mut self.leaving, &mut self.records, ended);
        self.records.live(slice, column, doc, place, number);
        self.live.add(id, slice, column);
        self.stages.end_column(from, number);
        self.journal.push(Commit { add: true, id }, documents);
        self.events = number;
        (place, gone)
    }

    // Makes the drop of the document.
    fn make_drop(&mut self, pool: &Pool, seat: &mut PassSeat, claim: Claim, doc: Doc)
        requires pool { pool.now ≡ self.old.pool }
        requires caught_up { IsCaughtUp self.old seat.old }
        requires claim { HoldsClaim seat.old claim }
        requires present { is_live doc.id self.old.history ≡ true }
        ensures made { Makes (event.Drop seat.old.number doc.id doc.text claim.slice claim.column ∷ []) self.old self.new seat.old seat.new }
        ensures none_outstanding { HasNoneOutstanding seat.new }
    {
        let pass = seat.number();
        let entry = Drops {
            pass,
            doc: &doc,
            claim: &claim,
        };
        let number = pool.make_event(&mut self.home, seat, &entry);
        let Claim { slice, column } = claim;
        self.records.drop_column(slice, column);
        self.stages.end_column(slice, number);
        self.events = number;
    }
}
