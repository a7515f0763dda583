//! Moves: documents go from the slice that holds the fewest to others, so that it retires.
ghost use Rattle.std.specs.Prelude.{◌≡◌, ◌↔◌, ℕ, ◌<◌, [], ◌∷◌, All, IfOk, IfSome, IsTrue, None, cond, length, true, MatchOption};
ghost use Rattle.funnel_model.specs.History.{Document, has_cause};
ghost use Rattle.funnel_model.specs.Legal.{IsIdle};
ghost use Rattle.funnel_model.specs.declared.event.Event.TheVariants as event;
ghost use Rattle.funnel_model.specs.Reserve.{HasReadyColumns, HasSpareColumns, HoldsColumns, IsSource};
ghost use Rattle.funnel_model.specs.Slices.{IsInState, Live, claimed};
ghost use Rattle.funnel_model.specs.Words.{AreWordsOf};
ghost use Rattle.slice_rule.specs.Seats.{HasNoneOutstanding, HoldsClaim, IsSeated};
ghost use Rattle.commit_desk.specs.Desks.{IsCaughtUp, IsFresh, Makes};
ghost use Rattle.commit_desk.specs.Passes.{HasWritten};
ghost use Rattle.commit_desk.specs.Leaving.{GivesBackOld, HandsBackMoved, is_moved};
ghost use Rattle.commit_desk.specs.Moving.{AnswersLook, AnswersTakeMove, HoldsLook, MayTakeFor, MayTakeNone, HasLive, HasOneToMove, HasRoomToEmpty, IsLowestFree, LacksRoomToEmpty};
ghost use Rattle.commit_desk.specs.Moving.{IsLowestLiveOrNone, IsPartlyHeld, IsFreeToMove, IsNextToMove, IsThereStill, IsToBeEmptied};
ghost use Rattle.commit_desk.specs.Moving.{document_of, is_fewer, event_of_move, events_of_take_move, looks_after, looks_after_take, room_to_empty, with_look};

use crate::answers::{EndedMove, NotTaken, TakenMove};
use crate::clearing::move_mark;
use crate::desk::Desk;
use crate::entries::Moves;
use crate::leaving::{Ended, let_go};
use crate::look::{Look, Looks, OpenLook};
use document_store::{Column, Doc};
use funnel_model::{Claim, Event, Memory};
use row_layout::Bits;
use slice_rule::{PassSeat, Pool};
use slice_stages::Stage;
use std::alloc::Global;

impl Desk {
    /// Looks at the next document that is to be moved before one with this number is added, or put where it `replaces`, where there is
    /// one. The look is handed on to `take_move` and then to `end_move`, or spent by `Looks::end`. Its document is a copy, for which
    /// memory is taken. What the pass itself may have named before counts no more.
    pub fn look(
        &mut self,
        alloc: Global,
        pool: &Pool,
        seat: &mut PassSeat,
        looks: &mut Looks,
        reserve: u32,
        replaces: bool,
        id: u64,
    ) -> Result<Option<Look>, Memory>
        requires pool { pool.now ≡ self.old.pool }
        requires seat { IsSeated self.old.pool seat.old }
        requires idle { IsIdle seat.old.number seat.old.front }
        ensures answer { AnswersLook reserve self.old.events_limit self.old.pool.limits (with_look looks.old seat.old.number None) self.old.history
            seat.old.number replaces id result }
        ensures events { Makes [] self.old self.new seat.old seat.new }
        ensures looks { looks.new ≡ looks_after (with_look looks.old seat.old.number None) result }
        ensures look { IfOk result (λ found. IfSome found (HoldsLook seat.new)) }
        ensures none_outstanding { HasNoneOutstanding seat.new }
    {
        pool.catch_up(&mut self.home, seat);
        let pass = seat.number();
        looks.forget(pass);
        let Some(slice) = self.to_be_emptied(reserve, replaces, id) else {
            return Ok(None);
        };
        let column = self.next_to_move(looks, slice);
        let look = self.look_at(alloc, pass, slice, column)?;
        looks.name(&look);
        Ok(Some(look))
    }

    /// Claims a column for the document that was looked at, and tells the layout of its slice. It looks again whether the document is there
    /// still, which another pass may have moved, and whether there is room to empty its slice, which other looks may have been given too.
    /// Where it claims none the look is over: so it is also where the layout can't be shared.
    pub fn take_move(
        &mut self,
        pool: &Pool,
        seat: &mut PassSeat,
        looks: &mut Looks,
        look: Look,
    ) -> Result<TakenMove, NotTaken>
        requires pool { pool.now ≡ self.old.pool }
        requires seat { IsSeated self.old.pool seat.old }
        requires idle { IsIdle seat.old.number seat.old.front }
        ensures answer { AnswersTakeMove self.old.events_limit self.old.pool.limits self.old.history seat.old.number look result }
        ensures events { Makes (events_of_take_move seat.old.number result) self.old self.new seat.old seat.new }
        ensures looks { looks.new ≡ looks_after_take looks.old look result }
        ensures fresh { IfOk result (λ taken. IsFresh taken.claim taken.layout seat.new) }
        ensures none_outstanding { HasNoneOutstanding seat.new }
    {
        pool.catch_up(&mut self.home, seat);
        let Some(slice) = self.slice_for_move(&look) else {
            return Err(NotTaken::NoColumn(looks.end(look)));
        };
        match self.claim_laid(pool, seat, slice) {
            Ok((claim, layout)) => Ok(TakenMove {
                claim,
                look,
                layout,
            }),
            Err(Memory) => Err(NotTaken::Memory(looks.end(look))),
        }
    }

    /// Moves the document to the column that was claimed for it, all of whose bits the pass has set; or leaves the column void where
    /// the document isn't any more where it was looked at. The copy that isn't needed is handed back, and so is the document in the old
    /// column unless an open find may ask for it. It takes no memory.
    pub fn end_move(
        &mut self,
        pool: &Pool,
        seat: &mut PassSeat,
        looks: &mut Looks,
        claim: Claim,
        look: Look,
        bits: &Bits,
    ) -> EndedMove
        requires pool { pool.now ≡ self.old.pool }
        requires look { HoldsLook seat.old look }
        requires written { HasWritten self.old.pool claim look.doc.words bits.now.bits seat.old }
        ensures answer { IsTrue (is_moved result) ↔ IsThereStill self.old.history look }
        ensures doc { HandsBackMoved self.old.history look result }
        ensures events { Makes (event_of_move seat.old.number look claim bits.now.bits (is_moved result) ∷ []) self.old self.new seat.old seat.new }
        ensures looks { looks.new ≡ with_look looks.old look.opened None }
        ensures none_outstanding { HasNoneOutstanding seat.new }
    {
        pool.catch_up(&mut self.home, seat);
        if self.is_there_still(&look) {
            let made = self.make_move(pool, seat, claim, look, bits);
            let (opened, gone) = made;
            looks.close(opened);
            return EndedMove::Moved(gone);
        }
        let doc = looks.end(look);
        self.make_void(pool, seat, claim);
        EndedMove::Void(doc)
    }

    // The slice out of which documents are to be moved before one with this number is added or put, where there is one.
    fn to_be_emptied(&mut self, reserve: u32, replaces: bool, id: u64) -> Option<u32>
        ensures answer { MatchOption result
            ((slice held : ℕ) → IsToBeEmptied reserve self.old.events_limit self.old.pool.limits self.old.history replaces id slice held → ⊥)
            (λ slice. (held : ℕ) × IsToBeEmptied reserve self.old.events_limit self.old.pool.limits self.old.history replaces id slice held) }
        ensures same { self.new ≡ self.old }
    {
        if self.is_spent()
            || self.in_the_way(replaces, id).is_some()
            || reserve as u64 <= self.spare()
        {
            return None;
        }
        let Some((slice, held)) = self.source() else {
            return None;
        };
        if self.ready() < room_to_empty(held) {
            return None;
        }
        Some(slice)
    }

    // The slice of which a column is claimed for the document that was looked at, where one is.
    fn slice_for_move(&mut self, look: &Look) -> Option<u32>
        ensures answer { (pass : ℕ) → IsIdle pass self.old.history →
            MatchOption result (MayTakeNone self.old.events_limit self.old.pool.limits self.old.history pass look.now)
            (λ slice. MayTakeFor self.old.events_limit self.old.pool.limits self.old.history pass look.now slice (length (claimed slice self.old.history))) }
        ensures same { self.new ≡ self.old }
    {
        if self.is_spent() || !self.is_there_still(look) {
            return None;
        }
        let Some(slice) = self.stages.with_room() else {
            return None;
        };
        if slice == look.slice || !self.has_room_to_empty(look.slice) {
            return None;
        }
        Some(slice)
    }

    // Whether the ready columns suffice for emptying the slice.
    fn has_room_to_empty(&mut self, slice: u32) -> bool
        ensures room { cond result (HasRoomToEmpty self.old.pool.limits self.old.history slice) (LacksRoomToEmpty self.old.pool.limits self.old.history slice) }
        ensures same { self.new ≡ self.old }
    {
        let held = self.count_held(slice);
        room_to_empty(held) <= self.ready()
    }

    // How many columns of the slice are held.
    fn count_held(&self, slice: u32) -> u32
        ensures { HoldsColumns self.now.pool.limits.columns self.now.history slice result }
    {
        let _ = &self.home;
        self.stages.held(slice)
    }

    // How many columns are spare.
    fn spare(&self) -> u64
        ensures { HasSpareColumns self.now.pool.limits self.now.history result }
    {
        let _ = &self.home;
        self.stages.spare()
    }

    // How many columns are ready.
    fn ready(&mut self) -> u64
        ensures ready { HasReadyColumns self.old.pool.limits self.old.history result }
        ensures same { self.new ≡ self.old }
    {
        let _ = &self.home;
        move_mark(&self.tokens, &mut self.stages, self.events);
        self.stages.ready()
    }

    // The slice out of which documents are moved next, and how many of its columns are held.
    fn source(&self) -> Option<(u32, u32)>
        ensures { MatchOption result ((slice held : ℕ) → IsSource self.now.pool.limits self.now.history slice held → ⊥)
            (λ source. IsSource self.now.pool.limits self.now.history source.0 source.1) }
    {
        let _ = &self.home;
        let mut source = None;
        for slice in 0..self.slices {
            if let Some(held) = self.held(slice) {
                if is_fewer(held, source) && self.has_live(slice) {
                    source = Some((slice, held));
                }
            }
        }
        source
    }

    // How many columns of the slice are held, where it is filled and not all of them are.
    fn held(&self, slice: u32) -> Option<u32>
        requires { slice < self.now.pool.limits.slices }
        ensures { MatchOption result ((held : ℕ) → IsPartlyHeld self.now.pool.limits.columns self.now.history slice held → ⊥)
            (IsPartlyHeld self.now.pool.limits.columns self.now.history slice) }
    {
        let _ = &self.home;
        let Stage::InUse { claimed, over } = self.stages.stage(slice) else {
            return None;
        };
        if claimed == self.columns && 0 < over {
            return Some(self.columns - over);
        }
        None
    }

    // Whether a column of the slice is live.
    fn has_live(&self, slice: u32) -> bool
        requires { slice < self.now.pool.limits.slices }
        ensures { IsTrue result ↔ HasLive self.now.pool.limits.columns self.now.history slice }
    {
        let _ = &self.home;
        self.lowest_live(slice).is_some()
    }

    // The lowest column of the slice with a live document.
    fn lowest_live(&self, slice: u32) -> Option<u32>
        requires { slice < self.now.pool.limits.slices }
        ensures { IsLowestLiveOrNone self.now.pool.limits.columns self.now.history slice result }
    {
        let _ = &self.home;
        for column in self.records.first_over(slice)..self.columns {
            if let Column::Live { .. } = self.records.state(slice, column) {
                return Some(column);
            }
        }
        None
    }

    // The column of the slice whose document is moved next.
    fn next_to_move(&self, looks: &Looks, slice: u32) -> u32
        requires slice { slice < self.now.pool.limits.slices }
        requires live { HasLive self.now.pool.limits.columns self.now.history slice }
        ensures { (document : Document) × (since : ℕ) × IsNextToMove self.now.pool.limits looks.now self.now.history slice result document since }
    {
        let _ = &self.home;
        if let Some(column) = self.lowest_free(looks, slice) {
            return column;
        }
        let Some(column) = self.lowest_live(slice) else {
            unreachable!()
        };
        column
    }

    // The lowest column of the slice with a live document that no open look names.
    fn lowest_free(&self, looks: &Looks, slice: u32) -> Option<u32>
        requires { slice < self.now.pool.limits.slices }
        ensures { MatchOption result
            ((column : ℕ) (document : Document) (since : ℕ) → IsFreeToMove self.now.pool.limits looks.now self.now.history slice column document since → ⊥)
            (λ column. (document : Document) × (since : ℕ) × IsLowestFree self.now.pool.limits looks.now self.now.history slice column document since) }
    {
        let _ = &self.home;
        for column in self.records.first_over(slice)..self.columns {
            if self.is_free_to_move(looks, slice, column) {
                return Some(column);
            }
        }
        None
    }

    // Whether the column has a live document that no open look names.
    fn is_free_to_move(&self, looks: &Looks, slice: u32, column: u32) -> bool
        requires slice { slice < self.now.pool.limits.slices }
        requires column { column < self.now.pool.limits.columns }
        ensures { IsTrue result ↔ HasOneToMove self.now.pool.limits looks.now self.now.history slice column }
    {
        let _ = &self.home;
        match self.records.state(slice, column) {
            Column::Live { .. } => !looks.is_named(slice, column),
            _ => false,
        }
    }

    // A look of the pass at the column, which has a live document.
    fn look_at(&self, alloc: Global, pass: u32, slice: u32, column: u32) -> Result<Look, Memory>
        requires slice { slice < self.now.pool.limits.slices }
        requires column { column < self.now.pool.limits.columns }
        requires live { (document : Document) × (since : ℕ) × IsInState self.now.history slice column (Live document since) }
        ensures slice { IfOk result (λ look. look.slice ≡ slice) }
        ensures column { IfOk result (λ look. look.column ≡ column) }
        ensures opened { IfOk result (λ look. look.opened ≡ pass) }
        ensures live { IfOk result (λ look. IsInState self.now.history slice column (Live (document_of look) look.since)) }
        ensures of_text { IfOk result (λ look. AreWordsOf look.doc.words look.doc.text) }
    {
        let _ = &self.home;
        let Column::Live { place, since } = self.records.state(slice, column) else {
            unreachable!()
        };
        let Some(doc) = self.records.doc(slice, column) else {
            unreachable!()
        };
        let doc = doc.copy(alloc)?;
        Ok(Look {
            slice,
            column,
            place,
            since,
            doc,
            opened: OpenLook { pass },
        })
    }

    // Whether the document is live still in the column that was looked at, by the event that put it there then.
    fn is_there_still(&self, look: &Look) -> bool
        ensures { IsTrue result ↔ IsThereStill self.now.history look.now }
    {
        let _ = &self.home;
        let Some((slice, column)) = self.live.get(look.doc.id()) else {
            return false;
        };
        if slice != look.slice || column != look.column {
            return false;
        }
        match self.records.state(slice, column) {
            Column::Live { since, .. } => since == look.since,
            _ => false,
        }
    }

    // Makes the move. The look is left to be ended, and the document of the old column is given back unless an open find may ask for it.
    fn make_move(
        &mut self,
        pool: &Pool,
        seat: &mut PassSeat,
        claim: Claim,
        look: Look,
        bits: &Bits,
    ) -> (OpenLook, Option<Doc>)
        requires pool { pool.now ≡ self.old.pool }
        requires caught_up { IsCaughtUp self.old seat.old }
        requires written { HasWritten self.old.pool claim look.doc.words bits.now.bits seat.old }
        requires of_words { All (λ b. b.bit < 64) bits.now.bits }
        requires look { HoldsLook seat.old look }
        requires there { IsThereStill self.old.history look }
        ensures made { Makes (event.Move seat.old.number look.doc.id claim.slice claim.column bits.now.bits ∷ []) self.old self.new seat.old seat.new }
        ensures none_outstanding { HasNoneOutstanding seat.new }
        ensures opened { result.0 ≡ look.opened }
        ensures gone { GivesBackOld self.old.history look.doc.id result.1 }
    {
        let pass = seat.number();
        let id = look.doc.id();
        let entry = Moves {
            pass,
            id,
            claim: &claim,
            bits,
        };
        let number = pool.make_event(&mut self.home, seat, &entry);
        let Claim { slice, column } = claim;
        let Look {
            slice: from,
            column: left,
            place,
            since: _,
            doc,
            opened,
        } = look;
        let since = self.records.delete(from, left, number);
        let ended = Ended {
            slice: from,
            column: left,
            columns: self.columns,
            since,
            until: number,
        };
        let gone = let_go(&self.tokens, &mut self.leaving, &mut self.records, ended);
        self.records.live(slice, column, doc, place, number);
        self.live.remove(id);
        self.live.add(id, slice, column);
        self.stages.end_column(from, number);
        self.events = number;
        (opened, gone)
    }

    // Leaves the column that was claimed without a document.
    fn make_void(&mut self, pool: &Pool, seat: &mut PassSeat, claim: Claim)
        requires pool { pool.now ≡ self.old.pool }
        requires caught_up { IsCaughtUp self.old seat.old }
        requires claim { HoldsClaim seat.old claim }
        requires cause { has_cause self.old.history ≡ true }
        ensures made { Makes (event.Void seat.old.number claim.slice claim.column ∷ []) self.old self.new seat.old seat.new }
        ensures none_outstanding { HasNoneOutstanding seat.new }
    {
        let pass = seat.number();
        let entry = Event::Void {
            pass,
            slice: claim.slice,
            column: claim.column,
        };
        let number = pool.make_event(&mut self.home, seat, &entry);
        let Claim { slice, column } = claim;
        self.records.drop_column(slice, column);
        self.stages.end_column(slice, number);
        self.events = number;
    }
}

// How many columns have to be ready so that a slice can be emptied of which so many are held.
fn room_to_empty(held: u32) -> u64
    ensures { result ≡ room_to_empty held }
{
    held as u64 + held.div_ceil(16) as u64
}

// Whether so many are fewer than those of the source so far.
fn is_fewer(held: u32, source: Option<(u32, u32)>) -> bool
    ensures { result ≡ is_fewer held source }
{
    match source {
        Some((_, fewest)) => held < fewest,
        None => true,
    }
}
