//! The turns of adds, puts, deletes, gets, finds and reads at the desk, each of which is one call of the desk that makes events, and the last of
//! a find its end too. Whoever makes them has the desk under a lock (`Locked`), or is its only owner (`Lone`).
ghost use Rattle.std.specs.Prelude.{◌≡◌, ◌<◌, ◌≤◌, ◌↔◌, true, [], ◌∷◌, IfOk, IfSome, IsTrue, MatchOption, MatchResult, None, string_bytes, string_capacity, vec_capacity};
ghost use Rattle.funnel_model.specs.declared.event.Event.TheVariants as event;
ghost use Rattle.funnel_model.specs.Legal.{IsLegal};
ghost use Rattle.funnel_model.specs.Tokens.{HasToken};
ghost use Rattle.commit_desk.specs.Answers.{AnswersCommit, AnswersDelete, AnswersFind, AnswersJournal, AnswersPlace, AnswersPut, AnswersStats, AnswersText, LeavesRoom};
ghost use Rattle.commit_desk.specs.Answers.{events_of_commit, events_of_delete, events_of_find, events_of_journal, events_of_opened_take, events_of_place, events_of_stats, events_of_take, events_of_text};
ghost use Rattle.commit_desk.specs.Desks.{Makes};
ghost use Rattle.commit_desk.specs.FindLayouts.{AreFindLayouts};
ghost use Rattle.commit_desk.specs.Layouts.{IsLayoutOf};
ghost use Rattle.commit_desk.specs.Leaving.{GivesBackDeleted, GivesBackReplaced, HandsBackMoved, is_moved};
ghost use Rattle.commit_desk.specs.Moving.{AnswersTakeMove, HoldsLook, IsThereStill, event_of_move, events_of_take_move};
ghost use Rattle.commit_desk.specs.Passes.{HasCleared, HasWritten, IsFinding, IsResting, IsToDo, IsToWrite, WritesOrRests};
ghost use Rattle.commit_desk.specs.Resolving.{CanGoOn, FindsUpTo};
ghost use Rattle.commit_desk.specs.Scans.{AreOfToken};
ghost use Rattle.engine.specs.Adds.{IsLookForRoom};
ghost use Rattle.engine.specs.Finds.{ComesTo, end_of_turn, events_of_turn};
ghost use Rattle.engine.specs.Moves.{IsLookForMove};
ghost use Rattle.row_layout.specs.Layouts.{LayoutId};
ghost use Rattle.row_layout.specs.Sound.{IsSound};
ghost use Rattle.slice_recycler.specs.Turns.{IsTurn};

use crate::engine_pool::EnginePool;
use commit_desk::{
    CommitFault, DeleteFault, Desk, EndedMove, FindFault, FindLayouts, JournalFault, Look,
    NotTaken, Part, Put, Spent, Taken, TakenMove, TextRead,
};
use document_store::{Doc, Found, FreeSlots, Judge};
use funnel_model::{Block, Claim, ClearJob, Commits, Memory, Stats, Token};
use row_layout::Bits;
use slice_rule::PassSeat;
use std::alloc::Global;

/// Where a call makes its turns: at the desk of a pool.
pub(crate) trait Turns {
    ghost use Rattle.slice_rule.specs.Pools.{PoolId};

    /// The pool at whose desk they are made.
    ghost made_at: { Self → PoolId };

    /// A look of an add, or of a put, which `replaces`, for a column, which may be its last. It waits first while the slice is being cleared
    /// that the look before it named.
    fn look_for_room(
        &mut self,
        pool: &EnginePool,
        pass: &mut PassSeat,
        doc: &Doc,
        replaces: bool,
        room: &mut Option<Vec<Block>>,
        awaited: Option<u32>,
        last: bool,
    ) -> Taken
        requires at { made_at self.old ≡ pool.now }
        requires rests { IsResting pool.now pass.old }
        requires room { MatchOption room.old ⊥ (λ empty. (empty.items ≡ []) × (pool.now.limits.slices ≤ vec_capacity empty)) }
        requires awaited { IfSome awaited (λ slice. slice < pool.now.limits.slices) }
        ensures turn { IsTurn pass.old.number pass.old.front pass.new.front (IsLookForRoom pool.now pass.old.number replaces doc.now.id awaited last result)
            (events_of_take pass.old.number replaces doc.now.id doc.now.text result) }
        ensures room { LeavesRoom result room.old room.new }
        ensures next { IsToDo pool.now result pass.new }
        ensures number { pass.new.number ≡ pass.old.number }
        ensures legal { IsLegal pool.now.limits pass.new.front }
        ensures at { made_at self.new ≡ pool.now };

    /// The turn of an add that cleared a slice, after which adds that wait for the slice go on. The slice keeps the layout that it had when
    /// the pass began to clear it.
    fn opened_take(
        &mut self,
        pool: &EnginePool,
        pass: &mut PassSeat,
        job: ClearJob,
        slots: FreeSlots,
    ) -> Claim
        requires at { made_at self.old ≡ pool.now }
        requires cleared { HasCleared pool.now job pass.old }
        requires slots { slots ≡ pool.now.limits.columns }
        ensures claim { result ≡ record { slice = job.slice; column = 0 } }
        ensures turn { IsTurn pass.old.number pass.old.front pass.new.front (λ history. Unit {0}) (events_of_opened_take pass.old.number job.slice) }
        ensures next { (layout : LayoutId) → IsLayoutOf pool.now.config job.slice pass.old.front layout → IsToWrite pool.now result layout pass.new }
        ensures number { pass.new.number ≡ pass.old.number }
        ensures legal { IsLegal pool.now.limits pass.new.front }
        ensures at { made_at self.new ≡ pool.now };

    /// The last turn of an add.
    fn commit(
        &mut self,
        pool: &EnginePool,
        pass: &mut PassSeat,
        claim: Claim,
        doc: Doc,
        bits: &Bits,
    ) -> Result<u64, CommitFault>
        requires at { made_at self.old ≡ pool.now }
        requires written { HasWritten pool.now claim doc.words bits.now.bits pass.old }
        ensures turn { IsTurn pass.old.number pass.old.front pass.new.front (λ history. AnswersCommit history doc.id result)
            (events_of_commit pass.old.number doc.id doc.text claim bits.now.bits result) }
        ensures rests { IsResting pool.now pass.new }
        ensures number { pass.new.number ≡ pass.old.number }
        ensures legal { IsLegal pool.now.limits pass.new.front }
        ensures at { made_at self.new ≡ pool.now };

    /// The last turn of a put. The document that it replaces comes back, unless an open find may ask for it, to be dropped when the turn is
    /// over.
    fn put_last(
        &mut self,
        pool: &EnginePool,
        pass: &mut PassSeat,
        claim: Claim,
        doc: Doc,
        bits: &Bits,
    ) -> (Put, Option<Doc>)
        requires at { made_at self.old ≡ pool.now }
        requires written { HasWritten pool.now claim doc.words bits.now.bits pass.old }
        ensures turn { IsTurn pass.old.number pass.old.front pass.new.front
            (λ history. AnswersPut history doc.id result.0 × GivesBackReplaced history doc.id result.0 result.1)
            (event.Add pass.old.number doc.id doc.text claim.slice claim.column bits.now.bits ∷ []) }
        ensures rests { IsResting pool.now pass.new }
        ensures number { pass.new.number ≡ pass.old.number }
        ensures legal { IsLegal pool.now.limits pass.new.front }
        ensures at { made_at self.new ≡ pool.now };

    /// The first turn of a move.
    fn look(
        &mut self,
        alloc: Global,
        pool: &EnginePool,
        pass: &mut PassSeat,
        replaces: bool,
        id: u64,
    ) -> Result<Option<Look>, Memory>
        requires at { made_at self.old ≡ pool.now }
        requires rests { IsResting pool.now pass.old }
        ensures turn { IsTurn pass.old.number pass.old.front pass.new.front
            (IsLookForMove pool.now.config.reserve pool.now.limits pass.old.number replaces id result) [] }
        ensures look { IfOk result (λ found. IfSome found (HoldsLook pass.new)) }
        ensures rests { IsResting pool.now pass.new }
        ensures number { pass.new.number ≡ pass.old.number }
        ensures at { made_at self.new ≡ pool.now };

    /// The turn of a move that found no memory for its bits. It gives the document back, to be dropped when the turn is over: none is to be
    /// had of a look but by `Looks::end`, which ends the look.
    fn drop_look(&mut self, look: Look) -> Doc
        ensures ended { result ≡ look.doc }
        ensures at { made_at self.new ≡ made_at self.old };

    /// The second turn of a move. Where no column is claimed the document comes back, to be dropped when the turn is over.
    fn take_move(
        &mut self,
        pool: &EnginePool,
        pass: &mut PassSeat,
        look: Look,
    ) -> Result<TakenMove, NotTaken>
        requires at { made_at self.old ≡ pool.now }
        requires rests { IsResting pool.now pass.old }
        ensures turn { IsTurn pass.old.number pass.old.front pass.new.front
            (λ history. AnswersTakeMove pool.now.limits.events pool.now.limits history pass.old.number look result) (events_of_take_move pass.old.number result) }
        ensures next { WritesOrRests pool.now result pass.new }
        ensures number { pass.new.number ≡ pass.old.number }
        ensures at { made_at self.new ≡ pool.now };

    /// The last turn of a move. The copy of a document that isn't moved comes back, and of one that is the document of the old column, unless
    /// an open find may ask for it, to be dropped when the turn is over.
    fn end_move(
        &mut self,
        pool: &EnginePool,
        pass: &mut PassSeat,
        claim: Claim,
        look: Look,
        bits: &Bits,
    ) -> EndedMove
        requires at { made_at self.old ≡ pool.now }
        requires written { HasWritten pool.now claim look.doc.words bits.now.bits pass.old }
        requires look { HoldsLook pass.old look }
        ensures turn { IsTurn pass.old.number pass.old.front pass.new.front
            (λ history. (IsTrue (is_moved result) ↔ IsThereStill history look) × HandsBackMoved history look result)
            (event_of_move pass.old.number look claim bits.now.bits (is_moved result) ∷ []) }
        ensures rests { IsResting pool.now pass.new }
        ensures number { pass.new.number ≡ pass.old.number }
        ensures at { made_at self.new ≡ pool.now };

    /// The first turn of a find. It tells by which layouts the find reads its slices. A refused one may leave some of them.
    fn open_find(
        &mut self,
        pool: &EnginePool,
        pass: &mut PassSeat,
        query: &str,
        layouts: &mut FindLayouts,
    ) -> Result<Token, FindFault>
        requires at { made_at self.old ≡ pool.now }
        requires rests { IsResting pool.now pass.old }
        ensures turn { IsTurn pass.old.number pass.old.front pass.new.front (λ history. AnswersFind pool.now.limits.events pool.now.limits history result)
            (events_of_find pass.old.number query.now result) }
        ensures next { MatchResult result (λ token. IsFinding pool.now token pass.new) (λ _. IsResting pool.now pass.new) }
        ensures layouts { IfOk result (λ token. (begun : HasToken pass.new.front pass.new.number token.opened_at) →
            AreFindLayouts pool.now begun.earlier token layouts.new.entries.items) }
        ensures room { vec_capacity layouts.old.entries ≤ vec_capacity layouts.new.entries }
        ensures sound { IfOk result (λ token. (begun : HasToken pass.new.front pass.new.number token.opened_at) → IsSound pool.now.config begun.earlier) }
        ensures number { pass.new.number ≡ pass.old.number }
        ensures legal { IsLegal pool.now.limits pass.new.front }
        ensures at { made_at self.new ≡ pool.now };

    /// A turn of a find that looks at candidates from one on, while the turn isn't over. Where these are its last ones, the turn that looks at
    /// the last of them ends the find. Any other hands the token back, and tells where the next goes on.
    fn resolve_turn<J: Judge>(
        &mut self,
        pool: &EnginePool,
        pass: &mut PassSeat,
        token: Token,
        part: Part<'_, J>,
        last: bool,
        out: &mut Found,
    ) -> Option<(Token, usize)>
        requires at { made_at self.old ≡ pool.now }
        requires finding { IsFinding pool.now token pass.old }
        requires of_token { AreOfToken pool.now.limits.columns token part.candidates.now }
        requires can { CanGoOn part.candidates.now out.old part.from }
        ensures found { (begun : HasToken pass.old.front pass.old.number token.opened_at) → FindsUpTo begun.earlier (J.test part.entry.judge.now)
            (J.cost part.entry.judge.now) part.entry.candidates.now part.entry.from (end_of_turn part.entry.candidates.now result) out.old.found out.new.found }
        ensures next { IfSome result (λ next. IsFinding pool.now next.0 pass.new × ComesTo token part.entry.candidates.now last part.entry.from out.new next) }
        ensures over { result ≡ None → (last ≡ true) × IsResting pool.now pass.new }
        ensures turn { IsTurn pass.old.number pass.old.front pass.new.front (λ history. Unit {0}) (events_of_turn pass.old.number result) }
        ensures number { pass.new.number ≡ pass.old.number }
        ensures legal { IsLegal pool.now.limits pass.new.front }
        ensures at { made_at self.new ≡ pool.now };

    /// The turn that ends a find that found no memory, or whose slices all have been looked at.
    fn drop_find(&mut self, pool: &EnginePool, pass: &mut PassSeat, token: Token)
        requires at { made_at self.old ≡ pool.now }
        requires finding { IsFinding pool.now token pass.old }
        ensures turn { IsTurn pass.old.number pass.old.front pass.new.front (λ history. Unit {0}) (event.End pass.old.number ∷ []) }
        ensures rests { IsResting pool.now pass.new }
        ensures number { pass.new.number ≡ pass.old.number }
        ensures legal { IsLegal pool.now.limits pass.new.front }
        ensures at { made_at self.new ≡ pool.now };

    /// The turn of a delete. Its document comes back, unless an open find may ask for it, to be dropped when the turn is over.
    fn delete(
        &mut self,
        pool: &EnginePool,
        pass: &mut PassSeat,
        id: u64,
    ) -> (Result<u64, DeleteFault>, Option<Doc>)
        requires at { made_at self.old ≡ pool.now }
        requires rests { IsResting pool.now pass.old }
        ensures turn { IsTurn pass.old.number pass.old.front pass.new.front
            (λ history. AnswersDelete pool.now.limits.events history id result.0 × GivesBackDeleted history id result.0 result.1)
            (events_of_delete pass.old.number id result.0) }
        ensures rests { IsResting pool.now pass.new }
        ensures number { pass.new.number ≡ pass.old.number }
        ensures legal { IsLegal pool.now.limits pass.new.front }
        ensures at { made_at self.new ≡ pool.now };

    /// A turn of a get. It makes no event where the text has no room yet, which is empty.
    fn look_for_text(
        &mut self,
        pool: &EnginePool,
        pass: &mut PassSeat,
        id: u64,
        room: &mut String,
    ) -> TextRead
        requires at { made_at self.old ≡ pool.now }
        requires rests { IsResting pool.now pass.old }
        requires empty { string_bytes room.old ≡ [] }
        ensures turn { IsTurn pass.old.number pass.old.front pass.new.front
            (λ history. AnswersText pool.now.limits.events history id (string_capacity room.old) (string_bytes room.new) result)
            (events_of_text pass.old.number id result) }
        ensures rests { IsResting pool.now pass.new }
        ensures number { pass.new.number ≡ pass.old.number }
        ensures legal { IsLegal pool.now.limits pass.new.front }
        ensures at { made_at self.new ≡ pool.now };

    /// The turn of a place.
    fn read_place(&mut self, pool: &EnginePool, pass: &mut PassSeat) -> Result<u64, Spent>
        requires at { made_at self.old ≡ pool.now }
        requires rests { IsResting pool.now pass.old }
        ensures turn { IsTurn pass.old.number pass.old.front pass.new.front (λ history. AnswersPlace pool.now.limits.events history result)
            (events_of_place pass.old.number result) }
        ensures rests { IsResting pool.now pass.new }
        ensures number { pass.new.number ≡ pass.old.number }
        ensures legal { IsLegal pool.now.limits pass.new.front }
        ensures at { made_at self.new ≡ pool.now };

    /// The turn of a journal.
    fn read_journal(
        &mut self,
        alloc: Global,
        pool: &EnginePool,
        pass: &mut PassSeat,
        from: u64,
    ) -> Result<Commits, JournalFault>
        requires at { made_at self.old ≡ pool.now }
        requires rests { IsResting pool.now pass.old }
        ensures turn { IsTurn pass.old.number pass.old.front pass.new.front
            (λ history. AnswersJournal pool.now.limits.events pool.now.limits history from result) (events_of_journal pass.old.number from result) }
        ensures rests { IsResting pool.now pass.new }
        ensures number { pass.new.number ≡ pass.old.number }
        ensures legal { IsLegal pool.now.limits pass.new.front }
        ensures at { made_at self.new ≡ pool.now };

    /// The turn in which the engine's numbers are told.
    fn read_stats(&mut self, pool: &EnginePool, pass: &mut PassSeat) -> Result<Stats, Spent>
        requires at { made_at self.old ≡ pool.now }
        requires rests { IsResting pool.now pass.old }
        ensures turn { IsTurn pass.old.number pass.old.front pass.new.front (λ history. AnswersStats pool.now.limits.events pool.now.limits history result)
            (events_of_stats pass.old.number result) }
        ensures rests { IsResting pool.now pass.new }
        ensures number { pass.new.number ≡ pass.old.number }
        ensures legal { IsLegal pool.now.limits pass.new.front }
        ensures at { made_at self.new ≡ pool.now };
}

// Looks at candidates from one on, while the turn isn't over. Where these are a find's last ones, and the last of them was looked at, the find
// is ended.
pub(crate) fn resolve_or_end<J: Judge>(
    desk: &mut Desk,
    pool: &EnginePool,
    pass: &mut PassSeat,
    token: Token,
    part: Part<'_, J>,
    last: bool,
    out: &mut Found,
) -> Option<(Token, usize)>
    requires at { desk.old.pool ≡ pool.now }
    requires finding { IsFinding pool.now token pass.old }
    requires of_token { AreOfToken pool.now.limits.columns token part.candidates.now }
    requires can { CanGoOn part.candidates.now out.old part.from }
    ensures found { (begun : HasToken pass.old.front pass.old.number token.opened_at) → FindsUpTo begun.earlier (J.test part.entry.judge.now)
        (J.cost part.entry.judge.now) part.entry.candidates.now part.entry.from (end_of_turn part.entry.candidates.now result) out.old.found out.new.found }
    ensures next { IfSome result (λ next. IsFinding pool.now next.0 pass.new × ComesTo token part.entry.candidates.now last part.entry.from out.new next) }
    ensures over { result ≡ None → (last ≡ true) × IsResting pool.now pass.new }
    ensures events { Makes (events_of_turn pass.old.number result) desk.old desk.new pass.old pass.new }
{
    let count = part.candidates.len();
    let next = desk.resolve_part(&pool.pool, pass, &token, part, out);
    if next < count {
        return Some((token, next));
    }
    if last {
        desk.end_find(&pool.pool, pass, token);
        return None;
    }
    Some((token, next))
}
