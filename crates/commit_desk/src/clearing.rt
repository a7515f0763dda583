ghost use Rattle.std.specs.Prelude.{◌≡◌, ℕ, ◌<◌, ◌≤◌, true, [], ◌∷◌, MatchOption, Ok, Err, IfOk, IfSome};
ghost use Rattle.funnel_model.specs.declared.event.Event.TheVariants as event;
ghost use Rattle.funnel_model.specs.Legal.{IsIdle, MayClear, NoneCanClear};
ghost use Rattle.slice_rule.specs.Seats.{HasNoneOutstanding, HasZeroed, HoldsJob, IsSeated};
ghost use Rattle.commit_desk.specs.Answers.{AnswersClear, IsClearWork, TakesCalls, events_of_clear};
ghost use Rattle.commit_desk.specs.Desks.{IsCaughtUp, Makes};
ghost use Rattle.commit_desk.specs.Kept.{MovesMark};
ghost use Rattle.commit_desk.specs.Layouts.{HandsBackOld};
ghost use Rattle.token_manager.specs.Guarding.{HasOpened};

use crate::answers::{ClearRefusal, ToClear};
use crate::desk::Desk;
use document_store::FreeSlots;
use funnel_model::{Call, ClearJob, Event};
use slice_rule::{PassSeat, Pool};
use slice_stages::Stages;
use token_manager::Tokens;

impl Desk {
    /// Begins to clear the lowest slice that is retired and that no running find guards, for a recycle. The pass clears
    /// the slice's words and empties its slots, and then calls `opened`.
    pub fn start_clear(&mut self, pool: &Pool, seat: &mut PassSeat) -> Result<ToClear, ClearRefusal>
        requires pool { pool.now ≡ self.old.pool }
        requires seat { IsSeated self.old.pool seat.old }
        requires idle { IsIdle seat.old.number seat.old.front }
        ensures answer { AnswersClear self.old.events_limit self.old.pool.limits self.old.history seat.old.number result }
        ensures events { Makes (events_of_clear seat.old.number result) self.old self.new seat.old seat.new }
        ensures none_outstanding { HasNoneOutstanding seat.new }
        ensures old { IfOk result (λ work. HandsBackOld self.old.pool self.old.history work.job.slice work.old_layout) }
    {
        pool.catch_up(&mut self.home, seat);
        if self.is_spent() {
            return Err(ClearRefusal::Spent(self.events));
        }
        if let Some(work) = self.begin_clear(pool, seat) {
            return Ok(work);
        }
        let refusal = self.clear_refusal();
        let pass = seat.number();
        let call = Call::Recycle;
        self.make_plain(pool, seat, &Event::No { pass, call });
        Err(refusal)
    }

    /// Opens the slice that the pass cleared, for a recycle, and gives its number. Its slots, which the pass has emptied, come
    /// back to the records.
    pub fn opened(
        &mut self,
        pool: &Pool,
        seat: &mut PassSeat,
        job: ClearJob,
        slots: FreeSlots,
    ) -> u32
        requires pool { pool.now ≡ self.old.pool }
        requires seat { IsSeated self.old.pool seat.old }
        requires job { HoldsJob seat.old job }
        requires zero { HasZeroed self.old.pool.limits job.slice seat.old }
        requires slots { slots ≡ self.old.pool.limits.columns }
        ensures slice { result ≡ job.slice }
        ensures events { Makes (event.Opened seat.old.number job.slice true ∷ []) self.old self.new seat.old seat.new }
        ensures none_outstanding { HasNoneOutstanding seat.new }
    {
        pool.catch_up(&mut self.home, seat);
        let ClearJob { slice } = job;
        let pass = seat.number();
        let alone = true;
        let entry = Event::Opened { pass, slice, alone };
        self.events = pool.make_event(&mut self.home, seat, &entry);
        self.records.put_back(slice, slots);
        self.stages.open(slice);
        slice
    }

    // The lowest slice that can be cleared, where there is one.
    pub(crate) fn clearable(&mut self) -> Option<u32>
        ensures answer { MatchOption result (NoneCanClear self.old.pool.limits self.old.history)
            (λ slice. (pass : ℕ) → IsIdle pass self.old.history → MayClear self.old.pool.limits self.old.history pass slice) }
        ensures same { self.new ≡ self.old }
    {
        let _ = &self.home;
        move_mark(&self.tokens, &mut self.stages, self.events);
        self.stages.clearable()
    }

    // The pass begins to clear the lowest slice that can be cleared, where there is one. The slice's slots leave the records, and it
    // gets the current layout in place of the one that it had.
    pub(crate) fn begin_clear(&mut self, pool: &Pool, seat: &mut PassSeat) -> Option<ToClear>
        requires pool { pool.now ≡ self.old.pool }
        requires caught_up { IsCaughtUp self.old seat.old }
        requires takes_calls { TakesCalls self.old.events_limit self.old.history }
        requires idle { IsIdle seat.old.number self.old.history }
        ensures may { MatchOption result (NoneCanClear self.old.pool.limits self.old.history)
            (λ work. MayClear self.old.pool.limits self.old.history seat.old.number work.job.slice) }
        ensures work { IfSome result (IsClearWork self.old.pool self.old.history) }
        ensures made { MatchOption result ((self.new ≡ self.old) × (seat.new ≡ seat.old))
            (λ work. Makes (event.Clear seat.old.number work.job.slice ∷ []) self.old self.new seat.old seat.new) }
        ensures none_outstanding { HasNoneOutstanding seat.new }
    {
        move_mark(&self.tokens, &mut self.stages, self.events);
        let Some(slice) = self.stages.clearable() else {
            return None;
        };
        let pass = seat.number();
        self.events = pool.make_event(&mut self.home, seat, &Event::Clear { pass, slice });
        self.stages.clear(slice, pass);
        let slots = self.records.take_out(slice);
        let old_layout = self.layouts.renew(slice);
        let job = ClearJob { slice };
        Some(ToClear {
            job,
            slots,
            old_layout,
        })
    }
}

// Moves the mark up to where the oldest running find began, and where none runs up to the last event: slices that retired up to it can be
// cleared.
pub(crate) fn move_mark(tokens: &Tokens, stages: &mut Stages, events: u64)
    requires within { stages.old.mark ≤ events }
    requires none_before { (pass number : ℕ) → HasOpened tokens.now pass number → stages.old.mark ≤ number }
    ensures { MovesMark events tokens.now stages.old stages.new }
{
    let mark = match tokens.oldest() {
        Some(number) => number,
        None => events,
    };
    stages.look(mark);
}
