ghost use Rattle.std.specs.Prelude.{◌≡◌, ℕ, ◌+◌, ◌<◌, ◌≤◌, ◌↔◌, [], ◌∷◌, length, Contains, IfOk, Ok, vec_capacity};
ghost use Rattle.funnel_model.specs.declared.event.Event.TheVariants as event;
ghost use Rattle.funnel_model.specs.declared.claim.Token.{Token};
ghost use Rattle.funnel_model.specs.Legal.{IsIdle};
ghost use Rattle.funnel_model.specs.Slices.{IsInUse};
ghost use Rattle.funnel_model.specs.Tokens.{HasToken};
ghost use Rattle.row_layout.specs.Sound.{IsSound};
ghost use Rattle.slice_rule.specs.Seats.{HasNoneOutstanding, HoldsToken, IsSeated};
ghost use Rattle.commit_desk.specs.Answers.{AnswersFind, TakesCalls, events_of_find};
ghost use Rattle.commit_desk.specs.Desks.{IsCaughtUp, Makes};
ghost use Rattle.commit_desk.specs.FindLayouts.{AreFindLayouts};
ghost use Rattle.commit_desk.specs.Passes.{IsFinding};
ghost use Rattle.commit_desk.specs.Resolving.{CanGoOn, FindsUpTo};
ghost use Rattle.commit_desk.specs.Scans.{AreOfToken};

use crate::answers::FindFault;
use crate::desk::Desk;
use crate::entries::Finds;
use crate::find_layouts::FindLayouts;
use document_store::{Found, Judge, resolve_part};
use funnel_model::{Candidates, Event, Memory, Token};
use slice_rule::{PassSeat, Pool};

/// What a turn of a find looks at: candidates from one of them on, and who decides which of their documents it keeps.
#[derive(Drop)]
pub struct Part<'a, J> {
    pub candidates: &'a Candidates,
    pub from: usize,
    pub judge: &'a J,
}

impl Desk {
    /// Begins a find. Its token lets it read the slices that are in use, until the find ends. Before the event is made `layouts` gets
    /// their layouts in place of what it had: an entry for each treatment that some of them has. Where it has no room for these, it
    /// takes memory, and never has less room afterwards.
    pub fn open_find(
        &mut self,
        pool: &Pool,
        seat: &mut PassSeat,
        query: &str,
        layouts: &mut FindLayouts,
    ) -> Result<Token, FindFault>
        requires pool { pool.now ≡ self.old.pool }
        requires seat { IsSeated self.old.pool seat.old }
        requires idle { IsIdle seat.old.number seat.old.front }
        ensures answer { AnswersFind self.old.events_limit self.old.pool.limits self.old.history result }
        ensures token { IfOk result (λ token. HoldsToken seat.new token) }
        ensures layouts { IfOk result (λ token. AreFindLayouts self.old.pool self.old.history token layouts.new.entries.items) }
        ensures room { vec_capacity layouts.old.entries ≤ vec_capacity layouts.new.entries }
        ensures sound { IsSound self.old.pool.config self.old.history }
        ensures events { Makes (events_of_find seat.old.number query.now result) self.old self.new seat.old seat.new }
        ensures none_outstanding { HasNoneOutstanding seat.new }
    {
        pool.catch_up(&mut self.home, seat);
        if self.is_spent() {
            return Err(FindFault::Spent(self.events));
        }
        let Ok(()) = self.share_layouts(layouts) else {
            return Err(FindFault::Memory);
        };
        Ok(self.make_find(pool, seat, query))
    }

    /// A turn of a find that looks at candidates from this one on, until there are no more, it has looked up 4,096 of them, or looked for
    /// 256 words, but never ends within a document; and answers where the next turn goes on. `out` gets those whose document was live
    /// when the find began and is kept by the judge, in the order of the candidates; it has room for all that are left. It makes no event,
    /// and takes no memory.
    pub fn resolve_part<J: Judge>(
        &mut self,
        pool: &Pool,
        seat: &mut PassSeat,
        token: &Token,
        part: Part<'_, J>,
        out: &mut Found,
    ) -> usize
        requires pool { pool.now ≡ self.old.pool }
        requires finding { IsFinding self.old.pool token.now seat.old }
        requires of_token { AreOfToken self.old.pool.limits.columns token.now part.candidates.now }
        requires can { CanGoOn part.candidates.now out.old part.from }
        ensures found { (begun : HasToken seat.old.front seat.old.number token.now.opened_at) →
            FindsUpTo begun.earlier (J.test part.entry.judge.now) (J.cost part.entry.judge.now) part.entry.candidates.now part.entry.from result
            out.old.found out.new.found }
        ensures enough { length part.entry.candidates.now ≤ out.new.room + result }
        ensures events { Makes [] self.old self.new seat.old seat.new }
        ensures finding { IsFinding self.new.pool token.now seat.new }
    {
        pool.catch_up(&mut self.home, seat);
        let Part {
            candidates,
            from,
            judge,
        } = part;
        let cost = judge.cost();
        resolve_part(
            &self.records,
            candidates,
            from,
            judge,
            cost,
            token.opened_at,
            out,
        )
    }

    /// Ends a find, whatever it has found. `free_some` is to be called then: there may be documents that only this find may ask for.
    pub fn end_find(&mut self, pool: &Pool, seat: &mut PassSeat, token: Token)
        requires pool { pool.now ≡ self.old.pool }
        requires seat { IsSeated self.old.pool seat.old }
        requires token { HoldsToken seat.old token }
        ensures events { Makes (event.End seat.old.number ∷ []) self.old self.new seat.old seat.new }
        ensures none_outstanding { HasNoneOutstanding seat.new }
    {
        pool.catch_up(&mut self.home, seat);
        self.make_end(pool, seat, token);
    }

    // Puts the slices that a find may read into entries with their layouts, in place of what there was.
    fn share_layouts(&self, layouts: &mut FindLayouts) -> Result<(), Memory>
        ensures shared { IfOk result (λ _. (token : Token) →
            ((slice : ℕ) → Contains token.slices slice ↔
            ((slice < self.now.pool.limits.slices) × IsInUse self.now.pool.limits.columns slice self.now.history)) →
            AreFindLayouts self.now.pool self.now.history token layouts.new.entries.items) }
        ensures room { vec_capacity layouts.old.entries ≤ vec_capacity layouts.new.entries }
    {
        let slices = self.stages.in_use();
        layouts.entries.clear();
        self.layouts.share_out(&slices, layouts)
    }

    // Makes the event that begins a find, and gives its token.
    fn make_find(&mut self, pool: &Pool, seat: &mut PassSeat, query: &str) -> Token
        requires pool { pool.now ≡ self.old.pool }
        requires caught_up { IsCaughtUp self.old seat.old }
        requires idle { IsIdle seat.old.number self.old.history }
        requires takes_calls { TakesCalls self.old.events_limit self.old.history }
        ensures answer { AnswersFind self.old.events_limit self.old.pool.limits self.old.history (Ok result) }
        ensures token { HoldsToken seat.new result }
        ensures made { Makes (event.Find seat.old.number query.now ∷ []) self.old self.new seat.old seat.new }
        ensures none_outstanding { HasNoneOutstanding seat.new }
    {
        let pass = seat.number();
        let place = self.journal.place();
        let opened_at = pool.make_event(&mut self.home, seat, &Finds { pass, query });
        self.tokens.open(pass, opened_at);
        self.events = opened_at;
        Token {
            place,
            opened_at,
            slices: self.stages.in_use(),
        }
    }

    // Makes the event that ends a find. The documents that were kept for it are to be freed then, or kept for another find.
    fn make_end(&mut self, pool: &Pool, seat: &mut PassSeat, token: Token)
        requires pool { pool.now ≡ self.old.pool }
        requires caught_up { IsCaughtUp self.old seat.old }
        requires token { HoldsToken seat.old token }
        ensures made { Makes (event.End seat.old.number ∷ []) self.old self.new seat.old seat.new }
        ensures none_outstanding { HasNoneOutstanding seat.new }
    {
        let Token {
            place: _,
            opened_at: _,
            slices: _,
        } = token;
        let pass = seat.number();
        self.events = pool.make_event(&mut self.home, seat, &Event::End { pass });
        self.tokens.end(pass);
        self.leaving.end(pass);
    }
}
