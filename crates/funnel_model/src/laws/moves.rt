//! What documents that move leave alone in a legal history: a running find still sees each document once, and no other; and where
//! nothing moves.
ghost use Rattle.std.specs.Prelude.{◌≡◌, ◌==◌, ◌&&◌, ◌+◌, ◌<◌, ◌≤◌, ◌↔◌, ◌⊎◌, ◌||◌, ℕ, true, false, List, [], ◌∷◌, ◌++◌, None, Some, Contains, if◌then◌else◌};
ghost use Rattle.funnel_model.specs.declared.call.Call.{Call};
ghost use Rattle.funnel_model.specs.declared.call.Call.TheVariants as call;
ghost use Rattle.funnel_model.specs.declared.reply.Reply.{Reply};
ghost use Rattle.std.specs.List.{list_any};
ghost use Rattle.std.specs.Option.{is_some};
ghost use Rattle.funnel_model.specs.declared.event.Event.{Event};
ghost use Rattle.funnel_model.specs.Events.{bits_added_in, bits_on, call_of, clears, column_taken_in, drops_on, fills, moves, pass_of, put_on};
ghost use Rattle.funnel_model.specs.History.{Document, MovesAreCaused, MovesNothing, has_cause, is_cause, is_live, live, moved_by};
ghost use Rattle.funnel_model.specs.Legal.{IsLegal, Limits};
ghost use Rattle.funnel_model.specs.Steps.{Step};
ghost use Rattle.funnel_model.specs.Slices.{ColumnState, Live, IsHome, IsInState, IsInUse, IsLiveOn};
ghost use Rattle.funnel_model.specs.Tokens.{HasToken, seen_by};

/// In a legal history a live number has one home: the column on which an event put its document and since which no event put a document
/// with this number on any column.
pub fn live_numbers_have_one_home()
    ensures some { (limits : Limits) (history : List Event) (id : ℕ) → IsLegal limits history → is_live id history ≡ true →
        (slice : ℕ) × (column : ℕ) × (slice < limits.slices) × (column < limits.columns) × IsHome history id slice column }
    ensures one { (limits : Limits) (history : List Event) (id slice column other at : ℕ) → IsLegal limits history →
        IsHome history id slice column → IsHome history id other at → (slice ≡ other) × (column ≡ at) }
    ensures last { (limits : Limits) (history : List Event) (slice column other at since : ℕ) (d : Document)
        (before : List Event) (e : Event) (rest : List Event) → IsLegal limits history →
        (is : IsLiveOn history slice column d since) → is.later ≡ before ++ e ∷ rest → put_on other at e ≡ Some d.id → ⊥ }
{}

/// In a legal history an open find sees the documents that were live as it began, however documents were moved, deleted and added
/// since: each in the column that it had then, which is one of a slice that the find may read and that wasn't cleared since. In the
/// slices that it may read it sees no other document, and each number in one column alone.
pub fn finds_see_what_was_live()
    ensures all { (limits : Limits) (history : List Event) (pass number : ℕ) (d : Document) → IsLegal limits history →
        (token : HasToken history pass number) → Contains (live token.earlier) d →
        (slice : ℕ) × (column : ℕ) × (since : ℕ) × (state : ColumnState) × (slice < limits.slices) × (column < limits.columns)
        × IsInState token.earlier slice column (Live d since) × IsInUse limits.columns slice token.earlier
        × (list_any (clears slice) token.later ≡ false) × IsInState history slice column state × (seen_by number state ≡ Some d) }
    ensures no_other { (limits : Limits) (history : List Event) (pass number slice column : ℕ) (state : ColumnState) (d : Document) →
        IsLegal limits history → (token : HasToken history pass number) → IsInUse limits.columns slice token.earlier →
        IsInState history slice column state → seen_by number state ≡ Some d → Contains (live token.earlier) d }
    ensures there { (limits : Limits) (history : List Event) (pass number slice column : ℕ) (state : ColumnState) (d : Document) →
        IsLegal limits history → (token : HasToken history pass number) → IsInUse limits.columns slice token.earlier →
        IsInState history slice column state → seen_by number state ≡ Some d →
        (since : ℕ) × IsInState token.earlier slice column (Live d since) }
    ensures once { (limits : Limits) (history : List Event) (pass number slice column other at : ℕ) (state also : ColumnState)
        (d e : Document) → IsLegal limits history → (token : HasToken history pass number) →
        IsInUse limits.columns slice token.earlier → IsInUse limits.columns other token.earlier →
        IsInState history slice column state → IsInState history other at also →
        seen_by number state ≡ Some d → seen_by number also ≡ Some e → d.id ≡ e.id → (slice ≡ other) × (column ≡ at) }
{}

/// Whether a history moves anything is seen event by event, and so in each part of it. The events that do are those that put a document on
/// a column, or leave one without, and answer no call.
pub fn nothing_moves_event_by_event()
    ensures none { MovesNothing [] }
    ensures push { (history : List Event) (e : Event) → MovesNothing (history ++ e ∷ []) ↔ (MovesNothing history × (moves e ≡ false)) }
    ensures parts { (front rest : List Event) → MovesNothing (front ++ rest) → MovesNothing front × MovesNothing rest }
    ensures kinds { (e : Event) → (moves e ≡ true) ↔ ((call_of e ≡ None) × (slice : ℕ) × (column : ℕ)
        × ((is_some (put_on slice column e) ≡ true) ⊎ (drops_on slice column e ≡ true))) }
{}

/// Whether each move of a history has its cause before it, a delete, a drop or an add in the place of a live document, is seen event by
/// event, and so is whether there is one. A history without one of these moves nothing.
pub fn moves_are_caused_event_by_event()
    ensures none { MovesAreCaused [] }
    ensures push { (history : List Event) (e : Event) →
        MovesAreCaused (history ++ e ∷ []) ↔ (MovesAreCaused history × (moves e ≡ true → has_cause history ≡ true)) }
    ensures front { (front rest : List Event) → MovesAreCaused (front ++ rest) → MovesAreCaused front }
    ensures uncaused { (history : List Event) → MovesAreCaused history → has_cause history ≡ false → MovesNothing history }
    ensures causes { (history : List Event) (e : Event) → has_cause (history ++ e ∷ []) ≡ (has_cause history || is_cause history e) }
{}

/// An add and a put move at most 16 documents, and no other call moves any. How many a pass moved is counted event by event.
pub fn calls_move_few_documents()
    ensures adds { (limits : Limits) (pass : ℕ) (before after : List Event) (id : ℕ) (text : List ℕ) (given : Reply) →
        Step limits pass before after (call.Add id text) given → moved_by pass after ≤ moved_by pass before + 16 }
    ensures puts { (limits : Limits) (pass : ℕ) (before after : List Event) (id : ℕ) (text : List ℕ) (given : Reply) →
        Step limits pass before after (call.Put id text) given → moved_by pass after ≤ moved_by pass before + 16 }
    ensures others { (limits : Limits) (pass : ℕ) (before after : List Event) (asked : Call) (given : Reply) →
        ((id : ℕ) (text : List ℕ) → (asked ≡ call.Add id text → ⊥) × (asked ≡ call.Put id text → ⊥)) → Step limits pass before after asked given →
        moved_by pass after ≤ moved_by pass before }
    ensures counted { (pass : ℕ) (history : List Event) (e : Event) →
        moved_by pass (history ++ e ∷ []) ≡ moved_by pass history + (if pass_of e == pass && moves e then 1 else 0) }
{}

/// An event fills a slice where it takes a column of it, puts a document on one, or leaves one without. The bits that it puts on a column
/// are those that it adds in the column's slice.
pub fn events_fill_what_they_take_or_end()
    ensures fills { (slice : ℕ) (e : Event) → (fills slice e ≡ true) ↔ ((column : ℕ) × ((column_taken_in slice e ≡ Some column)
        ⊎ (is_some (put_on slice column e) ≡ true) ⊎ (drops_on slice column e ≡ true))) }
    ensures bits { (slice column : ℕ) (e : Event) →
        bits_on slice column e ≡ (if is_some (put_on slice column e) then bits_added_in slice e else []) }
{}
