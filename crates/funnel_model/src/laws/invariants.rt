//! What holds of every legal history: what the last event of a pass tells of it, and how slices fill and retire.
ghost use Rattle.std.specs.Prelude.{◌≡◌, ◌==◌, ◌<◌, ◌⊎◌, ℕ, Bool, true, false, List, [], ◌∷◌, ◌++◌, length, None, Some};
ghost use Rattle.std.specs.List.{All, list_any, range_with_len};
ghost use Rattle.funnel_model.specs.declared.bit_list.Bit.{Bit};
ghost use Rattle.funnel_model.specs.declared.call.Call.{Call};
ghost use Rattle.funnel_model.specs.declared.call.Call.TheVariants as call;
ghost use Rattle.funnel_model.specs.declared.config.Config.{Config};
ghost use Rattle.funnel_model.specs.declared.event.Event.{Event};
ghost use Rattle.funnel_model.specs.declared.event.Event.TheVariants as event;
ghost use Rattle.funnel_model.specs.Events.{drops_on, pass_of, takes_off};
ghost use Rattle.funnel_model.specs.History.{is_live, last_by};
ghost use Rattle.funnel_model.specs.Legal.{IsAllowed, IsIdle, IsInSlice, IsLegal, Limits, OnlyReads, awaited};
ghost use Rattle.funnel_model.specs.Slices.{Pending, IsFilled, IsInState, IsRetired, IsRetiredAt, claimed, is_claimed, is_clearing, is_clearing_by};
ghost use Rattle.funnel_model.specs.Steps.{IsLowestGuarded};
ghost use Rattle.funnel_model.specs.Tokens.{Guards, HasToken};

/// Each event of a legal history is of one of the engine's passes.
pub fn events_are_of_the_engines_passes()
    ensures { (limits : Limits) (history : List Event) → IsLegal limits history → All (λ e. pass_of e < limits.passes) history }
{}

/// In a legal history a column is pending by a pass exactly where the pass's last event is the take of it, a pass is clearing a
/// slice exactly where its last event is the clear of it, and its token is open exactly where its last event is a find, which
/// is the token's.
pub fn last_events_tell_what_passes_hold()
    ensures pending { (limits : Limits) (history : List Event) (slice column pass : ℕ) → IsLegal limits history →
        IsInState history slice column (Pending pass) → last_by pass history ≡ Some (event.Take pass slice column) }
    ensures taken { (limits : Limits) (history : List Event) (slice column pass : ℕ) → IsLegal limits history →
        last_by pass history ≡ Some (event.Take pass slice column) → IsInState history slice column (Pending pass) }
    ensures clearing { (limits : Limits) (history : List Event) (pass slice : ℕ) → IsLegal limits history →
        is_clearing_by pass slice history ≡ true → last_by pass history ≡ Some (event.Clear pass slice) }
    ensures cleared { (limits : Limits) (history : List Event) (pass slice : ℕ) → IsLegal limits history →
        last_by pass history ≡ Some (event.Clear pass slice) → is_clearing_by pass slice history ≡ true }
    ensures finding { (limits : Limits) (history : List Event) (pass number : ℕ) → IsLegal limits history → HasToken history pass number →
        (query : List ℕ) × (last_by pass history ≡ Some (event.Find pass query)) }
    ensures found { (history : List Event) (pass : ℕ) (query : List ℕ) → last_by pass history ≡ Some (event.Find pass query) →
        (number : ℕ) × HasToken history pass number }
    ensures since { (limits : Limits) (history : List Event) (pass number : ℕ) → IsLegal limits history →
        (token : HasToken history pass number) → list_any (λ e. pass_of e == pass) token.later ≡ false }
{}

/// In a legal history a pass has at most one pending column, clears at most one slice and has at most one open token, and a
/// slice is cleared by at most one pass.
pub fn passes_hold_one_thing()
    ensures column { (limits : Limits) (history : List Event) (pass slice column other at : ℕ) → IsLegal limits history →
        IsInState history slice column (Pending pass) → IsInState history other at (Pending pass) → (slice ≡ other) × (column ≡ at) }
    ensures slice { (limits : Limits) (history : List Event) (pass slice other : ℕ) → IsLegal limits history →
        is_clearing_by pass slice history ≡ true → is_clearing_by pass other history ≡ true → slice ≡ other }
    ensures clearer { (limits : Limits) (history : List Event) (pass other slice : ℕ) → IsLegal limits history →
        is_clearing_by pass slice history ≡ true → is_clearing_by other slice history ≡ true → pass ≡ other }
    ensures token { (history : List Event) (pass number other : ℕ) → HasToken history pass number → HasToken history pass other →
        number ≡ other }
{}

/// What a pass does next in the middle of a call: after a take it adds, drops, moves or voids there, after a clear it opens the slice, and
/// after a find it ends it. After an opening for an add its take is the next event of all.
pub fn calls_go_on()
    ensures take { (limits : Limits) (history : List Event) (e : Event) (pass slice column : ℕ) → IsAllowed limits history e →
        last_by (pass_of e) history ≡ Some (event.Take pass slice column) →
        ((id : ℕ) × (text : List ℕ) × (bits : List Bit) × (e ≡ event.Add pass id text slice column bits))
        ⊎ ((id : ℕ) × (text : List ℕ) × (e ≡ event.Drop pass id text slice column))
        ⊎ ((id : ℕ) × (bits : List Bit) × (e ≡ event.Move pass id slice column bits)) ⊎ (e ≡ event.Void pass slice column) }
    ensures clear { (limits : Limits) (history : List Event) (e : Event) (pass slice : ℕ) → IsAllowed limits history e →
        last_by (pass_of e) history ≡ Some (event.Clear pass slice) → (alone : Bool) × (e ≡ event.Opened pass slice alone) }
    ensures find { (limits : Limits) (history : List Event) (e : Event) (pass : ℕ) (query : List ℕ) → IsAllowed limits history e →
        last_by (pass_of e) history ≡ Some (event.Find pass query) → e ≡ event.End pass }
    ensures opened { (limits : Limits) (history : List Event) (e : Event) (pass slice : ℕ) →
        IsAllowed limits (history ++ event.Opened pass slice false ∷ []) e → e ≡ event.Take pass slice 0 }
{}

/// In a legal history the claimed columns of a slice are its first, all of the engine, and a slice that is retired or being
/// cleared is filled.
pub fn slices_fill_from_the_first_column()
    ensures first { (limits : Limits) (slice : ℕ) (history : List Event) → IsLegal limits history →
        claimed slice history ≡ range_with_len 0 (length (claimed slice history)) }
    ensures in_range { (limits : Limits) (history : List Event) (slice column : ℕ) → IsLegal limits history →
        is_claimed slice column history ≡ true → (slice < limits.slices) × (column < limits.columns) }
    ensures retired { (limits : Limits) (history : List Event) (slice : ℕ) → IsLegal limits history →
        IsRetired limits.columns slice history → IsFilled limits.columns slice history }
    ensures clearing { (limits : Limits) (history : List Event) (slice : ℕ) → IsLegal limits history →
        is_clearing slice history ≡ true → IsFilled limits.columns slice history }
{}

/// In a legal history a slice retires by an event that deletes, replaces or moves a document, or that leaves one of its columns without one.
pub fn slices_retire_by_an_event_that_ends_a_document_there()
    ensures { (limits : Limits) (history : List Event) (slice number : ℕ) → IsLegal limits history →
        (at : IsRetiredAt limits.columns slice history number) →
        ((id : ℕ) × (takes_off id at.event ≡ true)) ⊎ ((column : ℕ) × (drops_on slice column at.event ≡ true)) }
{}

/// A find guards a slice that is retired exactly where it is open and began before the slice retired, whatever it may read. So one
/// that began later guards nothing. The guard that a refused recycle is told is the lowest.
pub fn finds_guard_what_retires_after_them()
    ensures earlier { (columns : ℕ) (history : List Event) (slice pass number retired_at : ℕ) → HasToken history pass number →
        IsRetired columns slice history → IsRetiredAt columns slice history retired_at → number < retired_at →
        Guards columns history slice pass number }
    ensures later { (columns : ℕ) (history : List Event) (slice pass number retired_at : ℕ) → Guards columns history slice pass number →
        IsRetiredAt columns slice history retired_at → number < retired_at }
    ensures lowest { (limits : Limits) (history : List Event) (slice pass lower number : ℕ) →
        IsLowestGuarded limits history slice pass → lower < pass → Guards limits.columns history slice lower number → ⊥ }
{}

/// In a legal history in which nothing is awaited each call that began can go on: after a take the pass adds its document, with any
/// bits of the slice, or drops it where its number is live, and it may void the column or move a live document there, after a clear it opens the slice for
/// an add or by itself, and after a find it ends. The take that an opening awaits can follow, where slices have columns.
pub fn calls_can_go_on()
    ensures taken { (limits : Limits) (history : List Event) (pass slice column id : ℕ) (text : List ℕ) (bits : List Bit) →
        IsLegal limits history → pass < limits.passes → awaited history ≡ None →
        last_by pass history ≡ Some (event.Take pass slice column) → All (λ b. IsInSlice limits.slice_words slice b.word) bits →
        All (λ (b : Bit). b.bit < 64) bits →
        IsAllowed limits history (event.Add pass id text slice column bits) }
    ensures dropped { (limits : Limits) (history : List Event) (pass slice column id : ℕ) (text : List ℕ) → pass < limits.passes →
        awaited history ≡ None → last_by pass history ≡ Some (event.Take pass slice column) → is_live id history ≡ true →
        IsAllowed limits history (event.Drop pass id text slice column) }
    ensures voided { (limits : Limits) (history : List Event) (pass slice column : ℕ) → pass < limits.passes → awaited history ≡ None →
        last_by pass history ≡ Some (event.Take pass slice column) → IsAllowed limits history (event.Void pass slice column) }
    ensures moved { (limits : Limits) (history : List Event) (pass slice column id : ℕ) (bits : List Bit) → pass < limits.passes →
        awaited history ≡ None → last_by pass history ≡ Some (event.Take pass slice column) → is_live id history ≡ true →
        All (λ b. IsInSlice limits.slice_words slice b.word) bits → All (λ (b : Bit). b.bit < 64) bits →
        IsAllowed limits history (event.Move pass id slice column bits) }
    ensures cleared { (limits : Limits) (history : List Event) (pass slice : ℕ) (alone : Bool) → pass < limits.passes →
        awaited history ≡ None → last_by pass history ≡ Some (event.Clear pass slice) →
        IsAllowed limits history (event.Opened pass slice alone) }
    ensures opened { (limits : Limits) (history : List Event) (pass slice : ℕ) → pass < limits.passes → 0 < limits.columns →
        IsAllowed limits (history ++ event.Opened pass slice false ∷ []) (event.Take pass slice 0) }
    ensures found { (limits : Limits) (history : List Event) (pass : ℕ) (query : List ℕ) → pass < limits.passes → awaited history ≡ None →
        last_by pass history ≡ Some (event.Find pass query) → IsAllowed limits history (event.End pass) }
{}

/// In a legal history in which nothing is awaited, each call of an idle pass can begin: its add and its put take a column, clear a
/// slice or are refused, its delete commits or is refused, its recycle clears a slice or is refused, its find begins, what
/// only reads is read, and a tuning is taken.
pub fn calls_can_begin()
    ensures add { (limits : Limits) (history : List Event) (pass id : ℕ) (text : List ℕ) → IsLegal limits history →
        pass < limits.passes → awaited history ≡ None → IsIdle pass history →
        ((slice : ℕ) × (column : ℕ) × IsAllowed limits history (event.Take pass slice column))
        ⊎ ((slice : ℕ) × IsAllowed limits history (event.Clear pass slice))
        ⊎ IsAllowed limits history (event.No pass (call.Add id text)) }
    ensures put { (limits : Limits) (history : List Event) (pass id : ℕ) (text : List ℕ) → IsLegal limits history →
        pass < limits.passes → awaited history ≡ None → IsIdle pass history →
        ((slice : ℕ) × (column : ℕ) × IsAllowed limits history (event.Take pass slice column))
        ⊎ ((slice : ℕ) × IsAllowed limits history (event.Clear pass slice))
        ⊎ IsAllowed limits history (event.No pass (call.Put id text)) }
    ensures delete { (limits : Limits) (history : List Event) (pass id : ℕ) → IsLegal limits history →
        pass < limits.passes → awaited history ≡ None → IsIdle pass history →
        IsAllowed limits history (event.Del pass id) ⊎ IsAllowed limits history (event.No pass (call.Delete id)) }
    ensures recycle { (limits : Limits) (history : List Event) (pass : ℕ) → IsLegal limits history →
        pass < limits.passes → awaited history ≡ None → IsIdle pass history →
        ((slice : ℕ) × IsAllowed limits history (event.Clear pass slice)) ⊎ IsAllowed limits history (event.No pass call.Recycle) }
    ensures find { (limits : Limits) (history : List Event) (pass : ℕ) (query : List ℕ) → pass < limits.passes → awaited history ≡ None →
        IsIdle pass history → IsAllowed limits history (event.Find pass query) }
    ensures read { (limits : Limits) (history : List Event) (pass : ℕ) (asked : Call) → pass < limits.passes → awaited history ≡ None →
        IsIdle pass history → OnlyReads asked → IsAllowed limits history (event.Read pass asked) }
    ensures tuned { (limits : Limits) (history : List Event) (pass : ℕ) (config : Config) → pass < limits.passes → awaited history ≡ None →
        IsIdle pass history → IsAllowed limits history (event.Tune pass config) }
{}
