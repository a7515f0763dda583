//! Laws that hold of the definitions alone. Each is the contract of a function that does nothing.
ghost use Rattle.std.specs.Prelude.{◌≡◌, ◌≢◌, ◌==◌, ℕ, ◌+◌, ◌<◌, ◌≤◌, ◌↔◌, true, false, not, List, [], ◌∷◌, ◌++◌, length, filter, None, Contains};
ghost use Rattle.std.specs.List.{AllPairs, list_any};
ghost use Rattle.funnel_model.specs.Blocks.{IsBlock};
ghost use Rattle.funnel_model.specs.declared.block.Block.{Block};
ghost use Rattle.funnel_model.specs.declared.bit_list.Bit.{Bit};
ghost use Rattle.funnel_model.specs.declared.event.Event.{Event};
ghost use Rattle.funnel_model.specs.declared.event.Event.TheVariants as event;
ghost use Rattle.funnel_model.specs.Events.{commit_of, opens};
ghost use Rattle.funnel_model.specs.History.{Document, answer, is_live, live, place};
ghost use Rattle.funnel_model.specs.Legal.{IsAllowed, IsFull, IsLegal, Limits};
ghost use Rattle.funnel_model.specs.Slices.{ColumnState, Live, Pending, AllOver, HasUnclaimed, IsInState, IsRetired, IsRetiredAt};
ghost use Rattle.funnel_model.specs.Words.{meets};

pub mod clears;
pub mod counter_examples;
pub mod examples;
pub mod invariants;
pub mod moves;
pub mod queries;
pub mod replies;
pub mod reserve;
pub mod searches;
pub mod tunings;

/// A history is legal exactly where each of its events is allowed after those before it.
pub fn legal_event_by_event()
    ensures { (limits : Limits) (history : List Event) → IsLegal limits history ↔
        ((before : List Event) (e : Event) (later : List Event) → history ≡ before ++ e ∷ later → IsAllowed limits before e) }
{}

/// A prefix of a legal history is legal.
pub fn legal_prefix()
    ensures { (limits : Limits) (before later : List Event) → IsLegal limits (before ++ later) → IsLegal limits before }
{}

/// The live documents stand in the order of their adds, and each number is live at most once. An add puts its document to the end, and
/// takes away the live one with its number; a delete takes away the one with its number; and no other event changes them.
pub fn live_documents()
    ensures in_order { (history : List Event) → AllPairs (λ (d e : Document). d.place < e.place) (live history) }
    ensures once { (history : List Event) → AllPairs (λ (d e : Document). d.id ≢ e.id) (live history) }
    ensures added { (history : List Event) (pass id : ℕ) (text : List ℕ) (slice column : ℕ) (bits : List Bit) →
        live (history ++ event.Add pass id text slice column bits ∷ [])
        ≡ filter (λ d. not (d.id == id)) (live history) ++ record { id = id; text = text; place = place history + 1 } ∷ [] }
    ensures deleted { (history : List Event) (pass id : ℕ) →
        live (history ++ event.Del pass id ∷ []) ≡ filter (λ d. not (d.id == id)) (live history) }
    ensures others { (history : List Event) (e : Event) → commit_of e ≡ None → live (history ++ e ∷ []) ≡ live history }
{}

/// An answer has the number of each live document that meets the query, and of no other; in a legal history it
/// has each number at most once.
pub fn answers()
    ensures complete { (history : List Event) (query : List ℕ) (d : Document) →
        Contains (live history) d → meets d.text query ≡ true → Contains (answer history query) d.id }
    ensures sound { (history : List Event) (query : List ℕ) (id : ℕ) → Contains (answer history query) id →
        (d : Document) × Contains (live history) d × (d.id ≡ id) × (meets d.text query ≡ true) }
    ensures once { (limits : Limits) (history : List Event) (query : List ℕ) → IsLegal limits history →
        AllPairs (λ i j. i ≢ j) (answer history query) }
{}

/// In a legal history each column is in one state, and in no other.
pub fn columns_have_one_state()
    ensures some { (limits : Limits) (history : List Event) (slice column : ℕ) → IsLegal limits history →
        (state : ColumnState) × IsInState history slice column state }
    ensures one { (limits : Limits) (history : List Event) (slice column : ℕ) (state other : ColumnState) → IsLegal limits history →
        IsInState history slice column state → IsInState history slice column other → state ≡ other }
{}

/// In a legal history the live documents are those of the live columns, and a number is live on one column.
pub fn live_documents_have_columns()
    ensures number { (history : List Event) (id : ℕ) → is_live id history ≡ true ↔
        ((d : Document) × Contains (live history) d × (d.id ≡ id)) }
    ensures column { (limits : Limits) (history : List Event) (d : Document) → IsLegal limits history → Contains (live history) d →
        (slice : ℕ) × (column : ℕ) × (since : ℕ) × (slice < limits.slices) × (column < limits.columns)
        × IsInState history slice column (Live d since) }
    ensures document { (history : List Event) (slice column since : ℕ) (d : Document) →
        IsInState history slice column (Live d since) → Contains (live history) d }
    ensures once { (limits : Limits) (history : List Event) (slice column other at since after : ℕ) (d e : Document) →
        IsLegal limits history → IsInState history slice column (Live d since) → IsInState history other at (Live e after) → d.id ≡ e.id →
        (slice ≡ other) × (column ≡ at) }
{}

/// In a legal history no column of a slice that is retired is pending or live.
pub fn retired_slices_are_empty()
    ensures not_pending { (limits : Limits) (history : List Event) (slice column pass : ℕ) → IsLegal limits history →
        IsRetired limits.columns slice history → column < limits.columns → IsInState history slice column (Pending pass) → ⊥ }
    ensures not_live { (limits : Limits) (history : List Event) (slice column since : ℕ) (d : Document) → IsLegal limits history →
        IsRetired limits.columns slice history → column < limits.columns → IsInState history slice column (Live d since) → ⊥ }
{}

/// In a legal history of slices with columns, a slice that is retired has retired at one event: of those since its last opening,
/// the first after which all its columns are over. The number of that event stays until the slice is opened, and
/// from that event on all columns are over.
pub fn slices_retire_at_one_event()
    ensures some { (limits : Limits) (history : List Event) (slice : ℕ) → IsLegal limits history → 0 < limits.columns →
        IsRetired limits.columns slice history → (number : ℕ) × IsRetiredAt limits.columns slice history number }
    ensures one { (columns slice number other : ℕ) (history : List Event) → IsRetiredAt columns slice history number →
        IsRetiredAt columns slice history other → number ≡ other }
    ensures since { (columns slice number : ℕ) (front later : List Event) → IsRetiredAt columns slice (front ++ later) number →
        number ≤ length front → AllOver columns slice front }
    ensures first { (columns slice number : ℕ) (front later : List Event) → IsRetiredAt columns slice (front ++ later) number →
        length front < number → list_any (opens slice) later ≡ false → AllOver columns slice front → ⊥ }
    ensures stays { (columns slice number : ℕ) (history : List Event) (e : Event) → IsRetiredAt columns slice history number →
        opens slice e ≡ false → IsRetiredAt columns slice (history ++ e ∷ []) number }
{}

/// In a legal history that is full no slice has an unclaimed column.
pub fn full_engines_have_no_room()
    ensures { (limits : Limits) (history : List Event) (slice : ℕ) → IsLegal limits history → IsFull limits history →
        slice < limits.slices → HasUnclaimed limits.columns slice history → ⊥ }
{}

/// In a legal history that is full something keeps documents out of each slice: its lowest column that is live or pending, the
/// lowest pass that guards it, or a pass that clears it.
pub fn full_engines_have_blocks()
    ensures { (limits : Limits) (history : List Event) (slice : ℕ) → IsLegal limits history → IsFull limits history →
        slice < limits.slices → (block : Block) × IsBlock limits.columns history slice block }
{}
