//! What a clear leaves alone in a legal history: pending columns, running finds, and what a pass holds while it makes no event.
ghost use Rattle.std.specs.Prelude.{◌≡◌, ◌<◌, ℕ, true, false, List, ◌∷◌, ◌++◌};
ghost use Rattle.std.specs.List.{list_any};
ghost use Rattle.funnel_model.specs.declared.bit_list.Bit.{Bit};
ghost use Rattle.funnel_model.specs.declared.event.Event.{Event};
ghost use Rattle.funnel_model.specs.declared.event.Event.TheVariants as event;
ghost use Rattle.funnel_model.specs.Events.{clears, fills, opens};
ghost use Rattle.funnel_model.specs.History.{IsFrontOf};
ghost use Rattle.funnel_model.specs.Legal.{IsInSlice, IsLegal, Limits};
ghost use Rattle.funnel_model.specs.RowWords.{IsCommitted};
ghost use Rattle.funnel_model.specs.Slices.{Pending, IsInState, IsRetired, is_clearing, is_clearing_by};
ghost use Rattle.funnel_model.specs.Tokens.{Guards, HasToken, MayRead};

/// In a legal history a slice with a pending column is neither retired nor being cleared, and the column is one of the engine's.
pub fn pending_slices_are_in_use()
    ensures not_retired { (limits : Limits) (history : List Event) (slice column pass : ℕ) → IsLegal limits history →
        IsInState history slice column (Pending pass) → IsRetired limits.columns slice history → ⊥ }
    ensures not_clearing { (limits : Limits) (history : List Event) (slice column pass : ℕ) → IsLegal limits history →
        IsInState history slice column (Pending pass) → is_clearing slice history ≡ false }
    ensures in_range { (limits : Limits) (history : List Event) (slice column pass : ℕ) → IsLegal limits history →
        IsInState history slice column (Pending pass) → (slice < limits.slices) × (column < limits.columns) }
{}

/// In a legal history no slice is cleared that an open token may read.
pub fn no_slice_is_cleared_under_a_reader()
    ensures { (limits : Limits) (before later : List Event) (pass slice reader : ℕ) →
        IsLegal limits (before ++ event.Clear pass slice ∷ later) → MayRead limits.columns before reader slice → ⊥ }
{}

/// In a legal history a slice that an open token may read isn't being cleared, and where it is retired the token guards it.
pub fn readable_slices_are_guarded()
    ensures not_clearing { (limits : Limits) (history : List Event) (reader slice : ℕ) → IsLegal limits history →
        MayRead limits.columns history reader slice → is_clearing slice history ≡ false }
    ensures guarded { (limits : Limits) (history : List Event) (reader slice : ℕ) → IsLegal limits history →
        (read : MayRead limits.columns history reader slice) → IsRetired limits.columns slice history →
        Guards limits.columns history slice reader read.number }
{}

/// In a legal history no column of a slice is claimed, and none gets a document or is left without one, from its clear until it is
/// opened.
pub fn slices_being_cleared_are_left_alone()
    ensures { (limits : Limits) (before between later : List Event) (pass slice : ℕ) →
        IsLegal limits (before ++ event.Clear pass slice ∷ (between ++ later)) → list_any (opens slice) between ≡ false →
        list_any (fills slice) between ≡ false }
{}

/// In a legal history, while a pass makes no event, its pending column stays pending, the slice that it is clearing stays so, and
/// its token stays open with its number and may read what it could.
pub fn silent_passes_keep_what_they_hold()
    ensures pending { (limits : Limits) (front history : List Event) (pass slice column : ℕ) → IsLegal limits history →
        IsFrontOf pass front history → IsInState front slice column (Pending pass) → IsInState history slice column (Pending pass) }
    ensures clearing { (limits : Limits) (front history : List Event) (pass slice : ℕ) → IsLegal limits history →
        IsFrontOf pass front history → is_clearing_by pass slice front ≡ true → is_clearing_by pass slice history ≡ true }
    ensures token { (front history : List Event) (pass number : ℕ) →
        IsFrontOf pass front history → HasToken front pass number → HasToken history pass number }
    ensures reads { (limits : Limits) (front history : List Event) (pass slice : ℕ) → IsLegal limits history →
        IsFrontOf pass front history → MayRead limits.columns front pass slice → MayRead limits.columns history pass slice }
{}

/// In a legal history, while a pass with an open token makes no event, no slice is cleared or opened that the token may read.
pub fn slices_stay_as_they_are_under_a_reader()
    ensures not_cleared { (limits : Limits) (front history : List Event) (pass slice : ℕ) → IsLegal limits history →
        (goes : IsFrontOf pass front history) → MayRead limits.columns front pass slice → list_any (clears slice) goes.later ≡ false }
    ensures not_opened { (limits : Limits) (front history : List Event) (pass slice : ℕ) → IsLegal limits history →
        (goes : IsFrontOf pass front history) → MayRead limits.columns front pass slice → list_any (opens slice) goes.later ≡ false }
{}

/// In a legal history a bit that is committed is one of the 64 of a word of its slice, which isn't being cleared. It stays
/// committed while a pass whose find may read the slice makes no event.
pub fn committed_bits_stay_under_a_reader()
    ensures in_slice { (limits : Limits) (history : List Event) (slice : ℕ) (b : Bit) → IsLegal limits history →
        IsCommitted history slice b → IsInSlice limits.slice_words slice b.word }
    ensures in_word { (limits : Limits) (history : List Event) (slice : ℕ) (b : Bit) → IsLegal limits history →
        IsCommitted history slice b → b.bit < 64 }
    ensures not_clearing { (limits : Limits) (history : List Event) (slice : ℕ) (b : Bit) → IsLegal limits history →
        IsCommitted history slice b → is_clearing slice history ≡ false }
    ensures stays { (limits : Limits) (front history : List Event) (pass slice : ℕ) (b : Bit) → IsLegal limits history →
        IsFrontOf pass front history → MayRead limits.columns front pass slice → IsCommitted front slice b → IsCommitted history slice b }
{}
