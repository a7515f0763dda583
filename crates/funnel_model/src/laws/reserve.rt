//! How many columns an engine has left in a legal history, and out of which slice documents are moved.
ghost use Rattle.std.specs.Prelude.{◌≡◌, ◌<◌, ◌≤◌, ◌↔◌, ◌⊎◌, ℕ, true, List, [], ◌∷◌};
ghost use Rattle.funnel_model.specs.declared.event.Event.{Event};
ghost use Rattle.funnel_model.specs.declared.event.Event.TheVariants as event;
ghost use Rattle.funnel_model.specs.Example.{shared};
ghost use Rattle.funnel_model.specs.Legal.{CanClear, IsFull, IsLegal, Limits};
ghost use Rattle.funnel_model.specs.Reserve.{CanBeEmptied, HoldsColumns, HasReadyColumns, HasReadyIn, IsSource, HasSpareColumns, HasSpareIn, unclaimed_in};
ghost use Rattle.funnel_model.specs.ReserveExample.{evenly_deleted, spacious, taken_beside, unevenly_deleted};
ghost use Rattle.funnel_model.specs.Slices.{IsInUse, is_clearing};
ghost use Rattle.funnel_model.specs.Tokens.{IsGuarded};

/// In a legal history an engine has one number of spare columns and one of ready ones.
pub fn columns_left_are_one_number()
    ensures some_spare { (limits : Limits) (history : List Event) → IsLegal limits history → (n : ℕ) × HasSpareColumns limits history n }
    ensures one_spare { (limits : Limits) (history : List Event) (m n : ℕ) →
        HasSpareColumns limits history m → HasSpareColumns limits history n → m ≡ n }
    ensures some_ready { (limits : Limits) (history : List Event) → IsLegal limits history → (n : ℕ) × HasReadyColumns limits history n }
    ensures one_ready { (limits : Limits) (history : List Event) (m n : ℕ) →
        HasReadyColumns limits history m → HasReadyColumns limits history n → m ≡ n }
{}

/// All columns of a slice that is retired or being cleared are spare. They are ready where it can be cleared, and none is where it is
/// guarded or being cleared. Of a slice in use the unclaimed columns are spare and ready. No slice has two numbers of either.
pub fn slices_have_spare_and_ready_columns()
    ensures clearing { (columns slice : ℕ) (history : List Event) → is_clearing slice history ≡ true →
        HasSpareIn columns history slice columns × HasReadyIn columns history slice 0 }
    ensures guarded { (columns slice : ℕ) (history : List Event) → IsGuarded columns history slice →
        HasSpareIn columns history slice columns × HasReadyIn columns history slice 0 }
    ensures unguarded { (columns slice : ℕ) (history : List Event) → CanClear columns history slice →
        HasSpareIn columns history slice columns × HasReadyIn columns history slice columns }
    ensures in_use { (columns slice : ℕ) (history : List Event) → IsInUse columns slice history →
        HasSpareIn columns history slice (unclaimed_in columns slice history)
        × HasReadyIn columns history slice (unclaimed_in columns slice history) }
    ensures one_spare { (columns : ℕ) (history : List Event) (slice m n : ℕ) →
        HasSpareIn columns history slice m → HasSpareIn columns history slice n → m ≡ n }
    ensures one_ready { (columns : ℕ) (history : List Event) (slice m n : ℕ) →
        HasReadyIn columns history slice m → HasReadyIn columns history slice n → m ≡ n }
{}

/// A new engine of two slices of three columns has six spare ones, all of them ready, and five once a column is taken.
pub fn columns_left_example()
    ensures new { HasSpareColumns spacious [] 6 × HasReadyColumns spacious [] 6 }
    ensures taken { HasSpareColumns spacious (event.Take 0 0 0 ∷ []) 5 × HasReadyColumns spacious (event.Take 0 0 0 ∷ []) 5 }
{}

/// In a legal history of slices with columns an engine is full exactly where no column is ready.
pub fn full_engines_have_no_ready_column()
    ensures { (limits : Limits) (history : List Event) → IsLegal limits history → 0 < limits.columns →
        IsFull limits history ↔ HasReadyColumns limits history 0 }
{}

/// A slice holds one number of columns in a legal history.
pub fn held_columns_are_one_number()
    ensures some { (limits : Limits) (history : List Event) (slice : ℕ) → IsLegal limits history →
        (n : ℕ) × HoldsColumns limits.columns history slice n }
    ensures one { (columns : ℕ) (history : List Event) (slice m n : ℕ) →
        HoldsColumns columns history slice m → HoldsColumns columns history slice n → m ≡ n }
{}

/// A slice out of which documents may be moved holds some of its columns, and not all.
pub fn slices_to_empty_hold_some_columns()
    ensures some { (columns : ℕ) (history : List Event) (slice held : ℕ) → CanBeEmptied columns history slice held → 1 ≤ held }
    ensures not_all { (columns : ℕ) (history : List Event) (slice held : ℕ) → CanBeEmptied columns history slice held → held < columns }
{}

/// One slice is the one out of which documents are moved next, or they may be moved out of none; and there is at most one, with one
/// number of held columns.
pub fn the_source_is_one_slice()
    ensures some { (limits : Limits) (history : List Event) → IsLegal limits history →
        ((slice : ℕ) × (held : ℕ) × IsSource limits history slice held)
        ⊎ ((slice held : ℕ) → slice < limits.slices → CanBeEmptied limits.columns history slice held → ⊥) }
    ensures one { (limits : Limits) (history : List Event) (slice other held also : ℕ) →
        IsSource limits history slice held → IsSource limits history other also → slice ≡ other }
    ensures one_held { (limits : Limits) (history : List Event) (slice other held also : ℕ) →
        IsSource limits history slice held → IsSource limits history other also → held ≡ also }
{}

/// Documents are moved out of the slice with the fewest held columns, also where it isn't the lowest; of two with as many out of the
/// lower one; out of none that the engine doesn't have, and of none whose held column is pending.
pub fn source_example()
    ensures legal { IsLegal spacious unevenly_deleted }
    ensures fewest { IsSource spacious unevenly_deleted 1 1 }
    ensures not_more { (held : ℕ) → IsSource spacious unevenly_deleted 0 held → ⊥ }
    ensures lowest { IsSource spacious evenly_deleted 0 2 }
    ensures not_higher { (held : ℕ) → IsSource spacious evenly_deleted 1 held → ⊥ }
    ensures not_beyond { (held : ℕ) → IsSource (record spacious { slices = 1 }) unevenly_deleted 1 held → ⊥ }
    ensures not_pending { IsLegal shared taken_beside × ((slice held : ℕ) → IsSource shared taken_beside slice held → ⊥) }
{}
