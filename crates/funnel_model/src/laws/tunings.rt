//! Which configuration is current, by which one each slice is treated, and which one may be given to a running engine.
ghost use Rattle.std.specs.Prelude.{◌≡◌, ◌≤◌, ℕ, true, false, List, [], ◌∷◌, ◌++◌};
ghost use Rattle.std.specs.List.{list_any};
ghost use Rattle.std.specs.Option.{is_some};
ghost use Rattle.funnel_model.specs.Configuration.{IsTuning, IsValid};
ghost use Rattle.funnel_model.specs.declared.config.Config.{Config};
ghost use Rattle.funnel_model.specs.declared.event.Event.{Event};
ghost use Rattle.funnel_model.specs.declared.event.Event.TheVariants as event;
ghost use Rattle.funnel_model.specs.Events.{clears, tuning_of};
ghost use Rattle.funnel_model.specs.History.{IsFrontOf};
ghost use Rattle.funnel_model.specs.Legal.{IsLegal, Limits};
ghost use Rattle.funnel_model.specs.RecycleExample.{paired};
ghost use Rattle.funnel_model.specs.Sizes.{columns_of_pool, words_of_slice};
ghost use Rattle.funnel_model.specs.Slices.{Pending, IsInState, is_clearing_by};
ghost use Rattle.funnel_model.specs.Tokens.{MayRead};
ghost use Rattle.funnel_model.specs.TuneExample.{cleared_again, tuned_twice, used_again};
ghost use Rattle.funnel_model.specs.Tunings.{current, treat};

/// The current configuration is the one that the last tuning gave, and the opening one where there was none.
pub fn the_last_tuning_is_current()
    ensures opening { (opening : Config) (history : List Event) → list_any (λ e. is_some (tuning_of e)) history ≡ false →
        current opening history ≡ opening }
    ensures tuned { (opening : Config) (earlier : List Event) (pass : ℕ) (config : Config) (later : List Event) →
        list_any (λ e. is_some (tuning_of e)) later ≡ false → current opening (earlier ++ event.Tune pass config ∷ later) ≡ config }
{}

/// The treatment of a slice is the configuration that was current when it was last cleared, whatever tunings there were since, and the
/// opening one where it never was cleared or nothing was tuned. So a tuning changes the treatment of no slice.
pub fn slices_are_treated_as_they_were_cleared()
    ensures opening { (opening : Config) (slice : ℕ) (history : List Event) → list_any (clears slice) history ≡ false →
        treat opening slice history ≡ opening }
    ensures untuned { (opening : Config) (slice : ℕ) (history : List Event) → list_any (λ e. is_some (tuning_of e)) history ≡ false →
        treat opening slice history ≡ opening }
    ensures cleared { (opening : Config) (slice : ℕ) (earlier : List Event) (e : Event) (later : List Event) → clears slice e ≡ true →
        list_any (clears slice) later ≡ false → treat opening slice (earlier ++ e ∷ later) ≡ current opening earlier }
    ensures tuned { (opening : Config) (slice : ℕ) (history : List Event) (pass : ℕ) (config : Config) →
        treat opening slice (history ++ event.Tune pass config ∷ []) ≡ treat opening slice history }
{}

/// A slice that was cleared between two tunings is treated by the first of them, also while it is used after the second, until it is
/// cleared once more.
pub fn treatment_example()
    ensures legal { (second third : Config) → IsLegal paired (cleared_again second third) }
    ensures tuned { (opening second third : Config) → treat opening 0 (tuned_twice second third) ≡ second }
    ensures used { (opening second third : Config) → treat opening 0 (used_again second third) ≡ second }
    ensures cleared { (opening second third : Config) → treat opening 0 (cleared_again second third) ≡ third }
{}

/// In a legal history the treatment of a slice stays while a pass makes no event that has a pending column in it, that is clearing it,
/// or whose find may read it. So it is the same at the take of a column and at its add or move.
pub fn treatments_stay_while_they_are_used()
    ensures pending { (limits : Limits) (opening : Config) (front history : List Event) (pass slice column : ℕ) → IsLegal limits history →
        IsFrontOf pass front history → IsInState front slice column (Pending pass) →
        treat opening slice history ≡ treat opening slice front }
    ensures clearing { (limits : Limits) (opening : Config) (front history : List Event) (pass slice : ℕ) → IsLegal limits history →
        IsFrontOf pass front history → is_clearing_by pass slice front ≡ true → treat opening slice history ≡ treat opening slice front }
    ensures read { (limits : Limits) (opening : Config) (front history : List Event) (pass slice : ℕ) → IsLegal limits history →
        IsFrontOf pass front history → MayRead limits.columns front pass slice → treat opening slice history ≡ treat opening slice front }
{}

/// A tuning leaves the columns of the pool as they are, and of a valid configuration it is valid where a slice needs no more words
/// than before.
pub fn tunings_that_fit_are_valid()
    ensures columns { (opening config : Config) → IsTuning opening config → columns_of_pool config ≡ columns_of_pool opening }
    ensures valid { (opening config : Config) → IsValid opening → IsTuning opening config →
        words_of_slice config ≤ words_of_slice opening → IsValid config }
{}
