//! The adds and deletes of a history, without all other events: they alone say what is live, and what a find is answered. Who keeps a
//! history of its own beside that of an engine speaks of these.
//!
//! It has definitions and laws, and no code.
#![tactic(auto)]

ghost use Rattle.std.specs.Prelude.{◌≡◌, ◌≤◌, ℕ, List, Contains};
ghost use mathlib.Core.List.{IsPrefix};
ghost use Rattle.bare_history.specs.Bare.{IsAddedAtItsPlace, bare, live_at};
ghost use Rattle.bare_history.specs.Lone.{LoneCallsAreToldWhatWasLive, LoneCallsMakeWhatTheyTell};
ghost use Rattle.funnel_model.specs.declared.event.Event.{Event};
ghost use Rattle.funnel_model.specs.History.{Document, answer, commits, live, place};

/// A history has the live documents, the commits, the place and the answers of its adds and deletes.
pub fn adds_and_deletes_say_what_is_live()
    ensures live { (history : List Event) → live history ≡ live (bare history) }
    ensures place { (history : List Event) → place history ≡ place (bare history) }
    ensures commits { (history : List Event) → commits history ≡ commits (bare history) }
    ensures answer { (history : List Event) (query : List ℕ) → answer history query ≡ answer (bare history) query }
{}

/// What was live after so many adds and deletes stays so, whatever comes later; and what is live is what was after all of them.
pub fn what_was_live_stays_so()
    ensures stays { (front history : List Event) (n : ℕ) → IsPrefix front history → n ≤ place front → live_at history n ≡ live_at front n }
    ensures last { (history : List Event) → live_at history (place history) ≡ live history }
{}

/// A live document is the one that the add or delete at its place adds.
pub fn live_documents_are_added_at_their_place()
    ensures { (history : List Event) (document : Document) → Contains (live history) document →
        IsAddedAtItsPlace (bare history) document }
{}

/// In an engine of one pass a call adds the add or the delete that its reply tells, and no other.
pub fn lone_calls_make_what_they_tell()
    ensures { LoneCallsMakeWhatTheyTell }
{}

/// There a call that is told of documents is told of what was live before it.
pub fn lone_calls_are_told_what_was_live()
    ensures { LoneCallsAreToldWhatWasLive }
{}
