//! Laws of a load that several workers make, each by a pass of its own: the history has the events of all of them, in any order
//! within each part of the load.
ghost use Rattle.std.specs.Prelude.{◌≡◌, ◌+◌, ◌*◌, ◌/◌, ◌^◌, ◌<◌, ◌≤◌, ℕ, List, ◌++◌, length, map};
ghost use Rattle.std.specs.List.{All};
ghost use Rattle.funnel_model.specs.declared.call.Call.{Call};
ghost use Rattle.funnel_model.specs.declared.call.TheConstants.{MOST_MOVES};
ghost use Rattle.funnel_model.specs.declared.event.Event.{Event};
ghost use Rattle.funnel_model.specs.declared.reply.Reply.{Reply};
ghost use Rattle.funnel_model.specs.Events.{pass_of};
ghost use Rattle.funnel_model.specs.History.{MovesNothing, moved_by};
ghost use Rattle.funnel_model.specs.Legal.{IsIdle, IsLegal, Limits};
ghost use Rattle.funnel_model.specs.Steps.{Linear};
ghost use Rattle.load_gen.specs.declared.limits.TheConstants.{DELETED_ONE_IN, MOST_DOCS};
ghost use Rattle.load_gen.specs.Documents.{documents};
ghost use Rattle.load_gen.specs.Jobs.{count_all, deletes_of, jobs, queries_of, share};
ghost use Rattle.load_gen.specs.Summary.{results_of};
ghost use Rattle.load_laws.specs.Workers.{AreLeft, Fronts, HasAsked, HasParts, HasRoomFor, HaveMet, IsAnsweredAsTold, IsLoaded, calls_of_load};
ghost use Rattle.load_laws.specs.WorkersExample.{both_added, both_queried, replies_to, two_passes};

/// A load comes in parts where each worker, once it has ended its adds, and so its deletes and its queries, meets what every other
/// had seen when it had ended its own.
pub fn workers_that_meet_keep_to_the_parts()
    ensures { (texts : List (List ℕ)) (workers : ℕ) (history : List Event) (fronts : ℕ → Fronts) → 0 < workers →
        HaveMet texts workers history fronts → HasParts texts workers history }
{}

/// Once they have met after their queries too, each worker has seen the whole history, where no other pass has an event in it.
pub fn workers_that_meet_at_last_have_seen_all()
    ensures { (texts : List (List ℕ)) (workers : ℕ) (history : List Event) (fronts : ℕ → Fronts) →
        HaveMet texts workers history fronts → All (λ e. pass_of e < workers) history → (worker : ℕ) → worker < workers →
        (fronts worker).met_queried ≡ history }
{}

/// All workers together make at most two calls a document, one for each that is deleted and one for each of the eight queries.
/// Whatever calls workers ask, and whether or not they wait for each other, they make few events a call, as a call moves few
/// documents; so a load makes far too few to spend the history.
pub fn loads_of_workers_are_short()
    ensures calls { (docs words seed workers : ℕ) → 0 < workers → calls_of_load docs words seed workers ≤ 2 * docs + docs / DELETED_ONE_IN + 8 }
    ensures events { (limits : Limits) (workers : ℕ) (history : List Event) (calls : ℕ → List Call) (replies : ℕ → List Reply) →
        IsLegal limits history → All (λ e. pass_of e < workers) history →
        ((worker : ℕ) → worker < workers → HasAsked limits history worker (calls worker) (replies worker)) →
        length history ≤ (4 + 4 * MOST_MOVES) * count_all workers calls }
    ensures unspent { (limits : Limits) (docs words seed workers : ℕ) (history : List Event) (replies : ℕ → List Reply) → 0 < workers → docs ≤ MOST_DOCS →
        IsLegal limits history → All (λ e. pass_of e < workers) history →
        ((worker : ℕ) → worker < workers → HasAsked limits history worker (jobs docs words seed workers worker) (replies worker)) →
        length history < 2 ^ 62 }
{}

/// A worker moves nothing for its deletes, nor for its queries, since no step of theirs does.
pub fn deletes_and_queries_move_nothing()
    ensures deletes { (limits : Limits) (worker : ℕ) (before after : List Event) (texts : List (List ℕ)) (workers : ℕ) (replies : List Reply) →
        IsIdle worker before → Linear limits worker before after (deletes_of texts workers worker) replies →
        moved_by worker after ≡ moved_by worker before }
    ensures queries { (limits : Limits) (worker : ℕ) (before after : List Event) (workers : ℕ) (replies : List Reply) →
        IsIdle worker before → Linear limits worker before after (queries_of workers worker) replies →
        moved_by worker after ≡ moved_by worker before }
{}

/// So nothing is moved for a load of several workers either: up to the end of the first part none has deleted, and no add is
/// dropped, since the numbers of all workers differ.
pub fn loads_of_workers_move_nothing()
    ensures { (limits : Limits) (docs words seed workers : ℕ) (history : List Event) (replies : ℕ → List Reply) →
        IsLoaded limits docs words seed workers history replies → MovesNothing history }
{}

/// Once every worker has deleted, the live documents are those that are not to be deleted, whatever the order in which they came.
pub fn workers_leave_what_is_not_deleted()
    ensures { (limits : Limits) (docs words seed workers : ℕ) (history : List Event) (replies : ℕ → List Reply) →
        (loaded : IsLoaded limits docs words seed workers history replies) → HasRoomFor limits docs →
        AreLeft docs words seed (loaded.parts.adding ++ loaded.parts.deleting) }
{}

/// Whatever the order in which the workers' calls came within each part, each worker is answered as the summary tells: no add
/// and no delete is refused, no find of a name misses, and its queries have their results.
pub fn workers_are_answered_as_told()
    ensures { (limits : Limits) (docs words seed workers : ℕ) (history : List Event) (replies : ℕ → List Reply) →
        IsLoaded limits docs words seed workers history replies → HasRoomFor limits docs → (worker : ℕ) → worker < workers →
        IsAnsweredAsTold (documents docs words seed) workers worker (replies worker) }
{}

/// Eight results are those of the summary where each worker's share of them is its share of the summary's.
pub fn shares_tell_the_results()
    ensures { (docs words seed workers : ℕ) (results : List (ℕ × ℕ)) → 0 < workers → length results ≡ 8 →
        ((worker : ℕ) → worker < workers → map (λ item. item.1) (share results workers worker)
        ≡ map (λ item. item.1) (share (results_of (documents docs words seed)) workers worker)) → results ≡ results_of (documents docs words seed) }
{}

/// There are loads of several workers in an engine with room for them. Two workers share two documents here; the second
/// document is the first to be committed, and two finds run at the same time.
pub fn a_load_of_two_workers_is_made()
    ensures loaded { IsLoaded two_passes 2 1 0 2 (both_added ++ both_queried) replies_to }
    ensures room { HasRoomFor two_passes 2 }
{}
