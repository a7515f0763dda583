//! Laws of a whole load that one worker makes: what it asks, that it fits, and what it is answered.
ghost use Rattle.std.specs.Prelude.{◌≡◌, ◌≢◌, ◌+◌, ◌*◌, ◌/◌, ◌^◌, ◌<◌, ◌≤◌, ℕ, List, [], ◌∷◌, ◌++◌, Some, length, map, flat_map, drop, take, slice_get};
ghost use Rattle.std.specs.List.{All, enumerate_from, range_with_len};
ghost use Rattle.funnel_model.specs.declared.call.Call.TheVariants as call;
ghost use Rattle.funnel_model.specs.declared.call.TheConstants.{MOST_MOVES};
ghost use Rattle.funnel_model.specs.declared.event.Event.{Event};
ghost use Rattle.funnel_model.specs.declared.reply.Reply.{Reply};
ghost use Rattle.funnel_model.specs.declared.reply.Reply.TheVariants as reply;
ghost use Rattle.funnel_model.specs.History.{MovesAreCaused, MovesNothing};
ghost use Rattle.funnel_model.specs.Legal.{Limits};
ghost use Rattle.funnel_model.specs.Steps.{Linear};
ghost use Rattle.load_gen.specs.declared.limits.TheConstants.{DELETED_ONE_IN, MOST_DOCS};
ghost use Rattle.load_gen.specs.Documents.{documents};
ghost use Rattle.load_gen.specs.Jobs.{adds_of, deletes_of, jobs, queries_of, share};
ghost use Rattle.load_gen.specs.Queries.{queries};
ghost use Rattle.load_gen.specs.Summary.{results_of};
ghost use Rattle.load_laws.specs.LonePass.{IsAlone};
ghost use Rattle.load_laws.specs.Loads.{FitsEmptyEngine, answers_of};
ghost use Rattle.load_laws.specs.Replies.{lone_add, lone_delete, replies_to_adds, replies_to_deletes, replies_to_jobs, result_in};

/// To one worker falls all. It adds the documents in order, and looks for each 100th one when it has added it; then it
/// deletes the documents 10, 20 and so on; and then it runs all queries in order.
pub fn one_worker_walks_the_documents()
    ensures share { (items : List (List ℕ)) → share items 1 0 ≡ enumerate_from 0 items }
    ensures adds { (texts : List (List ℕ)) → adds_of texts 1 0 ≡ flat_map lone_add (enumerate_from 1 texts) }
    ensures deletes { (texts : List (List ℕ)) → deletes_of texts 1 0 ≡ map lone_delete (range_with_len 1 (length texts / DELETED_ONE_IN)) }
    ensures queries { queries_of 1 0 ≡ map call.Find queries }
{}

/// How the calls of each part go on from document to document, from delete to delete and from query to query.
pub fn one_more_document_is_walked()
    ensures add { (texts : List (List ℕ)) (i : ℕ) (text : List ℕ) → slice_get texts i ≡ Some text →
        adds_of (take (i + 1) texts) 1 0 ≡ adds_of (take i texts) 1 0 ++ lone_add (i + 1, text) }
    ensures delete { (k : ℕ) → map lone_delete (range_with_len 1 (k + 1)) ≡ map lone_delete (range_with_len 1 k) ++ lone_delete (k + 1) ∷ [] }
    ensures query { (j : ℕ) (query : List ℕ) → slice_get queries j ≡ Some query →
        map call.Find (take (j + 1) queries) ≡ map call.Find (take j queries) ++ call.Find query ∷ [] }
{}

/// A load fits an empty engine that has a column for each document.
pub fn loads_fit()
    ensures { (limits : Limits) (docs words seed : ℕ) → docs ≤ MOST_DOCS → docs ≤ limits.slices * limits.columns →
        FitsEmptyEngine limits (jobs docs words seed 1 0) }
{}

/// By a plain list of documents each add and each delete of a load is answered with its place, each find of a document's name
/// with this document alone, and each query with what the summary tells.
pub fn loads_miss_nothing()
    ensures { (docs words seed : ℕ) → docs ≤ MOST_DOCS → answers_of [] (jobs docs words seed 1 0) ≡ replies_to_jobs docs words seed }
{}

/// A load makes far too few events to spend the history.
pub fn loads_are_short()
    ensures { (docs words seed : ℕ) → docs ≤ MOST_DOCS → (4 + 4 * MOST_MOVES) * length (jobs docs words seed 1 0) < 2 ^ 62 }
{}

/// Where each move has its cause, a pass that is alone moves nothing for a load: documents are moved only once one was deleted or
/// dropped, no add of a load is dropped, since its numbers differ, and once it has deleted it adds none.
pub fn loads_move_nothing()
    ensures { (limits : Limits) (pass docs words seed : ℕ) (after : List Event) (replies : List Reply) →
        Linear limits pass [] after (jobs docs words seed 1 0) replies → IsAlone pass after → MovesAreCaused after → MovesNothing after }
{}

/// Where each move has its cause, a pass that is alone and always finds memory is answered so: no add and no delete is refused, no
/// find misses, and the last eight replies have the results that the summary tells.
pub fn loads_are_answered_as_told()
    ensures replies { (limits : Limits) (pass docs words seed : ℕ) (after : List Event) (replies : List Reply) → docs ≤ MOST_DOCS →
        docs ≤ limits.slices * limits.columns → 2 ^ 62 ≤ limits.events →
        Linear limits pass [] after (jobs docs words seed 1 0) replies → IsAlone pass after → MovesAreCaused after → All (λ r. r ≢ reply.Memory) replies →
        replies ≡ replies_to_jobs docs words seed }
    ensures results { (docs words seed : ℕ) (earlier last : List Reply) → earlier ++ last ≡ replies_to_jobs docs words seed → length last ≡ 8 →
        map result_in last ≡ results_of (documents docs words seed) }
{}

/// The replies to the load of two documents of one drawn word each from the seed 0, a check after a hundredth add, and the
/// replies to the deletes of 20 documents.
pub fn example_replies()
    ensures small { replies_to_jobs 2 1 0 ≡ reply.Added 1 ∷ reply.Added 2 ∷ reply.Found [] ∷ reply.Found [] ∷ reply.Found (1 ∷ []) ∷ reply.Found []
        ∷ reply.Found [] ∷ reply.Found [] ∷ reply.Found [] ∷ reply.Found [] ∷ [] }
    ensures hundredth { drop 98 (replies_to_adds 100) ≡ reply.Added 99 ∷ reply.Added 100 ∷ reply.Found (100 ∷ []) ∷ [] }
    ensures tenth { replies_to_deletes 20 ≡ reply.Deleted 21 ∷ reply.Deleted 22 ∷ [] }
{}
