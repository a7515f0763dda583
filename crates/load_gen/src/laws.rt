ghost use Rattle.std.specs.Prelude.{◌≡◌, ◌↔◌, ◌<◌, ◌≤◌, ◌/◌, ℕ, List, [], ◌∷◌, codes, length, map, drop, replicate, Contains};
ghost use Rattle.funnel_model.specs.declared.call.Call.TheVariants as call;
ghost use Rattle.load_gen.specs.declared.limits.TheConstants.{DELETED_ONE_IN, MOST_DOCS};
ghost use Rattle.load_gen.specs.Documents.{document, documents, longest_text};
ghost use Rattle.load_gen.specs.Jobs.{FallsTo, adds_of, count_all, deletes_of, jobs, share};

/// Workers share the documents: to each one falls what its share says, so that no document falls to two. Their shares
/// have all documents, and together they delete as many as the summary tells.
pub fn workers_share_the_documents()
    ensures falls { (texts : List (List ℕ)) (workers worker i : ℕ) (text : List ℕ)
        → Contains (share texts workers worker) (i, text) ↔ FallsTo texts workers worker i text }
    ensures all { (texts : List (List ℕ)) (workers : ℕ) → 0 < workers → count_all workers (share texts workers) ≡ length texts }
    ensures deleted { (texts : List (List ℕ)) (workers : ℕ) → 0 < workers → count_all workers (deletes_of texts workers) ≡ length texts / DELETED_ONE_IN }
{}

/// No text of a load has more bytes than the room that is taken for it.
pub fn texts_fit_in_their_room()
    ensures { (words seed i : ℕ) → i < MOST_DOCS → length (document words seed i) ≤ longest_text words }
{}

/// The documents of a load of two documents with one drawn word each from the seed 0, and the calls of the second of two
/// workers. After its hundredth add, of a hundred, a worker looks for the document, and not before.
pub fn example_jobs()
    ensures documents { documents 2 1 0 ≡ codes "u1 w1" ∷ codes "u2 w225" ∷ [] }
    ensures second { jobs 2 1 0 2 1 ≡ call.Add 2 (codes "u2 w225") ∷ map call.Find (codes "w0 w1" ∷ codes "w1 w2" ∷ codes "w2 w3" ∷ codes "w3 w4" ∷ []) }
    ensures hundredth { drop 98 (adds_of (replicate 100 []) 1 0) ≡ call.Add 99 [] ∷ call.Add 100 [] ∷ call.Find (codes "u100") ∷ [] }
    ensures tenth { deletes_of (replicate 20 []) 1 0 ≡ call.Delete 10 ∷ call.Delete 20 ∷ [] }
{}
