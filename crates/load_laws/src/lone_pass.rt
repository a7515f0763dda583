//! Laws of a pass that is alone in its history: one for each kind of call, and one for a whole load.
ghost use Rattle.std.specs.Prelude.{◌≡◌, ◌≢◌, ◌+◌, ◌*◌, ◌<◌, ◌≤◌, ℕ, true, false, List, [], ◌++◌, length, Contains};
ghost use Rattle.std.specs.List.{All};
ghost use Rattle.funnel_model.specs.declared.call.Call.{Call};
ghost use Rattle.funnel_model.specs.declared.call.Call.TheVariants as call;
ghost use Rattle.funnel_model.specs.declared.call.TheConstants.{MOST_MOVES};
ghost use Rattle.funnel_model.specs.declared.event.Event.{Event};
ghost use Rattle.funnel_model.specs.declared.reply.Reply.{Reply};
ghost use Rattle.funnel_model.specs.declared.reply.Reply.TheVariants as reply;
ghost use Rattle.funnel_model.specs.Example.{small};
ghost use Rattle.funnel_model.specs.History.{IsFrontOf, MovesNothing, is_live, moved_by, own};
ghost use Rattle.funnel_model.specs.Legal.{IsIdle, IsLegal, Limits};
ghost use Rattle.funnel_model.specs.Steps.{Linear};
ghost use Rattle.funnel_model.specs.Words.{meets};
ghost use Rattle.load_laws.specs.LonePass.{IsAlone, LoneStep, Adds, Deletes, Finds, count_of_takes};
ghost use Rattle.load_laws.specs.LoadExample.{small_load, small_load_events, small_load_replies};
ghost use Rattle.load_laws.specs.Loads.{AreInTurn, FitsEmptyEngine, HasDocuments, answers_from, answers_of, commits_in, numbers_meeting, held_after};

/// A document whose number is not live is added where fewer columns were claimed than the engine has.
pub fn adds_are_committed()
    ensures { (limits : Limits) (pass : ℕ) (before after : List Event) (id : ℕ) (text : List ℕ) (given : Reply) →
        LoneStep limits pass before after (call.Add id text) given → is_live id before ≡ false →
        count_of_takes before < limits.slices * limits.columns → Adds before after id text given }
{}

/// A find is answered by the documents that are live before it.
pub fn finds_are_answered()
    ensures { (limits : Limits) (pass : ℕ) (before after : List Event) (query : List ℕ) (given : Reply) →
        LoneStep limits pass before after (call.Find query) given → Finds before after query given }
{}

/// A live document is deleted.
pub fn deletes_are_committed()
    ensures { (limits : Limits) (pass : ℕ) (before after : List Event) (id : ℕ) (given : Reply) →
        LoneStep limits pass before after (call.Delete id) given → is_live id before ≡ true →
        Deletes before after id given }
{}

/// Where nothing is moved a load that fits an empty engine is answered as a plain list of documents tells, and leaves live what that list holds.
pub fn loads_are_answered_as_by_a_list()
    ensures replies { (limits : Limits) (pass : ℕ) (after : List Event) (calls : List Call) (replies : List Reply) →
        Linear limits pass [] after calls replies → IsAlone pass after → MovesNothing after → length after < limits.events →
        All (λ r. r ≢ reply.Memory) replies → FitsEmptyEngine limits calls → replies ≡ answers_of [] calls }
    ensures loaded { (limits : Limits) (pass : ℕ) (after : List Event) (calls : List Call) (replies : List Reply) →
        Linear limits pass [] after calls replies → IsAlone pass after → MovesNothing after → length after < limits.events →
        All (λ r. r ≢ reply.Memory) replies → FitsEmptyEngine limits calls → HasDocuments after (held_after [] calls) (commits_in calls) }
{}

/// Further calls are answered as the documents tell that are held by then, and are in turn where they are for those.
pub fn loads_go_on()
    ensures answers { (place : ℕ) (documents : List (ℕ × List ℕ)) (first more : List Call) →
        answers_from place documents (first ++ more)
        ≡ answers_from place documents first ++ answers_from (place + commits_in first) (held_after documents first) more }
    ensures in_turn { (documents : List (ℕ × List ℕ)) (first more : List Call) → AreInTurn documents first →
        AreInTurn (held_after documents first) more → AreInTurn documents (first ++ more) }
{}

/// A query finds the number of each document of a list that meets it, and of no other.
pub fn queries_find_what_meets_them()
    ensures complete { (documents : List (ℕ × List ℕ)) (query : List ℕ) (d : ℕ × List ℕ) → Contains documents d →
        meets d.1 query ≡ true → Contains (numbers_meeting documents query) d.0 }
    ensures sound { (documents : List (ℕ × List ℕ)) (query : List ℕ) (id : ℕ) → Contains (numbers_meeting documents query) id →
        (d : ℕ × List ℕ) × Contains documents d × (d.0 ≡ id) × (meets d.1 query ≡ true) }
{}

/// A pass is alone in a legal history where no other pass has an event in it, and then it has seen the whole history once it
/// has seen all its own events.
pub fn a_pass_is_alone_where_no_other_has_events()
    ensures alone { (limits : Limits) (pass : ℕ) (history : List Event) → IsLegal limits history →
        ((other : ℕ) → other < limits.passes → other ≢ pass → IsFrontOf other [] history) → IsAlone pass history }
    ensures seen { (pass : ℕ) (front history : List Event) → IsAlone pass history → IsFrontOf pass front history → front ≡ history }
{}

/// A pass that is alone and idle has made at most four events for each call and four for each move. Since a call makes few moves, it
/// makes few events, so a short load can't spend the history.
pub fn calls_and_moves_make_at_most_four_events()
    ensures each { (limits : Limits) (pass : ℕ) (history : List Event) → IsLegal limits history → IsAlone pass history → IsIdle pass history →
        length history ≤ 4 * length (own pass history) + 4 * moved_by pass history }
    ensures calls { (limits : Limits) (pass : ℕ) (after : List Event) (calls : List Call) (replies : List Reply) →
        Linear limits pass [] after calls replies → IsAlone pass after → length after ≤ (4 + 4 * MOST_MOVES) * length calls }
{}

/// There are loads that fit, and a pass can make them alone: this one fits an engine of one slice of two columns.
pub fn a_small_load_is_made()
    ensures fits { FitsEmptyEngine small small_load }
    ensures run { Linear small 0 [] small_load_events small_load small_load_replies }
    ensures alone { IsAlone 0 small_load_events }
    ensures unmoved { MovesNothing small_load_events }
    ensures unspent { length small_load_events < small.events }
    ensures answers { answers_of [] small_load ≡ small_load_replies }
{}
