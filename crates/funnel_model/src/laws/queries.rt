//! Laws of boolean queries: that a text is answered in one way, and how its call is.
ghost use Rattle.std.specs.Prelude.{◌≡◌, ◌⊎◌, ℕ, List, [], ◌∷◌, ◌++◌, Some, codes, length, reverse, take};
ghost use Rattle.funnel_model.specs.declared.call.Call.{Call};
ghost use Rattle.funnel_model.specs.declared.call.Call.TheVariants as call;
ghost use Rattle.funnel_model.specs.declared.event.Event.{Event};
ghost use Rattle.funnel_model.specs.declared.event.Event.TheVariants as event;
ghost use Rattle.funnel_model.specs.declared.expr.Expr.{Expr};
ghost use Rattle.funnel_model.specs.declared.reply.Reply.{Reply};
ghost use Rattle.funnel_model.specs.declared.reply.Reply.TheVariants as reply;
ghost use Rattle.funnel_model.specs.Example.{first_added, small};
ghost use Rattle.funnel_model.specs.Expressions.{Tree, answer_by, tree_of};
ghost use Rattle.funnel_model.specs.Legal.{Limits};
ghost use Rattle.funnel_model.specs.Queries.{IsMalformed, IsQuery, IsTooDeep};
ghost use Rattle.funnel_model.specs.Steps.{IsJudged, IsMade, IsSpent, LacksMemory, Step, expression_of};

/// A text is the query of one expression, or it is refused for one cause at one place.
pub fn queries_have_one_answer()
    ensures one_expression { (text : List ℕ) (a b : Tree) → IsQuery text a → IsQuery text b → a ≡ b }
    ensures one_deep { (text : List ℕ) (a b : ℕ) → IsTooDeep text a → IsTooDeep text b → a ≡ b }
    ensures one_malformed { (text : List ℕ) (a b : ℕ) → IsMalformed text a → IsMalformed text b → a ≡ b }
    ensures not_both { (text : List ℕ) (expr : Tree) (at : ℕ) → IsQuery text expr → (IsMalformed text at → ⊥) × (IsTooDeep text at → ⊥) }
{}

/// No event answers a call that searches by an expression. So each is answered by the documents that its expression keeps, or it found no
/// memory, or came to a history that takes no call any more.
pub fn queries_are_judged()
    ensures no_event { (limits : Limits) (pass : ℕ) (before after : List Event) (asked : Call) (expr : Expr) (given : Reply) →
        expression_of asked ≡ Some expr → IsMade limits pass before after asked given → ⊥ }
    ensures cases { (limits : Limits) (pass : ℕ) (before after : List Event) (asked : Call) (expr : Expr) (given : Reply) →
        expression_of asked ≡ Some expr → Step limits pass before after asked given →
        LacksMemory pass before after asked given ⊎ IsSpent limits pass before after given ⊎ IsJudged pass before after asked given }
{}

/// A query after an add is answered by a find of the empty query and its end, as the expression says of the added document, and so are a
/// count and the newest or oldest few; and no query is answered so by a find of other words.
pub fn query_example()
    ensures found { (expr : Expr) → Step small 0 first_added (first_added ++ event.Find 0 [] ∷ event.End 0 ∷ [])
        (call.Query expr) (reply.Found (answer_by first_added (tree_of expr))) }
    ensures counted { (expr : Expr) → Step small 0 first_added (first_added ++ event.Find 0 [] ∷ event.End 0 ∷ [])
        (call.Count expr) (reply.Count (length (answer_by first_added (tree_of expr)))) }
    ensures newest { (expr : Expr) (most : ℕ) → Step small 0 first_added (first_added ++ event.Find 0 [] ∷ event.End 0 ∷ [])
        (call.Newest expr most) (reply.FoundSome (length (answer_by first_added (tree_of expr)))
        (take most (reverse (answer_by first_added (tree_of expr))))) }
    ensures oldest { (expr : Expr) (most : ℕ) → Step small 0 first_added (first_added ++ event.Find 0 [] ∷ event.End 0 ∷ [])
        (call.Oldest expr most) (reply.FoundSome (length (answer_by first_added (tree_of expr)))
        (take most (answer_by first_added (tree_of expr)))) }
    ensures other { (expr : Expr) (given : Reply) → IsJudged 0 first_added (first_added ++ event.Find 0 (codes "cat") ∷ event.End 0 ∷ [])
        (call.Query expr) given → ⊥ }
{}
