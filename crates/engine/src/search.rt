//! What a find looks for.
ghost use Rattle.std.specs.Prelude.{◌≡◌, ◌-◌, ◌^◌, [], map, min, sum, IfErr, IfOk};
ghost use Rattle.engine.specs.Replies.{reply_of_query_fault};
ghost use Rattle.engine.specs.Searches.{IsSearchOf};
ghost use Rattle.engine.specs.WordExprs.{cost_of};
ghost use Rattle.funnel_model.specs.declared.expr.Expr.{Expr};
ghost use Rattle.funnel_model.specs.Expressions.{tree_of};
ghost use Rattle.line_proto.specs.Forms.{ByQuery, ByWords};
ghost use Rattle.line_proto.specs.Requests.{sought};
ghost use Rattle.line_proto.specs.Services.{IsSought, IsUnread};

use crate::doubt::cost_of_each;
use bool_query::{QueryFault, Wanted, parse_query, required};
use funnel_model::{WordExpr, WordSet};
use line_proto::Search as Sought;
use std::alloc::Global;
use word_cut::words;

/// What a find looks for: documents that have every one of the words, and that each expression of the residue keeps. A find of words has
/// no residue.
#[derive(Drop)]
pub(crate) struct Search {
    /// Of this its scans take memory.
    pub alloc: Global,
    pub words: WordSet,
    pub residue: Vec<WordExpr>,
    /// How many words the residue looks for in a document at most.
    pub cost: usize,
}

impl Search {
    /// Looks for words. It takes no memory.
    pub(crate) fn of_words(alloc: Global, words: WordSet) -> Search
        ensures words { result.words ≡ words }
        ensures residue { result.residue.items ≡ [] }
        ensures cost { result.cost ≡ 0 }
    {
        Search {
            alloc,
            words,
            residue: Vec::new(alloc),
            cost: 0,
        }
    }
}

/// Reads what is sought.
pub(crate) fn read_sought(alloc: Global, kept: Sought<'_>) -> Result<Search, QueryFault>
    ensures read { IfOk result (λ search. (expr : Expr) × IsSought (sought kept.entry) (tree_of expr) × IsSearchOf search (tree_of expr)) }
    ensures cost { IfOk result (λ search. search.cost ≡ min (sum (map cost_of search.residue.items)) (2 ^ 64 - 1)) }
    ensures refused { IfErr result (λ fault. IsUnread (sought kept.entry) (reply_of_query_fault fault)) }
{
    match kept {
        Sought::Query(text) => read_query(alloc, text),
        Sought::Words(text) => read_words(alloc, text),
    }
}

// Takes the words of a text, each of which a document is to have.
fn read_words(alloc: Global, text: &str) -> Result<Search, QueryFault>
    ensures read { IfOk result (λ search. (expr : Expr) × IsSought (ByWords text.now) (tree_of expr) × IsSearchOf search (tree_of expr)) }
    ensures cost { IfOk result (λ search. search.cost ≡ min (sum (map cost_of search.residue.items)) (2 ^ 64 - 1)) }
    ensures refused { IfErr result (λ fault. IsUnread (ByWords text.now) (reply_of_query_fault fault)) }
{
    let Ok(words) = words(alloc, text) else {
        return Err(QueryFault::Memory);
    };
    Ok(Search::of_words(alloc, words))
}

// Reads a text as a boolean query.
fn read_query(alloc: Global, text: &str) -> Result<Search, QueryFault>
    ensures read { IfOk result (λ search. (expr : Expr) × IsSought (ByQuery text.now) (tree_of expr) × IsSearchOf search (tree_of expr)) }
    ensures cost { IfOk result (λ search. search.cost ≡ min (sum (map cost_of search.residue.items)) (2 ^ 64 - 1)) }
    ensures refused { IfErr result (λ fault. IsUnread (ByQuery text.now) (reply_of_query_fault fault)) }
{
    let expr = parse_query(alloc, text)?;
    let wanted = required(alloc, &expr)?;
    let Wanted { words, residue } = wanted;
    let cost = cost_of_each(residue.as_slice());
    Ok(Search {
        alloc,
        words,
        residue,
        cost,
    })
}
