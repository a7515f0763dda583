//! What decides a document of which bits don't tell whether a search keeps it.
ghost use Rattle.std.specs.Prelude.{◌≡◌, ◌+◌, ◌-◌, ◌^◌, length, map, max, min, sum};
ghost use Rattle.std.specs.List.{list_any};
ghost use Rattle.document_store.specs.declared.judging.TheConstants.{LEAST_COST};
ghost use Rattle.engine.specs.WordExprs.{cost_of};
ghost use Rattle.funnel_model.specs.Searches.{is_kept};
ghost use Rattle.funnel_model.specs.WordExprs.{each_keeps, searched};

use crate::search::Search;
use document_store::{Doc, Judge, LEAST_COST};
use funnel_model::{WordExpr, WordSet};

/// Keeps the documents that have the rest of a search's words, and that each expression of its residue keeps.
#[derive(Drop)]
pub(crate) struct Doubt<'a> {
    pub rest: &'a WordSet,
    pub residue: &'a [WordExpr],
    /// How many words it looks for in a document at most, of which each counts as 8 at least.
    pub cost: usize,
}

impl<'a> Doubt<'a> {
    /// Decides by the rest of the words and by the residue.
    pub(crate) fn of(search: &'a Search, rest: &'a WordSet) -> Doubt<'a>
        ensures rest { result.rest.now ≡ rest.now }
        ensures residue { result.residue.now ≡ search.now.residue.items }
        ensures cost { result.cost ≡ max (min (search.now.cost + length rest.now) (2 ^ 64 - 1)) LEAST_COST }
    {
        Doubt {
            rest,
            residue: search.residue.as_slice(),
            cost: search.cost.saturating_add(rest.len()).max(LEAST_COST),
        }
    }
}

impl Judge for Doubt<'_> {
    ghost use Rattle.commit_desk.specs.Scans.{keeps_text};
    ghost use Rattle.funnel_model.specs.WordExprs.{each_searched};

    ghost test = { λ doubt. keeps_text doubt.rest.now (each_searched doubt.residue.now) };

    ghost cost = { λ doubt. doubt.cost };

    fn keeps(&self, doc: &Doc) -> bool {
        self.rest.keeps(doc) && each_is_kept(self.residue, doc)
    }

    fn cost(&self) -> usize {
        self.cost
    }
}

/// Whether the expression keeps the document.
#[cycle(is_kept)]
fn is_kept(expr: &WordExpr, doc: &Doc) -> bool
    ensures { result ≡ is_kept (searched expr.now) doc.now.text }
{
    match expr {
        WordExpr::Words(words) => words.keeps(doc),
        WordExpr::And(factors) => each_is_kept(factors.as_slice(), doc),
        WordExpr::Or(terms) => some_is_kept(terms.as_slice(), doc),
        WordExpr::Not(factor) => !is_kept(factor, doc),
    }
}

#[cycle(is_kept)]
fn each_is_kept(exprs: &[WordExpr], doc: &Doc) -> bool
    ensures { result ≡ each_keeps exprs.now doc.now.text }
{
    for expr in exprs {
        if !is_kept(expr, doc) {
            return false;
        }
    }
    true
}

#[cycle(is_kept)]
fn some_is_kept(exprs: &[WordExpr], doc: &Doc) -> bool
    ensures { result ≡ list_any (λ expr. is_kept (searched expr) doc.now.text) exprs.now }
{
    for expr in exprs {
        if is_kept(expr, doc) {
            return true;
        }
    }
    false
}

/// How many words an expression looks for in a document: as many as its atoms have, where one without words counts as one; or as many as
/// a `usize` tells, where there are more.
#[cycle(cost_of)]
fn cost_of(expr: &WordExpr) -> usize
    ensures { result ≡ min (cost_of expr.now) (2 ^ 64 - 1) }
{
    match expr {
        WordExpr::Words(words) => words.len().max(1),
        WordExpr::And(factors) => cost_of_each(factors.as_slice()),
        WordExpr::Or(terms) => cost_of_each(terms.as_slice()),
        WordExpr::Not(factor) => cost_of(factor),
    }
}

/// The same of several.
#[cycle(cost_of)]
pub(crate) fn cost_of_each(exprs: &[WordExpr]) -> usize
    ensures { result ≡ min (sum (map cost_of exprs.now)) (2 ^ 64 - 1) }
{
    let mut cost: usize = 0;
    for expr in exprs {
        cost = cost.saturating_add(cost_of(expr));
    }
    cost
}
