//! What a query wants of a text: words that it must have, and the rest of the expression.
ghost use Rattle.std.specs.Prelude.{◌≡◌, ◌≢◌, ◌&&◌, ◌||◌, ℕ, List, [], ◌∷◌, length, map, IfNone, IfOk, IfSome, OnOk};
ghost use Rattle.bool_query.specs.WordLists.{in_some};
ghost use Rattle.funnel_model.specs.Expressions.{Trees, keeps, tree_of, trees_of};
ghost use Rattle.funnel_model.specs.Required.{AreRequired, is_required, joined, residue, residues, some_requires};
ghost use Rattle.funnel_model.specs.Searches.{has_all};
ghost use Rattle.funnel_model.specs.WordExprs.{AreCut, each_keeps};

use crate::cutting::{with_words, words_of};
use crate::sets::words_of_all;
use funnel_model::{Expr, Memory, WordExpr, WordSet};
use std::alloc::Global;

/// What a query wants of a text that it keeps: every one of the words, and that each expression of the residue keeps it.
#[derive(Debug, Drop)]
pub struct Wanted {
    pub words: WordSet,
    pub residue: Vec<WordExpr>,
}

/// The words of the atoms that every text which the expression keeps must have by its form, and what is left of the expression: the
/// factors that aren't such atoms. It goes down as many levels as the expression has.
pub fn required(alloc: Global, expr: &Expr) -> Result<Wanted, Memory>
    ensures words { IfOk result (λ wanted. AreRequired wanted.words (tree_of expr.now)) }
    ensures residue { IfOk result (λ wanted. AreCut (residue (tree_of expr.now)) wanted.residue.items) }
    ensures kept { IfOk result (λ wanted. (text : List ℕ) → keeps (tree_of expr.now) text ≡
        (has_all text wanted.words && each_keeps wanted.residue.items text)) }
{
    let mut sets = Vec::new(alloc);
    let mut left = Vec::new(alloc);
    split(alloc, expr, &mut sets, &mut left)?;
    Ok(Wanted {
        words: words_of_all(alloc, &sets)?,
        residue: left,
    })
}

/// Adds the words of each atom that is required, and what is left of the expression.
#[cycle(split)]
fn split(
    alloc: Global,
    expr: &Expr,
    sets: &mut Vec<WordSet>,
    left: &mut Vec<WordExpr>,
) -> Result<(), Memory>
    ensures words { OnOk result ((word : List ℕ) → in_some sets.new.items word ≡
        (in_some sets.old.items word || is_required (tree_of expr.now) word)) }
    ensures left { OnOk result ((ts : Trees) → AreCut ts left.old.items → AreCut (joined ts (residue (tree_of expr.now))) left.new.items) }
{
    match expr {
        Expr::Atom(text) => {
            sets.push(words_of(alloc, text.as_str())?)?;
            Ok(())
        }
        Expr::And(factors) => split_each(alloc, factors.as_slice(), sets, left),
        Expr::Or(terms) => match only(terms.as_slice()) {
            Some(term) => split(alloc, term, sets, left),
            None => {
                left.push(with_words(alloc, expr)?)?;
                Ok(())
            }
        },
        Expr::Not(_) => {
            left.push(with_words(alloc, expr)?)?;
            Ok(())
        }
    }
}

/// The expression that stands alone.
fn only(exprs: &[Expr]) -> Option<&Expr>
    ensures one { IfSome result (λ expr. exprs.now ≡ expr.now ∷ []) }
    ensures several { IfNone result (length exprs.now ≢ 1) }
{
    match exprs {
        [expr] => Some(expr),
        _ => None,
    }
}

/// The same of the factors of a term.
#[cycle(split)]
fn split_each(
    alloc: Global,
    exprs: &[Expr],
    sets: &mut Vec<WordSet>,
    left: &mut Vec<WordExpr>,
) -> Result<(), Memory>
    ensures words { OnOk result ((word : List ℕ) → in_some sets.new.items word ≡
        (in_some sets.old.items word || some_requires (trees_of (map tree_of exprs.now)) word)) }
    ensures left { OnOk result ((ts : Trees) → AreCut ts left.old.items →
        AreCut (joined ts (residues (trees_of (map tree_of exprs.now)))) left.new.items) }
{
    for expr in exprs {
        split(alloc, expr, sets, left)?;
    }
    Ok(())
}
