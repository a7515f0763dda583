//! Expressions whose atoms are cut into words.
ghost use Rattle.std.specs.Prelude.{map, IfOk};
ghost use Rattle.funnel_model.specs.Expressions.{tree_of, trees_of};
ghost use Rattle.funnel_model.specs.WordExprs.{AreCut, IsCut};
ghost use Rattle.funnel_model.specs.Words.{AreWordsOf};

use funnel_model::{Expr, Memory, WordExpr, WordSet};
use std::alloc::Global;
use word_cut::{WordFault, words};

/// The expression with the words of its atoms. It goes down as many levels as the expression has.
#[cycle(with_words)]
pub fn with_words(alloc: Global, expr: &Expr) -> Result<WordExpr, Memory>
    ensures { IfOk result (λ cut. IsCut (tree_of expr.now) cut) }
{
    match expr {
        Expr::Atom(text) => Ok(WordExpr::Words(words_of(alloc, text.as_str())?)),
        Expr::And(factors) => Ok(WordExpr::And(each_with_words(alloc, factors.as_slice())?)),
        Expr::Or(terms) => Ok(WordExpr::Or(each_with_words(alloc, terms.as_slice())?)),
        Expr::Not(factor) => Ok(WordExpr::Not(Box::new(alloc, with_words(alloc, factor)?)?)),
    }
}

/// The same of several.
#[cycle(with_words)]
fn each_with_words(alloc: Global, exprs: &[Expr]) -> Result<Vec<WordExpr>, Memory>
    ensures { IfOk result (λ cut. AreCut (trees_of (map tree_of exprs.now)) cut.items) }
{
    let mut cut = Vec::with_capacity(alloc, exprs.len())?;
    for expr in exprs {
        cut.push(with_words(alloc, expr)?)?;
    }
    Ok(cut)
}

/// The words of an atom.
pub fn words_of(alloc: Global, text: &str) -> Result<WordSet, Memory>
    ensures { IfOk result (λ set. AreWordsOf set text.now) }
{
    match words(alloc, text) {
        Ok(set) => Ok(set),
        Err(WordFault::Memory) => Err(Memory),
    }
}
