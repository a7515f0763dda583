ghost use Rattle.std.specs.Prelude.{◌≡◌, ◌↔◌, ◌+◌, [], true, IfOk, OnOk};
ghost use Rattle.funnel_model.specs.Expressions.{some, tree_of, trees_of};
ghost use Rattle.funnel_model.specs.Readings as readings;
ghost use Rattle.funnel_model.specs.Readings.{IsComplete, fresh, terms_with_last, with_factor};
ghost use Rattle.bool_query.specs.Levels.{level_of};

use funnel_model::{Expr, Exprs, Memory};
use std::alloc::Global;

/// The whole query or an open parenthesis: its terms that are complete, the factors of the next one, and how many
/// minus signs stand behind these.
#[derive(Drop)]
pub struct Level {
    terms: Vec<Expr>,
    factors: Vec<Expr>,
    pub minuses: u32,
}

impl Level {
    pub fn new(alloc: Global) -> Self
        ensures { level_of result ≡ fresh }
    {
        Level {
            terms: Vec::new(alloc),
            factors: Vec::new(alloc),
            minuses: 0,
        }
    }

    /// Whether a factor was just completed.
    pub fn is_complete(&self) -> bool
        ensures { (result ≡ true) ↔ IsComplete (level_of self.now) }
    {
        self.minuses == 0 && !self.factors.is_empty()
    }

    /// The minus signs at the end are those of this factor, which is complete with them.
    pub fn complete(&mut self, alloc: Global, factor: Expr) -> Result<(), Memory>
        ensures { OnOk result (level_of self.new ≡ with_factor (level_of self.old) (tree_of factor)) }
    {
        let signed = signed(alloc, factor, self.minuses)?;
        self.factors.push(signed)?;
        self.minuses = 0;
        Ok(())
    }

    /// The factors are a term, and the next one begins.
    pub fn part(&mut self, alloc: Global) -> Result<(), Memory>
        ensures terms { OnOk result (level_of self.new ≡
            record { terms = terms_with_last (level_of self.old); factors = []; minuses = self.old.minuses }) }
    {
        let factors = std::mem::replace(&mut self.factors, Vec::new(alloc));
        self.terms.push(Expr::And(Exprs::new(factors)))?;
        Ok(())
    }

    /// The expression of its terms, of which the factors are the last.
    pub fn into_expr(self) -> Result<Expr, Memory>
        ensures { IfOk result (λ expr. tree_of expr ≡ some (trees_of (terms_with_last (level_of self)))) }
    {
        let mut terms = self.terms;
        terms.push(Expr::And(Exprs::new(self.factors)))?;
        Ok(Expr::Or(Exprs::new(terms)))
    }
}

/// The factor behind so many minus signs.
fn signed(alloc: Global, factor: Expr, minuses: u32) -> Result<Expr, Memory>
    ensures { IfOk result (λ expr. tree_of expr ≡ readings.signed minuses (tree_of factor)) }
{
    let mut expr = factor;
    for _ in 0..minuses {
        expr = Expr::Not(Box::new(alloc, expr)?);
    }
    Ok(expr)
}
