ghost use Rattle.std.specs.Prelude.{◌≡◌, length, map};
ghost use Rattle.funnel_model.specs.Expressions.{tree_of, trees, trees_of};

use crate::text::Text;

/// How many parentheses and minus signs of a query may be open at once.
pub const MOST_OPEN: u32 = 64;

/// A boolean expression. As a query is read, an expression is the `Or` of its terms, a term the `And` of its
/// factors, also where there is only one, and a factor an atom, a `Not` of a factor, or an expression in parentheses.
#[cycle(expr)]
#[derive(Debug, Drop)]
pub enum Expr {
    /// Kept are the texts that have every word of this one.
    Atom(Text),
    And(Exprs),
    Or(Exprs),
    Not(Box<Expr>),
}

/// The parts of an expression, in order.
#[cycle(expr)]
#[derive(Debug, Drop)]
pub struct Exprs {
    exprs: Vec<Expr>,
}

impl Exprs {
    pub fn new(exprs: Vec<Expr>) -> Self
        ensures { trees result ≡ trees_of (map tree_of exprs.items) }
    {
        Exprs { exprs }
    }

    pub fn as_slice(&self) -> &[Expr]
        ensures { trees_of (map tree_of result.now) ≡ trees self.now }
    {
        self.exprs.as_slice()
    }

    /// The expressions that it was made of.
    pub fn into_inner(self) -> Vec<Expr>
        ensures { trees_of (map tree_of result.items) ≡ trees self }
    {
        self.exprs
    }
}
