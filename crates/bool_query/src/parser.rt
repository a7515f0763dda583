ghost use Rattle.std.specs.Prelude.{◌≡◌, ◌+◌, ◌<◌, ◌≤◌, IfOk, OnErr, OnOk};
ghost use Rattle.funnel_model.specs.declared.expr.TheConstants.{MOST_OPEN};
ghost use Rattle.funnel_model.specs.Expressions.{some, tree_of, trees_of};
ghost use Rattle.funnel_model.specs.Queries.{bar, left, minus, right, word};
ghost use Rattle.funnel_model.specs.Readings.{level_at, start, terms_with_last};
ghost use Rattle.bool_query.specs.Faults.{IfDeep, IfSyntax};
ghost use Rattle.bool_query.specs.Parsers.{Counts, HasFactor, IsRead, IsStuckAt, IsWhole, reading_of};

use crate::fault::QueryFault;
use crate::level::Level;
use funnel_model::{Expr, MOST_OPEN, Text};
use std::alloc::Global;
use std::mem;

/// What was read of a query: the level in which the next token stands, and those around it, the outermost first.
#[derive(Drop)]
pub struct Parser {
    pub inner: Level,
    pub outer: Vec<Level>,
    /// How many parentheses and minus signs are open.
    pub levels: u32,
}

impl Parser {
    pub fn new(alloc: Global) -> Self
        ensures nothing { reading_of result ≡ start }
        ensures counts { Counts result }
    {
        Parser {
            inner: Level::new(alloc),
            outer: Vec::new(alloc),
            levels: 0,
        }
    }

    /// Takes an atom, which is a factor.
    pub fn take_atom(&mut self, alloc: Global, text: &str) -> Result<(), QueryFault>
        requires { Counts self.old }
        ensures taken { OnOk result (IsRead self.old (word text.now) self.new) }
        ensures syntax { IfSyntax result (λ _. ⊥) }
        ensures deep { IfDeep result (λ _. ⊥) }
    {
        let text = Text::new(String::from_str(alloc, text)?);
        self.complete(alloc, Expr::Atom(text))
    }

    /// Takes a minus sign, which starts at this byte.
    pub fn take_minus(&mut self, at: u64) -> Result<(), QueryFault>
        requires { Counts self.old }
        ensures taken { OnOk result (IsRead self.old minus self.new) }
        ensures syntax { IfSyntax result (λ _. ⊥) }
        ensures deep { IfDeep result (λ place. (place ≡ at) × (level_at (reading_of self.old) minus ≡ MOST_OPEN + 1)) }
    {
        self.go_deeper(at)?;
        self.inner.minuses += 1;
        Ok(())
    }

    /// Takes a `(`, which starts at this byte.
    pub fn take_left(&mut self, alloc: Global, at: u64) -> Result<(), QueryFault>
        requires { Counts self.old }
        ensures taken { OnOk result (IsRead self.old left self.new) }
        ensures syntax { IfSyntax result (λ _. ⊥) }
        ensures deep { IfDeep result (λ place. (place ≡ at) × (level_at (reading_of self.old) left ≡ MOST_OPEN + 1)) }
    {
        self.go_deeper(at)?;
        let outer = mem::replace(&mut self.inner, Level::new(alloc));
        self.outer.push(outer)?;
        Ok(())
    }

    /// Takes a `)`, which starts at this byte: the innermost level becomes a factor of the one around it.
    pub fn take_right(&mut self, alloc: Global, at: u64) -> Result<(), QueryFault>
        requires { Counts self.old }
        ensures taken { OnOk result (IsRead self.old right self.new) }
        ensures syntax { IfSyntax result (λ place. (place ≡ at) × IsStuckAt self.old right) }
        ensures deep { IfDeep result (λ _. ⊥) }
    {
        if !self.inner.is_complete() {
            return Err(QueryFault::Syntax(at));
        }
        let Some(outer) = self.outer.pop() else {
            return Err(QueryFault::Syntax(at));
        };
        let inner = mem::replace(&mut self.inner, outer);
        let expr = inner.into_expr()?;
        self.levels -= 1;
        self.complete(alloc, expr)
    }

    /// Takes a `|`, which starts at this byte.
    pub fn take_bar(&mut self, alloc: Global, at: u64) -> Result<(), QueryFault>
        requires { Counts self.old }
        ensures taken { OnOk result (IsRead self.old bar self.new) }
        ensures syntax { IfSyntax result (λ place. (place ≡ at) × IsStuckAt self.old bar) }
        ensures deep { IfDeep result (λ _. ⊥) }
    {
        if !self.inner.is_complete() {
            return Err(QueryFault::Syntax(at));
        }
        self.inner.part(alloc)?;
        Ok(())
    }

    /// The expression that was read, where no level is open; else the text ends too early, which has this length.
    pub fn finish(self, len: u64) -> Result<Expr, QueryFault>
        ensures query { IfOk result (λ expr. IsWhole (reading_of self) ×
            (tree_of expr ≡ some (trees_of (terms_with_last (reading_of self).inner)))) }
        ensures syntax { IfSyntax result (λ place. (place ≡ len) × (IsWhole (reading_of self) → ⊥)) }
        ensures deep { IfDeep result (λ _. ⊥) }
    {
        if !self.outer.is_empty() || !self.inner.is_complete() {
            return Err(QueryFault::Syntax(len));
        }
        Ok(self.inner.into_expr()?)
    }

    /// A factor of the innermost level is complete, and its minus signs with it.
    fn complete(&mut self, alloc: Global, factor: Expr) -> Result<(), QueryFault>
        requires { Counts self.old }
        ensures factor { OnOk result (HasFactor self.old (tree_of factor) self.new) }
        ensures syntax { IfSyntax result (λ _. ⊥) }
        ensures deep { IfDeep result (λ _. ⊥) }
    {
        self.levels -= self.inner.minuses;
        self.inner.complete(alloc, factor)?;
        Ok(())
    }

    /// Counts a level more, or refuses the token at this byte, which opens it.
    fn go_deeper(&mut self, at: u64) -> Result<(), QueryFault>
        ensures levels { (self.new.inner ≡ self.old.inner) × (self.new.outer ≡ self.old.outer) }
        ensures counted { OnOk result ((self.old.levels < MOST_OPEN) × (self.new.levels ≡ self.old.levels + 1)) }
        ensures syntax { IfSyntax result (λ _. ⊥) }
        ensures deep { IfDeep result (λ place. (place ≡ at) × (MOST_OPEN ≤ self.old.levels)) }
    {
        if self.levels >= MOST_OPEN {
            return Err(QueryFault::Deep(at));
        }
        self.levels += 1;
        Ok(())
    }
}
