//! The plan of a search.
ghost use Rattle.std.specs.Prelude.{◌≡◌, ◌++◌, [], ◌∷◌, ◌<◌, ◌≤◌, ℕ, List, All, IfOk, OnOk, length};
ghost use Rattle.funnel_model.specs.Searches.{atom_of};
ghost use Rattle.funnel_model.specs.WordExprs.{each_searched, searched};
ghost use Rattle.plan_rows.specs.Searches.{AddsEach, AddsSearch, ArePlanned};
ghost use Rattle.row_layout.specs.declared.row.Row.{Row};
ghost use Rattle.row_layout.specs.declared.search_plan.Node.{Node};
ghost use Rattle.row_layout.specs.Rows.{IsRowOf};
ghost use Rattle.row_layout.specs.SearchPlans.{headed};

use crate::planning::plan;
use funnel_model::{Memory, WordExpr, WordSet};
use row_layout::{Layout, Node, NodeKind, SearchPlan};
use std::alloc::Global;

/// Plans the search for what all of these expressions keep, in the order in which it is evaluated. It takes no memory for none.
pub fn plan_search(alloc: Global, layout: &Layout, exprs: &[WordExpr]) -> Result<SearchPlan, Memory>
    ensures planned { IfOk result (λ made. ArePlanned layout.now.config (each_searched exprs.now) made) }
    ensures laid { IfOk result (λ made. All (IsRowOf layout.now.config) made.rows.items) }
{
    let mut made = SearchPlan {
        nodes: Vec::new(alloc),
        rows: Vec::new(alloc),
    };
    push_each(alloc, layout, exprs, &mut made)?;
    Ok(made)
}

/// Adds the plan of an expression. It goes down as many levels as the expression has.
#[cycle(push_search)]
fn push_search(
    alloc: Global,
    layout: &Layout,
    expr: &WordExpr,
    made: &mut SearchPlan,
) -> Result<(), Memory>
    requires { All (IsRowOf layout.now.config) made.old.rows.items }
    ensures added { OnOk result (AddsSearch layout.now.config (searched expr.now) made.old made.new) }
    ensures laid { All (IsRowOf layout.now.config) made.new.rows.items }
{
    match expr {
        WordExpr::Words(words) => push_atom(alloc, layout, words, made),
        WordExpr::And(parts) => {
            let head = push_head(made, NodeKind::And)?;
            push_each(alloc, layout, parts.as_slice(), made)?;
            set_head(made, NodeKind::And, head);
            Ok(())
        }
        WordExpr::Or(parts) => {
            let head = push_head(made, NodeKind::Or)?;
            push_each(alloc, layout, parts.as_slice(), made)?;
            set_head(made, NodeKind::Or, head);
            Ok(())
        }
        WordExpr::Not(part) => {
            let head = push_head(made, NodeKind::Not)?;
            push_search(alloc, layout, part, made)?;
            set_head(made, NodeKind::Not, head);
            Ok(())
        }
    }
}

/// The same of several, one after the other.
#[cycle(push_search)]
fn push_each(
    alloc: Global,
    layout: &Layout,
    exprs: &[WordExpr],
    made: &mut SearchPlan,
) -> Result<(), Memory>
    requires { All (IsRowOf layout.now.config) made.old.rows.items }
    ensures added { OnOk result (AddsEach layout.now.config (each_searched exprs.now) made.old made.new) }
    ensures laid { All (IsRowOf layout.now.config) made.new.rows.items }
{
    for expr in exprs {
        push_search(alloc, layout, expr, made)?;
    }
    Ok(())
}

/// Adds an atom: the rows of its words, each once, in the order in which they are read.
fn push_atom(
    alloc: Global,
    layout: &Layout,
    words: &WordSet,
    made: &mut SearchPlan,
) -> Result<(), Memory>
    requires { All (IsRowOf layout.now.config) made.old.rows.items }
    ensures added { (set : List (List ℕ)) → set ≡ words.now → OnOk result (AddsSearch layout.now.config (atom_of set) made.old made.new) }
    ensures laid { All (IsRowOf layout.now.config) made.new.rows.items }
{
    let planned = plan(alloc, layout, words)?;
    let (rows, rest) = planned;
    let exact = rest.words(words).len() == 0;
    made.nodes.push(Node {
        kind: NodeKind::Atom { exact },
        nodes: 1,
        rows: rows.len(),
    })?;
    made.rows.extend_from_slice(rows.as_slice())?;
    Ok(())
}

/// Adds a node whose parts follow, and tells where it stands and how many rows stand before those of its parts.
fn push_head(made: &mut SearchPlan, kind: NodeKind) -> Result<(usize, usize), Memory>
    ensures nodes { IfOk result (λ _. made.new.nodes.items ≡ made.old.nodes.items ++ (record { kind = kind; nodes = 0; rows = 0 }) ∷ []) }
    ensures rows { made.new.rows.items ≡ made.old.rows.items }
    ensures at { IfOk result (λ head. (head.0 ≡ length made.old.nodes.items) × (head.1 ≡ length made.old.rows.items)) }
{
    let head = (made.nodes.len(), made.rows.len());
    made.nodes.push(Node {
        kind,
        nodes: 0,
        rows: 0,
    })?;
    Ok(head)
}

/// Tells the node how many nodes and rows it has, once its parts stand behind it.
fn set_head(made: &mut SearchPlan, kind: NodeKind, head: (usize, usize))
    requires at { head.0 < length made.old.nodes.items }
    requires rows { head.1 ≤ length made.old.rows.items }
    ensures nodes { (before parts : List Node) (first : Node) (rows_before rows : List Row) → made.old.nodes.items ≡ before ++ first ∷ parts →
        made.old.rows.items ≡ rows_before ++ rows → head.0 ≡ length before → head.1 ≡ length rows_before →
        made.new.nodes.items ≡ before ++ headed kind parts rows }
    ensures rows { made.new.rows.items ≡ made.old.rows.items }
{
    let (at, rows_before) = head;
    made.nodes[at] = Node {
        kind,
        nodes: made.nodes.len() - at,
        rows: made.rows.len() - rows_before,
    };
}
