ghost use Rattle.std.specs.Prelude.{◌≡◌, All, IfOk, filter, not};
ghost use Rattle.plan_rows.specs.Rests.{words_of_rest};
ghost use Rattle.row_layout.specs.Orders.{HasRowsOf, IsInPlanOrder};
ghost use Rattle.row_layout.specs.Owners.{is_exact};
ghost use Rattle.row_layout.specs.Rows.{IsRowOf};

use crate::rest::Rest;
use funnel_model::{Memory, WordSet};
use row_layout::{Layout, Plan};
use std::alloc::Global;
use std::cmp::Ord;

/// Plans a query: exactly the rows of its words, by falling rank and within a rank by rising start, each once. A query
/// without words has an empty plan. Beside the plan stands the rest of the words, those that aren't exact.
pub fn plan(alloc: Global, layout: &Layout, words: &WordSet) -> Result<(Plan, Rest), Memory>
    ensures rows { IfOk result (λ planned. HasRowsOf layout.now.config words.now planned.0) }
    ensures in_order { IfOk result (λ planned. IsInPlanOrder planned.0) }
    ensures laid { IfOk result (λ planned. All (IsRowOf layout.now.config) planned.0) }
    ensures rest { IfOk result (λ planned. words_of_rest words.now planned.1 ≡ filter (λ word. not (is_exact layout.now.config word)) words.now) }
{
    let both = layout.rows_and_rest(alloc, words)?;
    let (mut rows, rest) = both;
    let rest = Rest::of(alloc, words, &rest)?;
    rows.sort_unstable_by(|a, b| b.rank.cmp(&a.rank).then(a.start.cmp(&b.start)));
    rows.dedup();
    Ok((Plan::new(rows), rest))
}
