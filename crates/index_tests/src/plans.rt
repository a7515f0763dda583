//! The plans of queries, against numbers from an independent model of the layout.
use crate::setting::ranked_layout;
use funnel_model::{Memory, WordSet};
use plan_rows::plan;
use row_layout::Plan;
use std::alloc::Global;
use std::test::Fail;

/// The words of a query.
fn query(alloc: Global) -> Result<WordSet, Memory> {
    WordSet::from_sorted(
        alloc,
        &["axolotl".as_bytes(), "dog".as_bytes(), "the".as_bytes()],
    )
}

fn no_words(alloc: Global) -> Result<WordSet, Memory> {
    WordSet::from_sorted(alloc, &[])
}

/// The plan of some words in slices with ranks up to 6.
fn plan_of(alloc: Global, words: &WordSet) -> Result<Plan, Memory> {
    let layout = ranked_layout(alloc)?;
    let planned = plan(alloc, &layout, words)?;
    let (plan, _) = planned;
    Ok(plan)
}

/// The rows of a query's words: rank, first word and width.
static PLANNED: [(u8, u32, u16); 7] = [
    (6, 382, 1),
    (4, 376, 4),
    (2, 352, 16),
    (0, 0, 64),
    (0, 64, 64),
    (0, 128, 64),
    (0, 256, 64),
];

/// Whether a plan has these rows in this order.
fn are_planned(plan: &Plan) -> bool {
    let mut same = plan.len() == PLANNED.len();
    for (row, wanted) in plan.as_slice().iter().zip(&PLANNED) {
        same &= (row.rank, row.start, row.width) == *wanted;
    }
    same
}

fn plan_query(alloc: Global) -> Result<bool, Memory> {
    let words = query(alloc)?;
    let plan = plan_of(alloc, &words)?;
    Ok(are_planned(&plan))
}

#[test]
fn rows_are_planned_by_rank_and_start(rt: HostRuntime) -> Result<(), Fail> {
    assert!(rt; plan_query(rt.alloc())?);
    Ok(())
}

/// How many rows the plan without words has.
fn plan_nothing(alloc: Global) -> Result<usize, Memory> {
    let words = no_words(alloc)?;
    Ok(plan_of(alloc, &words)?.into_inner().len())
}

#[test]
fn a_query_without_words_has_an_empty_plan(rt: HostRuntime) -> Result<(), Fail> {
    assert!(rt; plan_nothing(rt.alloc())? == 0);
    Ok(())
}
