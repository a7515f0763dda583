//! What is left of the engine of a run and of a load.
use crate::endings::Wanted;
use crate::rows::{Row, expect_all, seen};
use crate::setting::{SOUND, UNREAD};
use funnel_model::Commit;
use std::test::Fail;

/// The last three of four commits.
static LEFT: [Row; 1] = [Row(
    &["run"],
    (
        br#"{"commits":3}"#,
        (b"add 1 a\nadd 2 b\nadd 3 c\ndel 1\n", 1_000),
    ),
    SOUND,
    &[],
    0,
    Wanted::Left(
        1,
        &[
            Commit { add: true, id: 2 },
            Commit { add: true, id: 3 },
            Commit { add: false, id: 1 },
        ],
    ),
)];

#[test]
fn the_last_commits_are_left(rt: HostRuntime) -> Result<(), Fail> {
    expect_all(&rt, rt.alloc(), &LEFT)?;
    Ok(())
}

/// Workers that add beside each other. One after another they would take one turn.
static BESIDE: Row = Row(
    &["load", "--docs=2000", "--words=20", "--workers=2"],
    (br#"{"slices":32,"commits":3000}"#, UNREAD),
    SOUND,
    &[],
    0,
    Wanted::Turns,
);

// A thread may begin so late that the other is done by then, but not each time.
#[test]
fn workers_of_a_load_add_beside_each_other(rt: HostRuntime) -> Result<(), Fail> {
    for _ in 0..50 {
        if seen(&rt, rt.alloc(), &BESIDE)? == (0, true) {
            return Ok(());
        }
    }
    Err(Fail::new("one worker adds after another"))
}
