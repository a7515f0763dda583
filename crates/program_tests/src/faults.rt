//! Runs, loads and fits of which a read or a write fails, in the configuration, the input or the output.
use crate::endings::Wanted;
use crate::rows::{Row, expect_all};
use crate::setting::{Inputs, NONE};
use funnel::Why;
use std::test::Fail;

const RUN: &[&str] = &["run"];

const LOAD: &[&str] = &["load", "--docs", "1"];

const FIT: &[&str] = &["fit", "--documents", "1"];

const LINES: &[u8] = b"add 7 The cat sat\nfind CAT\n";

// The same lines in one piece, and in one for each.
const WHOLE: Inputs = (b"", (LINES, 27));

const PARTS: Inputs = (b"", (LINES, 18));

const PLACE: Inputs = (b"", (b"place\nplace\nplace\n", 18));

// After both of its pieces a line has begun.
const CUT: Inputs = (b"", (b"add 1 a\nfind a\npla", 10));

const ADDED: &str = "added 1\n";

const FOUND: &str = "added 1\nfound 1 7\n";

const FIRST: &str = "added 1\nfound 1 1\n";

const PLACED: &str = "place 0\n";

const FITTED: &str =
    "{\"documents\":1,\"max_rank\":0,\"passes\":64,\"private\":6,\"reserve\":64,\"slices\":2,\"tail\":1,\"words\":{\"cat\":1,\"sat\":1,\"the\":1}}\n";

static FAULTS: [Row; 18] = [
    Row(RUN, PARTS, [NONE, &[1], NONE], &[], 3, Wanted::Text("")),
    Row(RUN, PARTS, [NONE, &[2], NONE], &[], 3, Wanted::Text(ADDED)),
    Row(RUN, PARTS, [NONE, &[3], NONE], &[], 3, Wanted::Text(FOUND)),
    Row(RUN, PARTS, [NONE, NONE, &[1]], &[], 4, Wanted::Text("")),
    Row(RUN, PARTS, [NONE, NONE, &[2]], &[], 4, Wanted::Text(ADDED)),
    Row(RUN, PARTS, [NONE, NONE, &[3]], &[], 0, Wanted::Text(FOUND)),
    Row(RUN, WHOLE, [NONE, &[1], NONE], &[], 3, Wanted::Text("")),
    Row(RUN, WHOLE, [NONE, &[2], NONE], &[], 3, Wanted::Text(FOUND)),
    Row(RUN, WHOLE, [NONE, NONE, &[1]], &[], 4, Wanted::Text("")),
    Row(RUN, WHOLE, [NONE, NONE, &[2]], &[], 4, Wanted::Text(ADDED)),
    Row(RUN, WHOLE, [NONE, NONE, &[3]], &[], 0, Wanted::Text(FOUND)),
    Row(RUN, PLACE, [NONE, NONE, &[2]], &[], 4, Wanted::Text(PLACED)),
    Row(RUN, CUT, [NONE, &[3], NONE], &[], 3, Wanted::Text(FIRST)),
    Row(RUN, WHOLE, [&[1], NONE, NONE], &[], 3, Wanted::Text("")),
    Row(LOAD, WHOLE, [NONE, NONE, &[1]], &[], 4, Wanted::Text("")),
    Row(FIT, PARTS, [NONE, &[2], NONE], &[], 3, Wanted::Text("")),
    Row(FIT, WHOLE, [NONE, NONE, &[1]], &[], 4, Wanted::Text("")),
    Row(FIT, WHOLE, [&[1], NONE, &[2]], &[], 0, Wanted::Text(FITTED)),
];

#[test]
fn the_first_fault_ends_a_command(rt: HostRuntime) -> Result<(), Fail> {
    expect_all(&rt, rt.alloc(), &FAULTS)?;
    Ok(())
}

// An input of 2^40 bytes would have to be read for it.
#[test]
fn the_byte_limit_is_told(rt: HostRuntime) -> Result<(), Fail> {
    let text = format!(in rt.alloc(); "{}", Why::ByteLimit(1 << 40))?;
    assert_eq!(rt; text.as_str(), "byte limit");
    Ok(())
}
