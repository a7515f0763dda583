//! What a fit reads and writes.
use crate::endings::Wanted;
use crate::rows::{Row, expect_all};
use crate::setting::SOUND;
use std::test::Fail;

/// Bytes that are no configuration: a fit reads none.
const NO_CONFIG: &[u8] = b"{";

static FITS: [Row; 5] = [
    Row(
        &["fit", "--documents", "100"],
        (
            NO_CONFIG,
            (
                b"add 1 The cat\nadd 1 the dog, the\nfind x\nadd x y\nadd 3\r\ndel 1\nadd 4 dog",
                1_000,
            ),
        ),
        SOUND,
        &[],
        0,
        Wanted::Text(
            "{\"documents\":4,\"max_rank\":0,\"passes\":64,\"private\":6,\"reserve\":64,\"slices\":3,\"tail\":1,\"words\":{\"cat\":1,\"dog\":2,\"the\":2}}\n",
        ),
    ),
    Row(
        &["fit", "--documents=+20000"],
        (NO_CONFIG, (b"add 1 cat\n", 1_000)),
        SOUND,
        &[],
        0,
        Wanted::Text(
            "{\"documents\":1,\"max_rank\":4,\"passes\":64,\"private\":6,\"reserve\":1024,\"slices\":22,\"tail\":1,\"words\":{\"cat\":1}}\n",
        ),
    ),
    Row(
        &["fit", "--documents=1"],
        (NO_CONFIG, (b"", 1_000)),
        SOUND,
        &[],
        8,
        Wanted::Text(""),
    ),
    Row(
        &["fit", "--documents=1"],
        (NO_CONFIG, (b"find x\nadd\n", 1_000)),
        SOUND,
        &[],
        8,
        Wanted::Text(""),
    ),
    Row(
        &["fit", "--documents=4194304"],
        (NO_CONFIG, (b"add 1 cat\n", 1_000)),
        SOUND,
        &[],
        8,
        Wanted::Text(""),
    ),
];

#[test]
fn a_configuration_is_fitted_to_the_add_lines(rt: HostRuntime) -> Result<(), Fail> {
    expect_all(&rt, rt.alloc(), &FITS)?;
    Ok(())
}
