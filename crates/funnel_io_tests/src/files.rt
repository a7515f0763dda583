//! Files as sources.
use crate::streams::expect_reads;
use funnel_io::{FileSource, Got};
use std::fs;
use std::test::Fail;

#[test]
fn a_file_is_read_to_its_end(rt: HostRuntime) -> Result<(), Fail> {
    let path = "funnel_io_file_source.txt";
    fs::write(&rt, path, "abcdef")?;
    let mut source = FileSource::open(&rt, path);
    fs::remove_file(&rt, path)?;
    expect_reads(
        &rt,
        &mut source,
        &[
            (Got::Bytes(4), b"abcd"),
            (Got::Bytes(2), b"efcd"),
            (Got::End, b"efcd"),
        ],
    );
    Ok(())
}

#[test]
fn a_file_that_is_not_there_is_empty(rt: HostRuntime) {
    expect_reads(
        &rt,
        &mut FileSource::open(&rt, "no_such_file.txt"),
        &[(Got::End, b"----"), (Got::End, b"----")],
    );
}

#[test]
fn a_file_that_cannot_be_opened_or_read_fails(rt: HostRuntime) {
    for path in ["/dev/null/inside", "."] {
        expect_reads(
            &rt,
            &mut FileSource::open(&rt, path),
            &[(Got::Failed, b"----"), (Got::Failed, b"----")],
        );
    }
}
