//! Streams in memory.
ghost use Rattle.std.specs.Prelude.{◌≡◌, [], true};
ghost use Rattle.std.specs.Io.KnownBytes.{IsAtEnd};
ghost use Rattle.funnel_io.specs.Streams.{Takes};

use crate::streams::{
    expect_reads, expect_sent, expect_writes, expect_written, sink_of, source_of,
};
use funnel_io::{Got, MemSink, MemSource, Pair, Put, Source, WriteFailed};
use std::process::Abort;
use std::test::Fail;

#[test]
fn a_read_gives_bytes_of_one_piece(rt: HostRuntime) -> Result<(), Fail> {
    let mut source = source_of(rt.alloc(), &[b"abcdef", b"", b"gh"], &[2])?;
    expect_reads(
        &rt,
        &mut source,
        &[
            (Got::Bytes(4), b"abcd"),
            (Got::Failed, b"abcd"),
            (Got::Bytes(2), b"efcd"),
            (Got::Bytes(2), b"ghcd"),
            (Got::End, b"ghcd"),
            (Got::End, b"ghcd"),
        ],
    );
    Ok(())
}

/// Reads until the end of a source.
fn read_to_end<S: Source>(source: &mut S, all: &mut Vec<u8>) -> bool
    requires { all.old.items ≡ [] }
    ensures whole { result ≡ true → Takes all.new.items (S.incoming source.old) (S.incoming source.new) }
    ensures end { result ≡ true → IsAtEnd (S.incoming source.new).left }
{
    let mut room = [0u8; 4];
    for _ in 0..u64::MAX {
        match source.read(&mut room) {
            Got::Bytes(n) => {
                if all.extend_from_slice(&room[..n]).is_err() {
                    return false;
                }
            }
            Got::End => return true,
            Got::Failed => return false,
        }
    }
    false
}

#[test]
fn a_source_is_read_to_its_end(rt: HostRuntime) -> Result<(), Fail> {
    let mut source = source_of(rt.alloc(), &[b"", b"abcdef", b"", b"gh"], &[])?;
    let mut all = Vec::new(rt.alloc());
    let ended = read_to_end(&mut source, &mut all);
    assert_eq!(rt; (ended, all.as_slice()), (true, b"abcdefgh".as_slice()));
    Ok(())
}

#[test]
fn a_write_takes_the_whole_piece_or_fails(rt: HostRuntime) -> Result<(), Fail> {
    let mut sink = sink_of(rt.alloc(), 5, &[2])?;
    expect_writes(
        &rt,
        &mut sink,
        &[
            ("ab", Put::Bytes(2)),
            ("c", Put::Failed),
            ("cdef", Put::Failed),
            ("cde", Put::Bytes(3)),
            ("f", Put::Failed),
        ],
    );
    expect_written(&rt, &sink, b"abcde");
    Ok(())
}

/// Writes through a pair of these two, and reads once.
fn expect_pair<R: Abort>(rt: &R, source: &mut MemSource, sink: &mut MemSink) {
    let mut pair = Pair { source, sink };
    expect_sent(
        rt,
        &mut pair,
        &[
            ("hello", Ok(())),
            ("much", Err(WriteFailed)),
            ("", Ok(())),
            ("you", Ok(())),
        ],
    );
    expect_reads(rt, &mut pair, &[(Got::Bytes(4), b"wxyz")]);
}

#[test]
fn all_bytes_go_through_a_pair(rt: HostRuntime) -> Result<(), Fail> {
    let mut sink = sink_of(rt.alloc(), 8, &[])?;
    let mut source = source_of(rt.alloc(), &[b"wxyz", b"a"], &[])?;
    expect_pair(&rt, &mut source, &mut sink);
    expect_written(&rt, &sink, b"helloyou");
    expect_reads(&rt, &mut source, &[(Got::Bytes(1), b"a---")]);
    Ok(())
}
