//! Sessions over a service that refuses each call.
use funnel_io::{End, Got, MemConn, MemSink, MemSource, Source};
use funnel_model::Reply;
use line_proto::{Request, Service};
use session::{MOST_BYTES, serve_session};
use std::alloc::Global;
use std::process::Abort;
use std::test::Fail;

// A pass of an engine that takes no event any more, and that finds no memory to read a search or a tuning.
#[derive(Drop)]
pub(crate) struct SpentPass;

impl Service for SpentPass {
    ghost use Rattle.std.specs.Prelude.{[]};

    ghost caller = { λ _. record {
      opening = record {
        passes = 1;
        slices = 1;
        blocks = 1;
        max_rank = 0;
        commits = 1;
        reserve = 0;
        one_in = 10;
        snr = 10;
        documents = 1;
        tail = 0;
        max_rows = 1;
        private = 0;
        words = [];
      };
      limits = record { passes = 1; slices = 1; columns = 64; slice_words = 1; commits = 1; events = 0 };
      pass = 0;
    } };

    ghost front = { λ _. [] };

    fn call(&mut self, request: &Request<'_>) -> Reply {
        match request {
            Request::Query { .. }
            | Request::Count { .. }
            | Request::Newest { .. }
            | Request::Oldest { .. } => Reply::Memory,
            Request::Tune { .. } => Reply::Memory,
            _ => Reply::Spent,
        }
    }
}

// A connection with these pieces to read, and reads and writes that fail.
pub(crate) fn conn_of(
    alloc: Global,
    pieces: &[&[u8]],
    read_fails: &[u64],
    write_fails: &[u64],
) -> Result<MemConn, Fail> {
    let mut owned = Vec::new(alloc);
    for piece in pieces {
        owned.push(piece.to_vec(alloc)?)?;
    }
    let source = MemSource::new(owned, read_fails.to_vec(alloc)?);
    let sink = MemSink::new(alloc, 10_000, write_fails.to_vec(alloc)?)?;
    Ok(MemConn::new(source, sink))
}

// Serves a connection, and expects an end and an output.
fn expect_session(
    rt: &impl Abort,
    alloc: Global,
    conn: &mut MemConn,
    limit: u64,
    end: End,
    output: &str,
) {
    assert!(rt; 0 < limit && limit <= MOST_BYTES);
    assert_eq!(rt; serve_session(alloc, &mut SpentPass, conn, limit), end);
    assert_eq!(rt; conn.sink.bytes(), output.as_bytes());
}

// Three lines and a fourth one without its newline, in five pieces.
const FIVE: &[&[u8]] = &[b"place\n", b"fi", b"nd\nplaces\nadd 1 a\n", b"del ", b"5"];

const ONE: &str = "refused spent\n";

const TWO: &str = "refused spent\nrefused spent\n";

const THREE: &str = "refused spent\nrefused spent\nrefused line\n";

const FOUR: &str = "refused spent\nrefused spent\nrefused line\nrefused spent\n";

const ALL: &str = "refused spent\nrefused spent\nrefused line\nrefused spent\nrefused spent\n";

const NONE: &[u64] = &[];

// The pieces of an input, the reads and the writes that fail, how many bytes are taken at most, the end and the output.
static SESSIONS: [(&[&[u8]], &[u64], &[u64], u64, End, &str); 15] = [
    (&[], NONE, NONE, MOST_BYTES, End::Done, ""),
    (FIVE, NONE, NONE, MOST_BYTES, End::Done, ALL),
    (FIVE, &[1], NONE, MOST_BYTES, End::ReadFault, ""),
    (FIVE, &[2], NONE, MOST_BYTES, End::ReadFault, ONE),
    (FIVE, &[3], NONE, MOST_BYTES, End::ReadFault, ONE),
    (FIVE, &[4], NONE, MOST_BYTES, End::ReadFault, FOUR),
    (FIVE, &[5], NONE, MOST_BYTES, End::ReadFault, FOUR),
    (FIVE, &[6], NONE, MOST_BYTES, End::ReadFault, FOUR),
    (FIVE, NONE, &[1], MOST_BYTES, End::WriteFault, ""),
    (FIVE, NONE, &[2], MOST_BYTES, End::WriteFault, ONE),
    (FIVE, NONE, &[3], MOST_BYTES, End::WriteFault, TWO),
    (FIVE, NONE, &[4], MOST_BYTES, End::WriteFault, THREE),
    (FIVE, NONE, &[5], MOST_BYTES, End::WriteFault, FOUR),
    // a line that the limit cuts is not answered, nor one that ends at it without a newline
    (&[b"place\nplace\n"], NONE, NONE, 8, End::ByteLimit(8), ONE),
    (&[b"place\nplace"], NONE, NONE, 11, End::ByteLimit(11), ONE),
];

#[test]
fn lines_are_answered_to_the_end_the_limit_or_the_first_fault(rt: HostRuntime) -> Result<(), Fail> {
    for (pieces, reads, writes, limit, end, output) in &SESSIONS {
        let mut conn = conn_of(rt.alloc(), pieces, reads, writes)?;
        expect_session(&rt, rt.alloc(), &mut conn, *limit, *end, output);
    }
    Ok(())
}

#[test]
fn after_a_failed_write_nothing_more_is_read(rt: HostRuntime) -> Result<(), Fail> {
    let mut conn = conn_of(rt.alloc(), &[b"place\n", b"next"], &[], &[1])?;
    expect_session(&rt, rt.alloc(), &mut conn, MOST_BYTES, End::WriteFault, "");
    let mut room = [0u8; 8];
    assert_eq!(rt; conn.read(&mut room), Got::Bytes(4));
    assert_eq!(rt; room.as_slice(), b"next\0\0\0\0".as_slice());
    Ok(())
}

// A line of an add with so many letters and this ending, in pieces of one size.
fn long_add(alloc: Global, letters: usize, ending: &[u8], size: usize) -> Result<MemConn, Fail> {
    let mut bytes = Vec::from_slice(alloc, b"add 1 ")?;
    bytes.resize(letters.saturating_add(6), b'a')?;
    bytes.extend_from_slice(ending)?;
    let mut pieces = Vec::new(alloc);
    for piece in bytes.chunks(size.max(1)) {
        pieces.push(piece.to_vec(alloc)?)?;
    }
    let sink = MemSink::new(alloc, 10_000, Vec::new(alloc))?;
    Ok(MemConn::new(MemSource::new(pieces, Vec::new(alloc)), sink))
}

// The letters of an add, what follows them, the size of the pieces, and the reply.
static LONG: [(usize, &[u8], usize, &str); 21] = [
    (65_530, b"", 1, "refused spent\n"),
    (65_530, b"\n", 1, "refused spent\n"),
    (65_529, b"\r\n", 1, "refused spent\n"),
    (65_530, b"\r\n", 1, "refused long\n"),
    (65_530, b"\r", 1, "refused long\n"),
    (65_531, b"", 1, "refused long\n"),
    (65_531, b"\n", 1, "refused long\n"),
    (65_530, b"", 4_096, "refused spent\n"),
    (65_530, b"\n", 4_096, "refused spent\n"),
    (65_529, b"\r\n", 4_096, "refused spent\n"),
    (65_530, b"\r\n", 4_096, "refused long\n"),
    (65_530, b"\r", 4_096, "refused long\n"),
    (65_531, b"", 4_096, "refused long\n"),
    (65_531, b"\n", 4_096, "refused long\n"),
    (65_530, b"", 100_000, "refused spent\n"),
    (65_530, b"\n", 100_000, "refused spent\n"),
    (65_529, b"\r\n", 100_000, "refused spent\n"),
    (65_530, b"\r\n", 100_000, "refused long\n"),
    (65_530, b"\r", 100_000, "refused long\n"),
    (65_531, b"", 100_000, "refused long\n"),
    (65_531, b"\n", 100_000, "refused long\n"),
];

#[test]
fn a_line_of_more_than_65536_bytes_is_refused(rt: HostRuntime) -> Result<(), Fail> {
    for (letters, ending, size, output) in &LONG {
        let mut conn = long_add(rt.alloc(), *letters, ending, *size)?;
        expect_session(&rt, rt.alloc(), &mut conn, MOST_BYTES, End::Done, output);
    }
    Ok(())
}
