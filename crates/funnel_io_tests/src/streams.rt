//! What the tests make and expect of streams.
ghost use Rattle.std.specs.Prelude.{◌≡◌, [], IfOk};

use funnel_io::{Got, MemSink, MemSource, Put, Sink, Source, WriteFailed, write_all};
use std::alloc::{AllocError, Global};
use std::process::Abort;

/// A source of these pieces, whose reads of these numbers fail.
pub(crate) fn source_of(
    alloc: Global,
    pieces: &[&[u8]],
    fails: &[u64],
) -> Result<MemSource, AllocError>
    ensures faults { IfOk result (λ source. source.faults ≡ 0) }
    ensures taken { IfOk result (λ source. source.taken ≡ []) }
{
    let mut owned = Vec::new(alloc);
    for piece in pieces {
        owned.push(piece.to_vec(alloc)?)?;
    }
    Ok(MemSource::new(owned, fails.to_vec(alloc)?))
}

pub(crate) fn sink_of(alloc: Global, room: usize, fails: &[u64]) -> Result<MemSink, AllocError> {
    MemSink::new(alloc, room, fails.to_vec(alloc)?)
}

/// Reads with room for four bytes, once for each wanted answer, and expects it and what the room then holds.
pub(crate) fn expect_reads<R: Abort, S: Source>(
    rt: &R,
    source: &mut S,
    wanted: &[(Got, &[u8; 4])],
) {
    let mut room = [b'-'; 4];
    for (got, bytes) in wanted {
        let answer = source.read(&mut room);
        assert_eq!(rt; (answer, room.as_slice()), (*got, bytes.as_slice()));
    }
}

/// Writes each text, which is not empty, by one write, and expects its answer.
pub(crate) fn expect_writes<R: Abort, K: Sink>(rt: &R, sink: &mut K, wanted: &[(&str, Put)]) {
    for (text, put) in wanted {
        assert_eq!(rt; (*text, write_text(sink, text)), (*text, *put));
    }
}

fn write_text<K: Sink>(sink: &mut K, text: &str) -> Put {
    match text.as_bytes() {
        [] => Put::Bytes(0),
        bytes => sink.write(bytes),
    }
}

/// Writes each text whole, and expects whether it could be.
pub(crate) fn expect_sent<R: Abort, K: Sink>(
    rt: &R,
    sink: &mut K,
    wanted: &[(&str, Result<(), WriteFailed>)],
) {
    for (text, sent) in wanted {
        assert_eq!(rt; (*text, write_all(sink, text.as_bytes())), (*text, *sent));
    }
}

/// Expects of a sink that these bytes were written.
pub(crate) fn expect_written<R: Abort>(rt: &R, sink: &MemSink, bytes: &[u8]) {
    assert_eq!(rt; sink.bytes(), bytes);
}
