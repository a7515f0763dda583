//! Streams in memory, and the program over them.
ghost use Rattle.std.specs.Prelude.{◌≡◌, [], IfOk};

use funnel::{ProgramEnd, funnel_main};
use funnel_io::{Gate, MemSink, MemSource};
use std::alloc::{AllocError, Global};
use std::fmt::Debug;
use std::process::Abort;
use std::sync::Wait;
use std::thread::Threads;

/// Bytes, and how many of them a read gives at most.
pub(crate) type Pieces = (&'static [u8], usize);

/// A configuration and an input.
pub(crate) type Inputs = (&'static [u8], Pieces);

/// Which reads of the configuration and of the input and which writes fail.
pub(crate) type Fails = [&'static [u64]; 3];

pub(crate) const NONE: &[u64] = &[];

/// No stream fails.
pub(crate) const SOUND: Fails = [NONE, NONE, NONE];

/// A line that no serve and no load reads.
pub(crate) const UNREAD: Pieces = (b"place\n", 6);

/// The streams of a program.
#[derive(Drop)]
pub(crate) struct Streams {
    pub config: MemSource,
    pub input: MemSource,
    pub output: MemSink,
}

fn pieces_of(alloc: Global, pieces: Pieces) -> Result<Vec<Vec<u8>>, AllocError> {
    let mut owned = Vec::new(alloc);
    for piece in pieces.0.chunks(pieces.1.max(1)) {
        owned.push(piece.to_vec(alloc)?)?;
    }
    Ok(owned)
}

/// A source of these bytes, whose reads of these numbers fail.
pub(crate) fn source_of(
    alloc: Global,
    pieces: Pieces,
    fails: &[u64],
) -> Result<MemSource, AllocError>
    ensures taken { IfOk result (λ source. source.taken ≡ []) }
    ensures faults { IfOk result (λ source. source.faults ≡ 0) }
{
    let fails = fails.to_vec(alloc)?;
    Ok(MemSource::new(pieces_of(alloc, pieces)?, fails))
}

/// A sink with room for so many bytes, whose writes of these numbers fail.
pub(crate) fn sink_of(alloc: Global, room: usize, fails: &[u64]) -> Result<MemSink, AllocError>
    ensures written { IfOk result (λ sink. sink.written ≡ []) }
    ensures faults { IfOk result (λ sink. sink.faults ≡ 0) }
{
    MemSink::new(alloc, room, fails.to_vec(alloc)?)
}

pub(crate) fn streams_of(
    alloc: Global,
    inputs: Inputs,
    fails: Fails,
) -> Result<Streams, AllocError> {
    let output = sink_of(alloc, 4_000, fails[2])?;
    let config = source_of(alloc, (inputs.0, 1_000), fails[0])?;
    let input = source_of(alloc, inputs.1, fails[1])?;
    Ok(Streams {
        config,
        input,
        output,
    })
}

/// What the words end with, over these streams and gates.
pub(crate) fn end_of<R: Threads + Wait + Sync, G: Gate + Send + Drop>(
    rt: &R,
    alloc: Global,
    words: &[&str],
    streams: &mut Streams,
    gates: Vec<G>,
) -> ProgramEnd<G>
where
    G::Conn: Send,
{
    let Streams {
        config,
        input,
        output,
    } = streams;
    funnel_main(rt, alloc, words, config, input, output, gates)
}

/// Expects two values to be equal. An assertion is proved here and not in each test.
pub(crate) fn expect<R: Abort, T: PartialEq + Debug + Drop>(rt: &R, given: T, wanted: T) {
    assert_eq!(rt; given, wanted);
}
