ghost use Rattle.std.specs.Prelude.{◌≡◌, OnOk, OnErr, is_err};
ghost use Rattle.funnel_io.specs.Calls.{WritesAs};
ghost use Rattle.funnel_io.specs.Counts.{counted};
ghost use Rattle.funnel_io.specs.Streams.{Writes, WritesPart};

use crate::sink::{Put, Sink};
use std::error::Error;
use std::fmt;

/// A write failed before all bytes were written.
#[derive(Clone, Copy, Debug, PartialEq, Eq)]
pub struct WriteFailed;

impl fmt::Display for WriteFailed {
    fn fmt<W: fmt::Write>(&self, f: &mut fmt::Formatter<W>) -> fmt::Result {
        f.write_str("a write failed")
    }
}

impl Error for WriteFailed {}

/// Writes all bytes, in as many writes as the sink needs, and stops at the first that fails. It takes no memory.
pub fn write_all<K: Sink>(sink: &mut K, bytes: &[u8]) -> Result<(), WriteFailed>
    ensures borrowed { K.borrowed sink.new ≡ K.borrowed sink.old }
    ensures beside { K.beside_write sink.new ≡ K.beside_write sink.old }
    ensures ok { OnOk result (Writes bytes.now (K.outgoing sink.old) (K.outgoing sink.new)) }
    ensures part { OnErr result (WritesPart bytes.now (K.outgoing sink.old) (K.outgoing sink.new)) }
    ensures faults { (K.outgoing sink.new).faults ≡ counted (is_err result) (K.outgoing sink.old).faults }

    // Each write is handed all that is left, and none comes after one that failed.
    ensures writes { WritesAs K.write_gives bytes.now sink.old sink.new (is_err result) }
{
    let mut sent = 0;
    while sent < bytes.len() {
        match sink.write(&bytes[sent..]) {
            Put::Bytes(n) => sent += n,
            Put::Failed => return Err(WriteFailed),
        }
    }
    Ok(())
}
