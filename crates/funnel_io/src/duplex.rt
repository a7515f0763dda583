ghost use Rattle.std.specs.Prelude.{◌≡◌};

use crate::borrower::Borrower;
use crate::connection::Connection;
use crate::mem_sink::MemSink;
use crate::mem_source::MemSource;
use crate::sink::{Put, Sink};
use crate::source::{Got, Source};

/// A connection of a source and a sink of its own: what is read comes from the source, and what is
/// written goes to the sink.
#[derive(Debug, Drop)]
pub struct Duplex<S, K> {
    pub source: S,
    pub sink: K,
}

/// A connection in memory.
pub type MemConn = Duplex<MemSource, MemSink>;

impl<S, K> Duplex<S, K> {
    pub fn new(source: S, sink: K) -> Duplex<S, K>
        ensures source { result.source ≡ source }
        ensures sink { result.sink ≡ sink }
    {
        Duplex { source, sink }
    }
}

impl<S: Source, K: Sink> Borrower for Duplex<S, K> {
    ghost use Rattle.funnel_io.specs.Borrowed.{both};

    ghost borrowed = { λ d. both (S.borrowed d.source) (K.borrowed d.sink) };
}

impl<S: Source, K: Sink> Source for Duplex<S, K> {
    ghost use Rattle.std.specs.Prelude.{◌≡◌};

    ghost incoming = { λ d. S.incoming d.source };

    ghost beside_read = { λ d. K.outgoing d.sink };

    ghost read_gives = { λ d read e. S.read_gives d.source read e.source × (e.sink ≡ d.sink) };

    fn read(&mut self, room: &mut [u8]) -> Got {
        self.source.read(room)
    }
}

impl<S: Source, K: Sink> Sink for Duplex<S, K> {
    ghost use Rattle.std.specs.Prelude.{◌≡◌};

    ghost outgoing = { λ d. K.outgoing d.sink };

    ghost beside_write = { λ d. S.incoming d.source };

    ghost write_gives = { λ d write e. K.write_gives d.sink write e.sink × (e.source ≡ d.source) };

    fn write(&mut self, piece: &[u8]) -> Put {
        self.sink.write(piece)
    }
}

impl<S: Source, K: Sink> Connection for Duplex<S, K> {
    ghost use Rattle.std.specs.Prelude.{refl};

    ghost reads_leave_writes = { λ _. refl };

    ghost writes_leave_reads = { λ _. refl };
}
