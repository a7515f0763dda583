use crate::borrower::Borrower;
use crate::connection::Connection;
use crate::sink::{Put, Sink};
use crate::source::{Got, Source};

/// A source and a sink of the caller's, as one connection.
#[derive(Drop)]
pub struct Pair<'a, S, K> {
    pub source: &'a mut S,
    pub sink: &'a mut K,
}

impl<S: Source, K: Sink> Borrower for Pair<'_, S, K> {
    ghost use Rattle.funnel_io.specs.Borrowed.{both, reference};

    ghost borrowed = { λ p. both
        (reference p.source.ghost_name (S.borrowed p.source.now))
        (reference p.sink.ghost_name (K.borrowed p.sink.now)) };
}

impl<S: Source, K: Sink> Source for Pair<'_, S, K> {
    ghost use Rattle.std.specs.Prelude.{◌≡◌};

    ghost incoming = { λ p. S.incoming p.source.now };

    ghost beside_read = { λ p. K.outgoing p.sink.now };

    ghost read_gives = { λ p read q. S.read_gives p.source.now read q.source.now × (q.sink.now ≡ p.sink.now) };

    fn read(&mut self, room: &mut [u8]) -> Got {
        self.source.read(room)
    }
}

impl<S: Source, K: Sink> Sink for Pair<'_, S, K> {
    ghost use Rattle.std.specs.Prelude.{◌≡◌};

    ghost outgoing = { λ p. K.outgoing p.sink.now };

    ghost beside_write = { λ p. S.incoming p.source.now };

    ghost write_gives = { λ p write q. K.write_gives p.sink.now write q.sink.now × (q.source.now ≡ p.source.now) };

    fn write(&mut self, piece: &[u8]) -> Put {
        self.sink.write(piece)
    }
}

impl<S: Source, K: Sink> Connection for Pair<'_, S, K> {
    ghost use Rattle.std.specs.Prelude.{refl};

    ghost reads_leave_writes = { λ _. refl };

    ghost writes_leave_reads = { λ _. refl };
}
