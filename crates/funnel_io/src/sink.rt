ghost use Rattle.std.specs.Prelude.{◌≡◌, ◌<◌, ◌≤◌, length, ⊤};
ghost use Rattle.funnel_io.specs.Answers.{MatchPut, bytes_put, write_failed};
ghost use Rattle.funnel_io.specs.Calls.{Write};
ghost use Rattle.funnel_io.specs.Counts.{counted};
ghost use Rattle.funnel_io.specs.Streams.{Incoming, Outgoing, Writes};

use crate::borrower::Borrower;

/// What one write did.
#[derive(Clone, Copy, Debug, PartialEq, Eq)]
pub enum Put {
    /// So many bytes, from the front of the piece, went out.
    Bytes(usize),
    /// The write failed and nothing went out.
    Failed,
}

/// Where bytes go.
pub trait Sink: Borrower {
    // What is written: the bytes so far, and the count of writes that failed.
    ghost outgoing: { Self → Outgoing };

    // What a write leaves as it is: what is read, where the sink is a connection.
    ghost beside_write: { Self → Incoming };

    // What else a sink tells of its writes: that a write leads from one state to the next. So a
    // caller can't leave one out where it says which writes it made.
    ghost write_gives: { Self → Write → Self → Type 0 } = { λ _ _ _. ⊤ };

    /// Writes the piece, or the front of it.
    fn write(&mut self, piece: &[u8]) -> Put
        requires { 0 < length piece.now }
        ensures borrowed { Self.borrowed self.new ≡ Self.borrowed self.old }
        ensures beside { beside_write self.new ≡ beside_write self.old }
        ensures count { MatchPut result (λ n. (1 ≤ n) × (n ≤ length piece.now)) ⊤ }
        ensures writes { Writes (bytes_put result piece.now) (outgoing self.old) (outgoing self.new) }
        ensures faults { (outgoing self.new).faults ≡ counted (write_failed result) (outgoing self.old).faults }
        ensures gives { write_gives self.old (record { piece = piece.now; answer = result }) self.new };
}
