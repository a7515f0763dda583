ghost use Rattle.std.specs.Prelude.{◌≡◌, ◌<◌, ◌≤◌, length, ⊤};
ghost use Rattle.std.specs.Io.KnownBytes.{IsAtEnd};
ghost use Rattle.funnel_io.specs.Answers.{MatchGot, bytes_got, read_failed};
ghost use Rattle.funnel_io.specs.Calls.{Read};
ghost use Rattle.funnel_io.specs.Counts.{counted};
ghost use Rattle.funnel_io.specs.Streams.{Incoming, Outgoing, Takes};

use crate::borrower::Borrower;

/// What one read gave.
#[derive(Clone, Copy, Debug, PartialEq, Eq)]
pub enum Got {
    /// So many bytes, at the front of the room.
    Bytes(usize),
    /// The source is at its end.
    End,
    /// The read failed and took nothing.
    Failed,
}

/// Where bytes come from.
pub trait Source: Borrower {
    // What is read: the bytes left and those taken, and the count of reads that failed.
    ghost incoming: { Self → Incoming };

    // What a read leaves as it is: what is written, where the source is a connection.
    ghost beside_read: { Self → Outgoing };

    // What else a source tells of its reads: that a read leads from one state to the next. So a
    // caller can't leave one out where it says which reads it made.
    ghost read_gives: { Self → Read → Self → Type 0 } = { λ _ _ _. ⊤ };

    /// Reads the next bytes into the front of `room`.
    fn read(&mut self, room: &mut [u8]) -> Got
        requires { 0 < length room.old }
        ensures borrowed { Self.borrowed self.new ≡ Self.borrowed self.old }
        ensures beside { beside_read self.new ≡ beside_read self.old }
        ensures count { MatchGot result (λ n. (1 ≤ n) × (n ≤ length room.new)) ⊤ ⊤ }
        ensures takes { Takes (bytes_got result room.new) (incoming self.old) (incoming self.new) }
        ensures end { MatchGot result (λ _. ⊤) (IsAtEnd (incoming self.new).left) ⊤ }
        ensures faults { (incoming self.new).faults ≡ counted (read_failed result) (incoming self.old).faults }
        ensures gives { read_gives self.old (record { room = length room.old; answer = result; bytes = bytes_got result room.new }) self.new };
}
