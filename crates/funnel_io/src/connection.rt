ghost use Rattle.std.specs.Prelude.{◌≡◌};

use crate::sink::Sink;
use crate::source::Source;

/// A source and a sink in one, of which neither half's calls change the other half.
pub trait Connection: Source + Sink {
    // What a read leaves as it is is all that is written.
    ghost reads_leave_writes: { (c : Self) → Self.beside_read c ≡ Self.outgoing c };

    // What a write leaves as it is is all that is read.
    ghost writes_leave_reads: { (c : Self) → Self.beside_write c ≡ Self.incoming c };
}
