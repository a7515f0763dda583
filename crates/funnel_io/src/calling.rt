//! One call on a reader or a writer of std's. Each error is a fault, also that of a call that was interrupted, and so is a write that
//! takes nothing: nothing is tried again.
ghost use Rattle.std.specs.Prelude.{◌≡◌, ◌<◌, ◌≤◌, length, ⊤};
ghost use Rattle.std.specs.Io.KnownBytes.{Appends, Consumes, IsAtEnd};
ghost use Rattle.funnel_io.specs.Answers.{MatchGot, MatchPut, bytes_got, bytes_put, read_failed, write_failed};
ghost use Rattle.funnel_io.specs.Counts.{counted};

use crate::sink::Put;
use crate::source::Got;
use std::io;
use std::io::{ErrorKind, Read, Write};

/// Reads once, and keeps the error of a read that failed.
pub(crate) fn read_once<R: Read>(
    reader: &mut R,
    room: &mut [u8],
    faults: &mut u64,
    error: &mut Option<io::Error>,
) -> Got
    requires { 0 < length room.old }
    ensures count { MatchGot result (λ n. (1 ≤ n) × (n ≤ length room.new)) ⊤ ⊤ }
    ensures takes { Consumes (R.remaining reader.old) (R.remaining reader.new) (bytes_got result room.new) }
    ensures end { MatchGot result (λ _. ⊤) (IsAtEnd (R.remaining reader.new)) ⊤ }
    ensures faults { faults.new ≡ counted (read_failed result) faults.old }
{
    match reader.read(room) {
        Ok(0) => Got::End,
        Ok(n) => Got::Bytes(n),
        Err(cause) => {
            *error = Some(cause);
            *faults = faults.saturating_add(1);
            Got::Failed
        }
    }
}

/// Writes once, and keeps the error of a write that failed.
pub(crate) fn write_once<W: Write>(
    writer: &mut W,
    piece: &[u8],
    faults: &mut u64,
    error: &mut Option<io::Error>,
) -> Put
    requires { 0 < length piece.now }
    ensures count { MatchPut result (λ n. (1 ≤ n) × (n ≤ length piece.now)) ⊤ }
    ensures writes { Appends (W.contents writer.old) (W.contents writer.new) (bytes_put result piece.now) }
    ensures faults { faults.new ≡ counted (write_failed result) faults.old }
{
    let cause = match writer.write(piece) {
        Ok(0) => io::Error::from(ErrorKind::WriteZero),
        Ok(n) => return Put::Bytes(n),
        Err(cause) => cause,
    };
    *error = Some(cause);
    *faults = faults.saturating_add(1);
    Put::Failed
}
