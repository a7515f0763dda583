ghost use Rattle.std.specs.Prelude.{◌≡◌, ◌<◌, ◌≤◌, ◌+◌, ◌-◌, min, length, take, drop, ⊤};
ghost use Rattle.std.specs.Io.KnownBytes.{IsAtEnd};
ghost use Rattle.funnel_io.specs.Answers.{MatchGot, bytes_got, read_failed};
ghost use Rattle.funnel_io.specs.Counts.{counted};
ghost use Rattle.funnel_io.specs.Beside.{StaysBeside};
ghost use Rattle.funnel_io.specs.BufferReads.{FillsFrom, ReadsBehind, TellsRead};
ghost use Rattle.funnel_io.specs.Streams.{Takes};

use crate::source::{Got, Source};

/// Reads once into a buffer, behind the bytes that lie before `end`: at most `left` bytes. It moves `end` behind them, and counts
/// `left` down.
pub fn read_behind<C: Source>(
    conn: &mut C,
    buffer: &mut Vec<u8>,
    end: &mut usize,
    left: &mut u64,
) -> Got
    requires room { end.old < length buffer.old.items }
    requires some { 0 < left.old }
    ensures stays { StaysBeside C.borrowed C.beside_read conn.old conn.new }
    ensures reads { ReadsBehind C.incoming C.read_gives result conn.old conn.new
        buffer.old.items end.old buffer.new.items end.new left.old left.new }
    ensures told { TellsRead C.incoming result conn.old conn.new left.old left.new }
{
    match read_from(conn, buffer, *end, *left) {
        Got::Bytes(n) => {
            *end += n;
            *left -= n as u64;
            Got::Bytes(n)
        }
        Got::End => Got::End,
        Got::Failed => Got::Failed,
    }
}

// Reads at most `left` bytes into the buffer from `end` on.
fn read_from<C: Source>(conn: &mut C, buffer: &mut [u8], end: usize, left: u64) -> Got
    requires room { end < length buffer.old }
    requires some { 0 < left }
    ensures stays { StaysBeside C.borrowed C.beside_read conn.old conn.new }
    ensures fills { FillsFrom end left result buffer.old buffer.new }
    ensures takes { Takes (bytes_got result (drop end buffer.new)) (C.incoming conn.old) (C.incoming conn.new) }
    ensures gives { C.read_gives conn.old
        (record { room = min left (length buffer.old - end); answer = result; bytes = bytes_got result (drop end buffer.new) })
        conn.new }
    ensures at_end { MatchGot result (λ _. ⊤) (IsAtEnd (C.incoming conn.new).left) ⊤ }
    ensures faults { (C.incoming conn.new).faults ≡ counted (read_failed result) (C.incoming conn.old).faults }
{
    let most = left.min((buffer.len() - end) as u64) as usize;
    conn.read(&mut buffer[end..end + most])
}
