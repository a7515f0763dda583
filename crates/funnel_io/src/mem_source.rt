ghost use Rattle.std.specs.Prelude.{◌≡◌, ◌<◌, ◌≤◌, ◌-◌, [], length, take, drop, min, ⊤};
ghost use Rattle.std.specs.Io.KnownBytes.{IsAtEnd};
ghost use Rattle.funnel_io.specs.Memory.{IsRead, incoming_of, unread};
ghost use Rattle.funnel_io.specs.Places.{bytes_of, piece_at, pieces_from, bytes_before, IsPlace};
ghost use Rattle.funnel_io.specs.Answers.{MatchGot, bytes_got};
ghost use Rattle.funnel_io.specs.Streams.{Takes};

use crate::borrower::Borrower;
use crate::source::{Got, Source};
use std::marker::Model;

/// A source that gives stored pieces, and whose reads of given numbers fail.
#[derive(Debug, Drop)]
pub struct MemSource {
    pieces: Vec<Vec<u8>>,
    at: usize,
    from: usize,
    reads: u64,
    fails: Vec<u64>,
    faults: u64,
}

impl Model for MemSource {
    ghost use Rattle.funnel_io.specs.Memory.{SourceState};
    ghost use Rattle.funnel_io.specs.Places.{bytes_of, pieces_from, bytes_before, IsPlace};

    ghost Value = { SourceState };

    ghost view = { λ s. let pieces = bytes_of s.pieces.items in record {
      pieces = pieces_from pieces s.at s.from;
      taken = bytes_before pieces s.at s.from;
      reads = s.reads;
      fails = s.fails.items;
      faults = s.faults;
    } };

    ghost invariant = { λ s. IsPlace (bytes_of s.pieces.items) s.at s.from };
}

impl MemSource {
    /// A source of these pieces. Reads are numbered from 1, and those in `fails` fail.
    pub fn new(pieces: Vec<Vec<u8>>, fails: Vec<u64>) -> MemSource
        ensures { result ≡ record {
          pieces = bytes_of pieces.items;
          taken = [];
          reads = 0;
          fails = fails.items;
          faults = 0;
        } }
    {
        MemSource {
            pieces,
            at: 0,
            from: 0,
            reads: 0,
            fails,
            faults: 0,
        }
    }
}

// The bytes of a piece, or none past the last.
fn piece(pieces: &[Vec<u8>], at: usize) -> &[u8]
    ensures { result.now ≡ piece_at (bytes_of pieces.now) at }
{
    match pieces.get(at) {
        Some(piece) => piece.as_slice(),
        None => &[],
    }
}

// The place after the pieces that are used up.
fn next_place(pieces: &[Vec<u8>], mut at: usize, mut from: usize) -> (usize, usize)
    requires { IsPlace (bytes_of pieces.now) at from }
    ensures place { IsPlace (bytes_of pieces.now) result.0 result.1 }
    ensures unread { pieces_from (bytes_of pieces.now) result.0 result.1
        ≡ unread (pieces_from (bytes_of pieces.now) at from) }
    ensures taken { bytes_before (bytes_of pieces.now) result.0 result.1
        ≡ bytes_before (bytes_of pieces.now) at from }
    ensures bytes { result.0 < length pieces.now
        → result.1 < length (piece_at (bytes_of pieces.now) result.0) }
{
    while at < pieces.len() && piece(pieces, at).len() <= from {
        at += 1;
        from = 0;
    }
    (at, from)
}

// Copies as many bytes of the piece from a place on as fit, and returns how many.
fn copy_from(piece: &[u8], from: usize, room: &mut [u8]) -> usize
    requires { from ≤ length piece.now }
    ensures count { result ≡ min (length room.old) (length piece.now - from) }
    ensures copied { take result room.new ≡ take result (drop from piece.now) }
{
    let rest = &piece[from..];
    let n = room.len().min(rest.len());
    room[..n].copy_from_slice(&rest[..n]);
    n
}

impl Borrower for MemSource {}

impl Source for MemSource {
    ghost use Rattle.funnel_io.specs.Memory.{IsSourceRead, incoming_of};
    ghost use Rattle.funnel_io.specs.Streams.{nothing_written};

    ghost incoming = { incoming_of };

    ghost beside_read = { λ _. nothing_written };

    ghost read_gives = { IsSourceRead };

    fn read(&mut self, room: &mut [u8]) -> Got
        requires { 0 < length room.old }
        ensures count { MatchGot result (λ n. (1 ≤ n) × (n ≤ length room.new)) ⊤ ⊤ }
        ensures takes { Takes (bytes_got result room.new) (incoming_of self.old) (incoming_of self.new) }
        ensures end { MatchGot result (λ _. ⊤) (IsAtEnd (incoming_of self.new).left) ⊤ }

        // Which reads fail, and how much each other read gives.
        ensures exact { IsRead self.old (length room.old) result self.new }
    {
        self.reads = self.reads.saturating_add(1);
        if self.fails.contains(&self.reads) {
            self.faults = self.faults.saturating_add(1);
            return Got::Failed;
        }
        let (at, from) = next_place(&self.pieces, self.at, self.from);
        self.at = at;
        self.from = from;
        if at == self.pieces.len() {
            return Got::End;
        }
        let n = copy_from(piece(&self.pieces, at), from, room);
        self.from += n;
        Got::Bytes(n)
    }
}
