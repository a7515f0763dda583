ghost use Rattle.std.specs.Prelude.{◌≡◌, ◌<◌, ◌≤◌, ◌+◌, ℕ, List, [], true, false, nat_lt, ◌||◌, if◌then◌else◌, IfOk, MatchOption, length, ⊤};
ghost use Rattle.funnel_io.specs.Answers.{MatchGot};
ghost use Rattle.funnel_io.specs.Beside.{StaysBeside};
ghost use Rattle.funnel_io.specs.BufferReads.{TellsRead};
ghost use Rattle.funnel_io.specs.Counts.{counted};
ghost use Rattle.funnel_io.specs.Lines.{HasNoNewline};
ghost use Rattle.funnel_io.specs.LineReading.{unused, HasGiven, Gives, NextLine, IsDecided, IsUndecided, KeepsToLimits, KnowsEnd, line_failed, IsLine, most_lines};
ghost use Rattle.funnel_io.specs.LineSteps.{ReadsNext, KeepsEnd, IsOfBytes};

use crate::line_buffer::{LEAST_ROOM, LineBuffer};
use crate::source::{Got, Source};
use std::alloc::{AllocError, Global};
use std::marker::Model;

/// The most bytes of a line, without its newline. A carriage return at its end counts.
pub const MAX_LINE_LEN: usize = 65_536;

/// What one call of [`LineReader::next_line`] gave.
#[derive(Clone, Copy, Debug, PartialEq, Eq)]
pub enum Line {
    /// A line of at most [`MAX_LINE_LEN`] bytes ended.
    Whole,
    /// A longer line ended.
    Long,
    /// The source is at its end, and every line was given.
    Finished,
    /// A read failed.
    Failed,
    /// Another byte would have to be read, and none may be.
    Limit,
}

/// Turns the bytes of a source into lines, however its reads cut them. A line ends at a newline,
/// which is no part of it, or at the end of the source where it is not empty there.
#[derive(Drop)]
pub struct LineReader {
    held: LineBuffer,
    long: bool,
    ended: bool,
}

impl Model for LineReader {
    ghost use Rattle.funnel_io.specs.LineReading.{ReaderState};

    ghost Value = { ReaderState };

    ghost view = { λ r. record {
      held = r.held.bytes;
      long = r.long;
      ended = r.ended;
      line = r.held.line;
    } };
}

impl LineReader {
    /// A reader that holds nothing. It takes all the memory that it ever needs.
    pub fn new(alloc: Global) -> Result<LineReader, AllocError>
        ensures unused { IfOk result (λ reader. reader ≡ unused) }
        ensures nothing_given { IfOk result (λ reader. HasGiven reader [] []) }
    {
        Ok(LineReader {
            held: LineBuffer::new(alloc)?,
            long: false,
            ended: false,
        })
    }

    /// The line that was given last, after [`Line::Whole`].
    pub fn line(&self) -> &[u8]
        ensures { result.now ≡ self.now.line }
    {
        self.held.line()
    }

    /// Gives the next line, and takes at most `left` bytes for it, which it counts down. It takes
    /// no memory. A read that fails ends the call, and nothing is lost by it.
    pub fn next_line<C: Source>(&mut self, conn: &mut C, left: &mut u64) -> Line
        ensures stays { StaysBeside C.borrowed C.beside_read conn.old conn.new }
        ensures faults { (C.incoming conn.new).faults ≡ counted (line_failed result) (C.incoming conn.old).faults }

        // It reads only where the bytes that it holds decide no answer, into room for 64 bytes or for
        // all that may be taken, and never after a read that gave none.
        ensures next { NextLine C.incoming C.read_gives self.old self.new result conn.old conn.new left.old left.new }
        ensures limits { KeepsToLimits result self.new left.new }
        ensures at_end { KnowsEnd self.old (C.incoming conn.old) left.old → KnowsEnd self.new (C.incoming conn.new) left.new }

        // Where nothing has to be read or nothing may be, the source is not touched.
        ensures untouched { IsDecided self.old left.old → (conn.new ≡ conn.old) × (left.new ≡ left.old) }

        // A line that is given leaves fewer that can still come.
        ensures fewer { IsLine result → most_lines self.new.held self.new.long + left.new
            < most_lines self.old.held self.old.long + left.old }
    {
        loop {
            if let Some(line) = self.held_line() {
                return line;
            }
            if *left == 0 {
                return Line::Limit;
            }
            match self.read_more(conn, left) {
                Got::Bytes(_) => {}
                Got::End => return self.last_line(),
                Got::Failed => return Line::Failed,
            }
        }
    }

    // The answer that the bytes at hand decide, if they do.
    fn held_line(&mut self) -> Option<Line>
        ensures line { MatchOption result (self.new ≡ self.old)
            (λ line. (taken : List ℕ) (given : List (List ℕ)) → HasGiven self.old taken given → Gives line taken given self.new) }
        ensures undecided { MatchOption result (IsUndecided self.new) (λ _. ⊤) }
        ensures ended { self.new.ended ≡ self.old.ended }
        ensures no_read { MatchOption result ⊤ IsOfBytes }
        ensures fits { MatchOption result ⊤ (λ line. line ≡ Line.Whole → length self.new.line ≤ MAX_LINE_LEN) }
        ensures fewer { MatchOption result ⊤ (λ line. IsLine line → most_lines self.new.held self.new.long < most_lines self.old.held self.old.long) }
    {
        if self.held.take_line() {
            let line = judge(self.long, self.held.line());
            self.long = false;
            return Some(line);
        }
        if self.ended {
            Some(self.last_line())
        } else {
            None
        }
    }

    // The answer at the end of the source, where no newline is held.
    fn last_line(&mut self) -> Line
        requires at_end { self.old.ended ≡ true }
        requires clean { HasNoNewline self.old.held }
        ensures line { (taken : List ℕ) (given : List (List ℕ)) → HasGiven self.old taken given → Gives result taken given self.new }
        ensures ended { self.new.ended ≡ true }
        ensures no_read { IsOfBytes result }
        ensures fits { result ≡ Line.Whole → length self.new.line ≤ MAX_LINE_LEN }
        ensures fewer { IsLine result → most_lines self.new.held self.new.long < most_lines self.old.held self.old.long }
    {
        if !self.long && self.held.len() == 0 {
            return Line::Finished;
        }
        self.held.take_rest();
        let line = judge(self.long, self.held.line());
        self.long = false;
        line
    }

    // Reads once, into room that it makes where there is too little.
    fn read_more<C: Source>(&mut self, conn: &mut C, left: &mut u64) -> Got
        requires undecided { IsUndecided self.old }
        requires some { 0 < left.old }
        ensures stays { StaysBeside C.borrowed C.beside_read conn.old conn.new }
        ensures next { ReadsNext C.incoming C.read_gives conn.old conn.new self.old self.new result left.old left.new }
        ensures no_more { most_lines self.new.held self.new.long + left.new
            ≤ most_lines self.old.held self.old.long + left.old }
        ensures told { TellsRead C.incoming result conn.old conn.new left.old left.new }
        ensures clean { MatchGot result (λ _. ⊤) (HasNoNewline self.new.held) (HasNoNewline self.new.held) }
        ensures ended { MatchGot result (λ _. self.new.ended ≡ false) (self.new.ended ≡ true) (self.new.ended ≡ false) }
    {
        self.long = make_room(&mut self.held, self.long);
        match self.held.read(conn, left) {
            Got::Bytes(n) => Got::Bytes(n),
            Got::End => {
                self.ended = true;
                Got::End
            }
            Got::Failed => Got::Failed,
        }
    }
}

// The answer for a line that ended; `long` tells that bytes of it were dropped.
fn judge(long: bool, line: &[u8]) -> Line
    ensures judged { result ≡ (if long || nat_lt MAX_LINE_LEN (length line.now) then Line.Long else Line.Whole) }
    ensures fits { result ≡ Line.Whole → length line.now ≤ MAX_LINE_LEN }
{
    if long || line.len() > MAX_LINE_LEN {
        Line::Long
    } else {
        Line::Whole
    }
}

// Makes room for a read behind bytes of a line that has not ended: it moves them to the front, or
// drops them where the line is too long. The result tells that bytes of the line were dropped.
fn make_room(held: &mut LineBuffer, long: bool) -> bool
    requires { HasNoNewline held.old.bytes }
    ensures clean { HasNoNewline held.new.bytes }
    ensures room { LEAST_ROOM ≤ held.new.room }
    ensures kept { KeepsEnd held.old.bytes long held.new.bytes result }
    ensures no_more { most_lines held.new.bytes result ≤ most_lines held.old.bytes long }
{
    if held.len() == 0 {
        held.clear();
        return long;
    }
    if held.room() >= LEAST_ROOM {
        return long;
    }
    if long || held.len() > MAX_LINE_LEN {
        held.clear();
        return true;
    }
    held.move_to_front();
    long
}
