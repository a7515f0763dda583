//! The texts of an input, counted line by line.

ghost use Rattle.std.specs.Prelude.{◌≡◌, ◌+◌, ◌<◌, ◌≤◌, ◌^◌, List, [], ◌∷◌, ◌++◌, ℕ, IfOk, IfErr, OnOk, MatchBool, Ok, true, length};
ghost use Rattle.funnel_io.specs.Beside.{StaysBeside};
ghost use Rattle.funnel_io.specs.LineReading.{most_lines};
ghost use Rattle.funnel_io.specs.Streams.{Incoming};
ghost use Rattle.funnel_io.specs.declared.line_reader.TheConstants.{MAX_LINE_LEN};
ghost use Rattle.fit.specs.Samples.{EndsSample, HasSampled, IsSampled, texts_of};
ghost use Rattle.fit.specs.Steps.{AddsUp, HasCounted, entries_of};

use crate::ends::FitEnd;
use crate::tally::{Tally, count_text, no_texts};
use funnel_io::{Line, LineReader, Source};
use funnel_model::Memory;
use line_proto::{Request, parse_line};
use std::alloc::Global;

/// Counts the texts of the add lines of the input, up to its end or to `limit` bytes.
pub(crate) fn read_sample<S: Source>(
    alloc: Global,
    input: &mut S,
    limit: u64,
) -> Result<Tally, FitEnd>
    requires few { limit ≤ 2 ^ 40 }
    ensures stays { StaysBeside S.borrowed S.beside_read input.old input.new }
    ensures sampled { IfOk result (λ tally.
        IsSampled limit (S.incoming input.old) (S.incoming input.new) (entries_of tally.counts.entries) tally.documents tally.words) }
    ensures ends { IfErr result (EndsSample limit (S.incoming input.old) (S.incoming input.new)) }
{
    let Ok(reader) = LineReader::new(alloc) else {
        return Err(FitEnd::Memory);
    };
    let mut sampler = Sampler {
        reader,
        tally: no_texts(alloc),
        left: limit,
    };
    loop {
        if !sampler.next_line(alloc, input, limit)? {
            return Ok(sampler.tally);
        }
    }
}

/// What is kept between lines.
#[derive(Drop)]
struct Sampler {
    reader: LineReader,
    tally: Tally,
    left: u64,
}

impl Sampler {
    /// Reads the next line and counts its text, where it is an add line. It answers whether there was a line.
    fn next_line<S: Source>(
        &mut self,
        alloc: Global,
        input: &mut S,
        limit: u64,
    ) -> Result<bool, FitEnd>
        requires room { self.old.tally.documents + (most_lines self.old.reader.held self.old.reader.long + self.old.left) ≤ 2 ^ 40 }
        requires sums { AddsUp (entries_of self.old.tally.counts.entries) self.old.tally.documents self.old.tally.words }
        ensures stays { StaysBeside S.borrowed S.beside_read input.old input.new }
        ensures goes_on { (before : Incoming) →
            HasSampled limit self.old.left self.old.reader (entries_of self.old.tally.counts.entries) self.old.tally.documents self.old.tally.words
            before (S.incoming input.old) →
            IfOk result (λ more. MatchBool more
            (HasSampled limit self.new.left self.new.reader (entries_of self.new.tally.counts.entries) self.new.tally.documents self.new.tally.words
            before (S.incoming input.new))
            (IsSampled limit before (S.incoming input.new) (entries_of self.new.tally.counts.entries) self.new.tally.documents self.new.tally.words)) }
        ensures ends { (before : Incoming) →
            HasSampled limit self.old.left self.old.reader (entries_of self.old.tally.counts.entries) self.old.tally.documents self.old.tally.words
            before (S.incoming input.old) →
            IfErr result (EndsSample limit before (S.incoming input.new)) }
        ensures fewer { result ≡ Ok true → most_lines self.new.reader.held self.new.reader.long + self.new.left
            < most_lines self.old.reader.held self.old.reader.long + self.old.left }
    {
        match self.reader.next_line(input, &mut self.left) {
            Line::Whole => match count_line(alloc, &mut self.tally, self.reader.line()) {
                Ok(()) => Ok(true),
                Err(_) => Err(FitEnd::Memory),
            },
            Line::Long => Ok(true),
            Line::Finished => Ok(false),
            Line::Failed => Err(FitEnd::ReadFault),
            Line::Limit => Err(FitEnd::ByteLimit(limit)),
        }
    }
}

/// Counts the text of a line, where it is an add line.
fn count_line(alloc: Global, tally: &mut Tally, line: &[u8]) -> Result<(), Memory>
    requires short { length line.now ≤ MAX_LINE_LEN }
    requires room { tally.old.documents < 2 ^ 40 }
    requires sums { AddsUp (entries_of tally.old.counts.entries) tally.old.documents tally.old.words }
    ensures counted { OnOk result ((texts : List (List ℕ)) →
        HasCounted texts (entries_of tally.old.counts.entries) tally.old.documents tally.old.words →
        HasCounted (texts ++ texts_of (line.now ∷ [])) (entries_of tally.new.counts.entries) tally.new.documents tally.new.words) }
    ensures one_more { OnOk result (tally.new.documents ≤ tally.old.documents + 1) }
{
    match parse_line(line) {
        Some(Request::Add { id: _, text }) => count_text(alloc, tally, text),
        _ => Ok(()),
    }
}
