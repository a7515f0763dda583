//! A fit as one call.

ghost use Rattle.std.specs.Prelude.{◌≡◌, ◌≤◌, ◌^◌, ℕ, false, List, IfOk, IfErr, length, map, string_bytes};
ghost use Rattle.funnel_io.specs.Beside.{StaysBeside};
ghost use Rattle.funnel_model.specs.declared.config.TheConstants.{MOST_COLUMNS, MOST_WORDS};
ghost use Rattle.funnel_stats.specs.Configurations.{longest};
ghost use Rattle.fit.specs.Chosen.{EndsInput, FitsInput, HasNoFit};
ghost use Rattle.fit.specs.Ends.{Fits, IsFitted, IsMisfit, comes_to_write};
ghost use Rattle.fit.specs.Made.{CanBeListed, IsFrameOf, IsOfSample, IsSound, IsTooLong, ListsAll, ListsSample};
ghost use Rattle.fit.specs.Steps.{AddsUp, HasCounted, IsCounted, entries_of, ranked};
ghost use Rattle.fit.specs.Texts.{text_of};

use crate::ends::{FitEnd, Misfit};
use crate::listing::{Frame, Written, write_first};
use crate::ranking::{Ranked, ranking};
use crate::sample::read_sample;
use crate::shape::{best_rank, slices_at};
use crate::tally::Tally;
use funnel_io::{Sink, Source, write_all};
use funnel_model::{MOST_DOCUMENTS, MOST_ROW_WORDS, MOST_SLICES, MOST_WORDS, Memory};
use std::alloc::Global;
use treatment::sizes;

/// The most bytes of a configuration.
const LONGEST: usize = 16_777_216;

/// Reads lines from the input, up to its end or to `limit` bytes, and writes the configuration for so many documents that is
/// fitted to the texts of the add lines among them.
pub fn fit<S: Source, K: Sink>(
    alloc: Global,
    documents: u32,
    limit: u64,
    input: &mut S,
    output: &mut K,
) -> FitEnd
    requires some { 1 ≤ documents }
    requires few { documents ≤ MOST_COLUMNS }
    requires limit { limit ≤ 2 ^ 40 }
    ensures input_stays { StaysBeside S.borrowed S.beside_read input.old input.new }
    ensures output_stays { StaysBeside K.borrowed K.beside_write output.old output.new }

    // What was taken and written, by how it ended: with `Done` the text of the configuration that is fitted to the texts of the
    // add lines, which is valid and is read as this configuration.
    ensures fits { Fits documents limit
        record { incoming = S.incoming input.old; outgoing = K.outgoing output.old }
        record { incoming = S.incoming input.new; outgoing = K.outgoing output.new }
        result }

    // Nothing at all is written where there is no configuration to write.
    ensures unwritten { comes_to_write result ≡ false → output.new ≡ output.old }
{
    let written = match fit_input(alloc, documents, limit, input) {
        Ok(written) => written,
        Err(end) => return end,
    };
    match write_all(output, written.text.as_bytes()) {
        Ok(()) => FitEnd::Done,
        Err(_) => FitEnd::WriteFault,
    }
}

/// Reads the input, and makes the configuration that is fitted to it.
fn fit_input<S: Source>(
    alloc: Global,
    documents: u32,
    limit: u64,
    input: &mut S,
) -> Result<Written, FitEnd>
    requires some { 1 ≤ documents }
    requires few { documents ≤ MOST_COLUMNS }
    requires limit { limit ≤ 2 ^ 40 }
    ensures stays { StaysBeside S.borrowed S.beside_read input.old input.new }
    ensures fits { IfOk result (FitsInput documents limit (S.incoming input.old) (S.incoming input.new)) }
    ensures ends { IfErr result (EndsInput documents limit (S.incoming input.old) (S.incoming input.new)) }
{
    let sample = match read_sample(alloc, input, limit) {
        Ok(sample) => sample,
        Err(end) => return Err(end),
    };
    match fitted(alloc, documents, sample) {
        Ok(written) => Ok(written),
        Err(end) => Err(end),
    }
}

/// The configuration that is fitted to a sample, or why none is.
fn fitted(alloc: Global, documents: u32, sample: Tally) -> Result<Written, FitEnd>
    requires some { 1 ≤ documents }
    requires few { documents ≤ MOST_COLUMNS }
    requires counted { IsCounted (entries_of sample.counts.entries) sample.documents sample.words }
    ensures fitted { (texts : List (List ℕ)) → HasCounted texts (entries_of sample.counts.entries) sample.documents sample.words →
        IfOk result (λ written. IsFitted documents texts written.config × (string_bytes written.text ≡ text_of written.config)) }
    ensures no_fit { (texts : List (List ℕ)) → HasCounted texts (entries_of sample.counts.entries) sample.documents sample.words →
        IfErr result (HasNoFit documents texts) }
{
    let frame = match frame_of(documents, &sample) {
        Ok(frame) => frame,
        Err(misfit) => return Err(FitEnd::Misfit(misfit)),
    };
    let Ok(most) = list_most(alloc, frame, sample) else {
        return Err(FitEnd::Memory);
    };
    let words = sizes(&most.config).pool_words;
    if words > MOST_ROW_WORDS {
        let most = MOST_ROW_WORDS;
        return Err(FitEnd::Misfit(Misfit::Pool { words, most }));
    }
    Ok(most)
}

/// What a configuration for so many documents is made of, or why there is none.
fn frame_of(documents: u32, sample: &Tally) -> Result<Frame, Misfit>
    requires some { 1 ≤ documents }
    requires few { documents ≤ MOST_COLUMNS }
    requires sums { AddsUp (entries_of sample.now.counts.entries) sample.now.documents sample.now.words }
    ensures frame { IfOk result (IsFrameOf documents sample.now.documents sample.now.words) }
    ensures misfit { (texts : List (List ℕ)) → sample.now.documents ≡ length texts → IfErr result (IsMisfit documents texts) }
{
    let adds = sample.documents;
    if adds == 0 {
        return Err(Misfit::NoAdds);
    }
    if adds > MOST_DOCUMENTS {
        let most = MOST_DOCUMENTS;
        return Err(Misfit::Adds { adds, most });
    }
    let rank = best_rank(documents);
    let slices = slices_at(documents, rank);
    let most = u64::from(MOST_SLICES);
    if slices > most {
        return Err(Misfit::Slices { slices, most });
    }
    Ok(Frame {
        rank,
        slices: slices as u32,
        documents: adds,
        words: sample.words,
    })
}

/// The configuration that lists as many words as may be, and as its text has room for.
fn list_most(alloc: Global, frame: Frame, sample: Tally) -> Result<Written, Memory>
    requires sound { IsSound frame }
    requires sample { IsOfSample frame (entries_of sample.counts.entries) }
    ensures { IfOk result (ListsSample frame (entries_of sample.counts.entries)) }
{
    let found = ranking(alloc, sample.counts, frame.documents)?;
    let ranking = found.as_slice();
    let most = ranking.len().min(MOST_WORDS as usize);
    let all = write_first(alloc, frame, &ranking[..most])?;
    if all.text.len() <= LONGEST {
        return Ok(all);
    }
    list_fewer(alloc, frame, ranking, most)
}

/// The same, where the text has no room for so many: the greatest number is found by halving.
fn list_fewer(
    alloc: Global,
    frame: Frame,
    ranking: &[Ranked],
    too_many: usize,
) -> Result<Written, Memory>
    requires sound { IsSound frame }
    requires can { CanBeListed frame (map ranked ranking.now) }
    requires few { too_many ≤ MOST_WORDS }
    requires too_long { IsTooLong frame (map ranked ranking.now) too_many }
    ensures { IfOk result (ListsAll frame (map ranked ranking.now)) }
{
    let mut over = too_many;
    let mut fits = 0;
    let mut best = write_first(alloc, frame, &ranking[..0])?;
    while over - fits > 1 {
        let middle = fits + (over - fits) / 2;
        let next = write_first(alloc, frame, &ranking[..middle])?;
        if next.text.len() <= LONGEST {
            fits = middle;
            best = next;
        } else {
            over = middle;
        }
    }
    Ok(best)
}
