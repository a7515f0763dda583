//! Configurations that are fitted to documents.
ghost use Rattle.std.specs.Prelude.{◌≡◌, ◌≤◌, ◌^◌, IfErr, IfOk};
ghost use Rattle.funnel_model.specs.declared.config.TheConstants.{MOST_COLUMNS};
ghost use Rattle.funnel_c.specs.declared.code.Code.TheVariants as code;
ghost use Rattle.funnel_c.specs.Calls.{became};
ghost use Rattle.funnel_c.specs.Fitting.{FitsIndex, IsFittedText, IsUnfit, bytes_of_fit, code_of_fit, number_of_fit};

use crate::code::Code;
use crate::index::Index;
use fit::{FitEnd, Misfit, fit};
use funnel_io::{MemSink, ReaderSource};
use funnel_model::MOST_COLUMNS;
use std::alloc::Global;

/// The most bytes of a configuration.
const LONGEST: usize = 16_777_216;

impl Index {
    /// Keeps the bytes of the configuration for so many documents that is fitted to the texts of these add lines, and tells how many bytes it
    /// has, or by a number why none is.
    pub fn fit(&mut self, alloc: Global, documents: u64, lines: &[u8], count: &mut u64) -> Code
        ensures { FitsIndex documents lines.now self.old self.new result (became count.old count.new) }
    {
        let answer = fitted_for(alloc, documents, lines);
        keep_fitted(answer, &mut self.bytes, count)
    }
}

fn keep_fitted(answer: Result<Vec<u8>, Unfit>, bytes: &mut Vec<u8>, count: &mut u64) -> Code
    ensures code { result ≡ code_of_fit answer }
    ensures bytes { bytes.new.items ≡ bytes_of_fit answer bytes.old.items }
    ensures count { count.new ≡ number_of_fit answer count.old }
{
    match answer {
        Ok(fitted) => {
            *count = fitted.len() as u64;
            *bytes = fitted;
            Code::Done
        }
        Err(Unfit::Misfit(Misfit::NoAdds)) => told_misfit(1, count),
        Err(Unfit::Misfit(Misfit::Adds { .. })) => told_misfit(2, count),
        Err(Unfit::Misfit(Misfit::Slices { .. })) => told_misfit(3, count),
        Err(Unfit::Misfit(Misfit::Pool { .. })) => told_misfit(4, count),
        Err(Unfit::Documents) => told_misfit(5, count),
        Err(Unfit::TooLong) => told_misfit(6, count),
        Err(Unfit::Memory) => Code::Memory,
    }
}

fn told_misfit(number: u64, count: &mut u64) -> Code
    ensures code { result ≡ code.Misfit }
    ensures number { count.new ≡ number }
{
    *count = number;
    Code::Misfit
}

/// Why no configuration is fitted.
#[derive(Clone, Copy)]
pub enum Unfit {
    /// No configuration is for so many documents.
    Documents,
    /// None fits.
    Misfit(Misfit),
    /// The lines have 2^40 bytes or more.
    TooLong,
    /// No memory was found.
    Memory,
}

fn fitted_for(alloc: Global, documents: u64, lines: &[u8]) -> Result<Vec<u8>, Unfit>
    ensures fitted { IfOk result (λ bytes. IsFittedText documents lines.now bytes.items) }
    ensures unfit { IfErr result (IsUnfit documents lines.now) }
{
    if documents == 0 || documents > u64::from(MOST_COLUMNS) {
        return Err(Unfit::Documents);
    }
    fitted(alloc, documents as u32, lines)
}

/// The bytes of the configuration for so many documents that is fitted to the texts of these add lines.
fn fitted(alloc: Global, documents: u32, lines: &[u8]) -> Result<Vec<u8>, Unfit>
    requires some { 1 ≤ documents }
    requires few { documents ≤ MOST_COLUMNS }
    ensures fitted { IfOk result (λ bytes. IsFittedText documents lines.now bytes.items) }
    ensures unfit { IfErr result (IsUnfit documents lines.now) }
{
    let mut input = ReaderSource::new(lines);
    let Ok(mut output) = MemSink::new(alloc, LONGEST, Vec::new(alloc)) else {
        return Err(Unfit::Memory);
    };
    match fit(alloc, documents, 1 << 40, &mut input, &mut output) {
        FitEnd::Done => match Vec::from_slice(alloc, output.bytes()) {
            Ok(bytes) => Ok(bytes),
            Err(_) => Err(Unfit::Memory),
        },
        FitEnd::Misfit(cause) => Err(Unfit::Misfit(cause)),
        FitEnd::ByteLimit(_) => Err(Unfit::TooLong),
        FitEnd::ReadFault | FitEnd::WriteFault | FitEnd::Memory => Err(Unfit::Memory),
    }
}
