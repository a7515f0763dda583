//! A fit: a configuration that is fitted to a sample of documents.
ghost use Rattle.command_line.specs.Commands.{IsFitInRange};
ghost use Rattle.funnel.specs.FitRuns.{EndsFit};
ghost use Rattle.funnel.specs.Runs.{HoldTheSame};

use crate::ends::Why;
use command_line::FitCommand;
use fit::fit;
use funnel_io::{Sink, Source};
use session::MOST_BYTES;
use std::alloc::Global;

/// Reads lines of the input, up to its end or to as many bytes as a run may take, and writes the configuration that is fitted to the
/// add lines among them.
pub(crate) fn fit_command<S: Source, K: Sink>(
    alloc: Global,
    command: FitCommand,
    input: &mut S,
    output: &mut K,
) -> Why
    requires { IsFitInRange command }
    ensures ends { EndsFit command (S.incoming input.old) (S.incoming input.new) (K.outgoing output.old) (K.outgoing output.new) result }
    ensures borrowed { HoldTheSame S.borrowed K.borrowed (input.old, output.old) (input.new, output.new) }
{
    let documents = command.documents;
    Why::from(fit(alloc, documents, MOST_BYTES, input, output))
}
