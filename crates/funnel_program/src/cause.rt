//! What a program was refused for, or what failed, in words for the person who reads standard error.
use crate::CONFIG_PATH;
use crate::spoken_gate::SpokenGate;
use funnel::{MOST_PORT, Misfit, ProgramEnd, Why, usage_fault};
use funnel_model::{MOST_COLUMNS, MOST_ROW_WORDS};
use funnel_stats::{ConfigFault, Kept, Key};
use serde_json::Value;
use std::{fmt, fs, io};

/// What the system said of the last call on each stream that failed.
#[derive(Drop)]
pub(crate) struct Errors {
    pub(crate) config: Option<io::Error>,
    pub(crate) input: Option<io::Error>,
    pub(crate) output: Option<io::Error>,
}

/// Says on standard error what was wrong, where the end tells it.
pub(crate) fn say_cause(
    rt: &HostRuntime,
    words: &[&str],
    ended: &ProgramEnd<SpokenGate<'_>>,
    errors: &Errors,
) -> io::Result<()> {
    match &ended.why {
        Why::Usage => say_usage(rt, words),
        Why::Config(fault) => say_fault(rt, fault),
        Why::ReadFault => {
            say_error(rt, "reading funnel.json", errors.config)?;
            say_error(rt, "reading standard input", errors.input)
        }
        Why::WriteFault => say_error(rt, "writing standard output", errors.output),
        Why::GateFault => say_gates(ended.gates.as_slice()),
        Why::NoThread(worker) => say_no_thread(rt, ended.gates.as_slice(), *worker),
        Why::Misfit(misfit) => say_misfit(rt, *misfit),
        Why::Done | Why::Memory | Why::ByteLimit(_) => Ok(()),
    }
}

/// Says what failed, and what the system said, where it did.
fn say_error(rt: &HostRuntime, doing: &str, error: Option<io::Error>) -> io::Result<()> {
    match error {
        Some(error) => eprintln!(rt; "funnel: {doing}: {error}"),
        None => Ok(()),
    }
}

fn say_usage(rt: &HostRuntime, words: &[&str]) -> io::Result<()> {
    match usage_fault(rt.alloc(), words) {
        Ok(Some(fault)) => eprintln!(rt; "funnel: {fault}; see `funnel --help`"),
        // Without memory for the words they aren't told.
        Ok(None) | Err(_) => Ok(()),
    }
}

/// Says of each gate that failed why it did.
fn say_gates(gates: &[SpokenGate<'_>]) -> io::Result<()> {
    for gate in gates {
        gate.say_error()?;
    }
    Ok(())
}

/// Says which worker had no thread, and on which port it was to take connections.
fn say_no_thread(rt: &HostRuntime, gates: &[SpokenGate<'_>], worker: usize) -> io::Result<()> {
    match gates.get(worker) {
        Some(gate) => eprintln!(rt;
            "funnel: worker {worker}, on port {}: the system gives it no thread: lower `--workers`",
            gate.port()
        ),
        None => Ok(()),
    }
}

fn say_fault(rt: &HostRuntime, fault: &ConfigFault) -> io::Result<()> {
    match fault {
        ConfigFault::BadValue(Key::Words, _) => eprintln!(rt;
            "funnel: `words` in funnel.json has to be an object of at most {} words with their counts",
            Key::Words.limits().greatest
        ),
        ConfigFault::BadValue(key, kept) => {
            let limits = key.limits();
            eprintln!(rt;
                "funnel: `{}` in funnel.json {}has to be a whole number from {} to {}",
                key.name(),
                Found(*kept),
                limits.least,
                limits.greatest
            )
        }
        ConfigFault::WordCount(word, kept) => eprintln!(rt;
            "funnel: the count of {:?} in `words` of funnel.json {}has to be a whole number from 1 to `documents`",
            word.as_str(),
            Found(*kept)
        ),
        ConfigFault::TooManyColumns(columns) => eprintln!(rt;
            "funnel: `slices`, `max_rank` and `blocks` in funnel.json make {columns} columns, and there may be {MOST_COLUMNS}"
        ),
        ConfigFault::PoolTooLarge(words) => eprintln!(rt;
            "funnel: the rows of funnel.json take {words} words, and may take {MOST_ROW_WORDS}"
        ),
        ConfigFault::NotJson => say_not_json(rt),
        fault => eprintln!(rt; "funnel: funnel.json: {fault}"),
    }
}

/// What was found where a whole number in a range has to be, as the first part of a sentence: a whole number out of the range, or nothing
/// where it is none.
#[derive(Clone, Copy)]
struct Found(Kept);

impl fmt::Display for Found {
    fn fmt<W: fmt::Write>(&self, f: &mut fmt::Formatter<W>) -> fmt::Result {
        match self.0 {
            Kept::Number(number) => write!(f, "is {number}, and "),
            Kept::Other => Ok(()),
        }
    }
}

/// Says where the text of the configuration ceases to be JSON. It is read once more, since nothing of it was kept.
fn say_not_json(rt: &HostRuntime) -> io::Result<()> {
    let read = fs::read(rt, CONFIG_PATH)?;
    match Value::from_slice(rt.alloc(), read.as_slice()) {
        Ok(_) => eprintln!(rt; "funnel: funnel.json: no JSON object"),
        Err(error) => eprintln!(rt; "funnel: funnel.json: {error}"),
    }
}

fn say_misfit(rt: &HostRuntime, misfit: Misfit) -> io::Result<()> {
    match misfit {
        Misfit::Gates { stated, given } => eprintln!(rt;
            "funnel: {stated} workers need a gate each, and there are {given}"
        ),
        Misfit::Workers { asked, passes } => eprintln!(rt;
            "funnel: {asked} workers need as many `passes`, and the configuration has {passes}: \
             raise `passes` in funnel.json, or lower `--workers`"
        ),
        Misfit::Ports { last } => eprintln!(rt;
            "funnel: the last worker would listen on port {last}, and the last there is is {MOST_PORT}: \
             lower `--port` or `--workers`"
        ),
        Misfit::Columns { docs, columns } => eprintln!(rt;
            "funnel: {docs} documents need a column each, and `slices`, `max_rank` and `blocks` make {columns}: \
             raise one of these in funnel.json, or lower `--docs`"
        ),
        Misfit::Sample(cause) => say_no_fit(rt, cause),
    }
}

/// Says why no configuration is fitted to the input of a fit.
fn say_no_fit(rt: &HostRuntime, cause: fit::Misfit) -> io::Result<()> {
    match cause {
        fit::Misfit::NoAdds => eprintln!(rt;
            "funnel: standard input has no add line: give one for each document of a sample, such as `add 7 The cat sat`"
        ),
        fit::Misfit::Adds { adds, most } => eprintln!(rt;
            "funnel: standard input has {adds} add lines, and may have {most}: give a smaller sample"
        ),
        fit::Misfit::Slices { slices, most } => eprintln!(rt;
            "funnel: so many documents need {slices} slices, and there may be {most}: lower `--documents`"
        ),
        fit::Misfit::Pool { words, most } => eprintln!(rt;
            "funnel: the rows for so many documents like these take {words} words, and may take {most}: lower `--documents`"
        ),
    }
}
