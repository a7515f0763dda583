//! The program: it hands its words, the file of its configuration, the standard streams and a gate on each of its ports to
//! `funnel_main` of the crate `funnel`, and exits with the status that this gives.
#![tactic(auto)]

mod cause;
mod closed;
mod spoken_gate;

use cause::{Errors, say_cause};
use closed::hold_closed;
use funnel::{
    Command, CommandFault, Why, funnel_main, gates_on, idle, ports, read_command, shares_port,
};
use funnel_io::{FileSource, SharedPort, StdinSource, StdoutSink};
use funnel_model::Memory;
use spoken_gate::{SpokenGate, spoken};
use std::alloc::Global;
use std::env;
use std::io::{ErrorKind, IsTerminal};
use std::net::TcpListener;
use std::process::ExitCode;

/// The configuration, in the folder in which the program is started.
const CONFIG_PATH: &str = "funnel.json";

fn main(rt: HostRuntime) -> ExitCode {
    let _held = hold_closed(&rt);
    let alloc = rt.alloc();
    let args = match args(&rt) {
        Ok(args) => args,
        Err(why) => return refuse_args(&rt, &why),
    };
    let Ok(words): Result<Vec<&str>, _> = args.iter().map(|arg| arg.as_str()).collect(alloc) else {
        return report(&rt, &Why::Memory);
    };
    let words = words.as_slice();
    let shared = SharedPort::new();
    let Ok(gates) = gates(&rt, alloc, words, &shared) else {
        return report(&rt, &Why::Memory);
    };
    let mut config = FileSource::open(&rt, CONFIG_PATH);
    let mut input = StdinSource::new(rt.stdin());
    let mut output = StdoutSink::new(rt.stdout());
    let ended = funnel_main(
        &rt,
        alloc,
        words,
        &mut config,
        &mut input,
        &mut output,
        gates,
    );
    let status = report(&rt, &ended.why);
    let errors = Errors {
        config: config.error(),
        input: input.error(),
        output: output.error(),
    };
    // Where nothing can be written on standard error, the status tells it alone.
    let _ = say_cause(&rt, words, &ended, &errors);
    status
}

/// The words after the program's name. One that is not UTF-8 is in no command.
fn args(rt: &HostRuntime) -> Result<Vec<String>, Why> {
    match env::args(rt) {
        Ok(args) => args.skip(1).collect(rt.alloc()).map_err(|_| Why::Memory),
        Err(error) if error.kind() == ErrorKind::OutOfMemory => Err(Why::Memory),
        Err(_) => Err(Why::Usage),
    }
}

/// A gate for each port that the words ask for, or, where these are one, a gate for each worker on the shared port. Says first what
/// begins.
fn gates<'a>(
    rt: &'a HostRuntime,
    alloc: Global,
    words: &[&str],
    shared: &'a SharedPort<TcpListener>,
) -> Result<Vec<SpokenGate<'a>>, Memory> {
    let command = match read_command(alloc, words) {
        Ok(command) => Some(command),
        Err(CommandFault::Usage) => None,
        Err(CommandFault::Memory) => return Err(Memory),
    };
    say_what_begins(rt, command);
    let ports = ports(alloc, command)?;
    let shared = if shares_port(command) {
        Some(shared)
    } else {
        None
    };
    let gates = gates_on(rt, alloc, ports.as_slice(), idle(command), shared)?;
    Ok(spoken(rt, alloc, gates)?)
}

/// Says on standard error, where that is a terminal, that a load or a fit begins, which say nothing until they end.
fn say_what_begins(rt: &HostRuntime, command: Option<Command>) {
    if !rt.stderr().is_terminal() {
        return;
    }
    // Where the line can't be written, the person isn't told.
    let _ = match command {
        Some(Command::Load(load)) => eprintln!(rt;
            "funnel: a load of {} documents begins; its summary comes when it is done",
            load.docs
        ),
        Some(Command::Fit(fit)) => eprintln!(rt;
            "funnel: lines are read up to the end of standard input; \
             the configuration for {} documents that is fitted to them comes then",
            fit.documents
        ),
        _ => Ok(()),
    };
}

/// Tells that the words after the program's name could not be read.
fn refuse_args(rt: &HostRuntime, why: &Why) -> ExitCode {
    let status = report(rt, why);
    if let Why::Usage = why {
        // As in `main`.
        let _ = eprintln!(rt; "funnel: a word is not UTF-8; see `funnel --help`");
    }
    status
}

/// Says on standard error why the program did not do all that it was to do, and gives its status.
fn report(rt: &HostRuntime, why: &Why) -> ExitCode {
    if why.status() != 0 {
        // As in `main`.
        let _ = eprintln!(rt; "funnel: {why}");
    }
    ExitCode::from(why.status())
}
