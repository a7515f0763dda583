ghost use Rattle.std.specs.Prelude.{◌≡◌, Some, false, map};
ghost use Rattle.funnel_server.specs.Gates.{gate_state};
ghost use Rattle.command_line.specs.Commands.{is_serve, reads_config};
ghost use Rattle.funnel.specs.Runs.{HoldTheSame};
ghost use Rattle.funnel.specs.Turns.{EndsInTurns, RunsInTurns};
ghost use Rattle.funnel.specs.Uses.{uses_input, uses_output};
ghost use Rattle.funnel.specs.Words.{command_in, text_in, words_in};
ghost use Rattle.command_line.specs.declared.command.Command.TheVariants as command;

use crate::ends::{ProgramEnd, Why};
use crate::fitting::misfit;
use crate::running::run_command;
use crate::sampling::fit_command;
use crate::serving::serve_command;
use crate::text::{tell, text_asked};
use crate::workload::load_command;
use command_line::{Command, CommandFault, read_command};
use funnel_io::{Gate, Sink, Source};
use funnel_stats::read_config;
use std::alloc::Global;
use std::sync::Wait;
use std::thread::Threads;

/// Runs the command that the words are, by an engine with the configuration. `run` answers the lines of `input` on `output`.
/// `serve` opens the gates, and answers the lines of the connections of each, or with `--http` their requests, by a pass and a
/// thread of its own. `load` makes its documents, has its workers add, delete and find them, each by a pass and a thread of its
/// own, and writes its summary on `output`. These two read nothing from `input`. `fit` reads lines of `input`, and writes the
/// configuration that is fitted to the add lines among them on `output`; it needs no configuration and no engine. Words that ask
/// for the help or the version alone have that text written on `output`, and nothing is read. `gates` come back in their order.
///
/// The words are judged first, then, unless they are a fit, the configuration, then whether the command's numbers fit it and the
/// gates, and then a serve opens its gates, all or none, and begins with all its workers or with none. Nothing is left of an engine
/// where one of these is refused or fails, or where memory ran out before the engine was open.
pub fn funnel_main<R: Threads + Wait + Sync, C: Source, S: Source, K: Sink, G: Gate + Send + Drop>(
    rt: &R,
    alloc: Global,
    words: &[&str],
    config: &mut C,
    input: &mut S,
    output: &mut K,
    gates: Vec<G>,
) -> ProgramEnd<G>
where
    G::Conn: Send,
    ensures ends { let state = gate_state G.Gate G.Conn.Source.own G.Conn.Sink.own in
        EndsInTurns G.Gate G.Conn.Source.own G.Conn.Sink.own (words_in words.now)
        record {
          config = C.incoming config.old;
          input = S.incoming input.old;
          output = K.outgoing output.old;
          gates = map state gates.items;
        }
        record {
          config = C.incoming config.new;
          input = S.incoming input.new;
          output = K.outgoing output.new;
          gates = map state result.gates.items;
        }
        result.why result.closed gates.items result.gates.items }
    ensures in_turns { command_in words.now ≡ Some command.Run →
        RunsInTurns S.read_gives K.write_gives (result.why ≡ Why.Done) (input.old, output.old) (input.new, output.new) }

    // Of the streams and gates that it is handed those that it has no use for stay as they are, also in what they don't tell.
    ensures config_unused { reads_config (command_in words.now) ≡ false → config.new ≡ config.old }
    ensures input_unused { uses_input (command_in words.now) result.why result.closed ≡ false → input.new ≡ input.old }
    ensures output_unused { uses_output (text_in words.now) (command_in words.now) result.why result.closed ≡ false → output.new ≡ output.old }
    ensures gates_unused { is_serve (command_in words.now) ≡ false → result.gates ≡ gates }
    ensures config_borrowed { C.borrowed config.new ≡ C.borrowed config.old }
    ensures borrowed { HoldTheSame S.borrowed K.borrowed (input.old, output.old) (input.new, output.new) }
{
    if let Some(text) = text_asked(words) {
        return ProgramEnd::unopened(tell(text, output), gates);
    }
    let command = match read_command(alloc, words) {
        Ok(command) => command,
        Err(CommandFault::Usage) => return ProgramEnd::unopened(Why::Usage, gates),
        Err(CommandFault::Memory) => return ProgramEnd::unopened(Why::Memory, gates),
    };
    if let Command::Fit(fit) = command {
        let why = fit_command(alloc, fit, input, output);
        return ProgramEnd::unopened(why, gates);
    }
    let config = match read_config(alloc, config) {
        Ok(config) => config,
        Err(fault) => return ProgramEnd::unopened(Why::from(fault), gates),
    };
    if let Some(misfit) = misfit(command, gates.len(), &config) {
        return ProgramEnd::unopened(Why::Misfit(misfit), gates);
    }
    match command {
        Command::Run => {
            let (why, closed) = run_command(rt, alloc, &config, input, output);
            ProgramEnd { why, gates, closed }
        }
        Command::Serve(serve) => serve_command(rt, alloc, &config, serve, gates),
        Command::Load(load) => {
            let (why, closed) = load_command(rt, alloc, &config, load, output);
            ProgramEnd { why, gates, closed }
        }
        // It has ended already.
        Command::Fit(_) => unreachable!(),
    }
}
