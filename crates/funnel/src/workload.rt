//! A load over a new engine, and its summary.
ghost use Rattle.std.specs.Prelude.{◌≡◌, None, IfSome, length};
ghost use Rattle.funnel_model.specs.Configuration.{IsValid};
ghost use Rattle.load_gen.specs.Summary.{summary_text};
ghost use Rattle.funnel.specs.LoadRuns.{EndsLoad, IsLoadThatFits, Tells};
ghost use Rattle.funnel.specs.Runs.{IsBlankFor, KeepsLast};

use crate::ends::Why;
use command_line::LoadCommand;
use engine::{Blank, Closed, Engine, PoolName};
use funnel_io::{Sink, write_all};
use funnel_model::{Config, Memory};
use funnel_server::run_load;
use load_gen::{make, summary};
use std::alloc::Global;
use std::marker::Brand;
use std::sync::Wait;
use std::thread::Threads;

/// Makes a load by a new engine, as [`make_load`] does.
pub(crate) fn load_command<R: Threads + Wait + Sync, K: Sink>(
    rt: &R,
    alloc: Global,
    config: &Config,
    command: LoadCommand,
    output: &mut K,
) -> (Why, Option<Closed>)
    requires valid { IsValid config.now }
    requires load { IsLoadThatFits config.now command }
    ensures ends { EndsLoad config.now command (K.outgoing output.old) (K.outgoing output.new) result.0 result.1 }
    ensures kept { IfSome result.1 (KeepsLast config.now) }
    ensures borrowed { K.borrowed output.new ≡ K.borrowed output.old }
    ensures untouched { result.1 ≡ None → output.new ≡ output.old }
    ensures without_memory { result.0 ≡ Why.Memory → output.new ≡ output.old }
{
    let Ok(blank) = Blank::new(alloc, config) else {
        return (Why::Memory, None);
    };
    make_load::<Brand, _, _>(rt, alloc, config, blank, command, output)
}

/// Makes the documents of a load, puts its calls to a new engine by as many workers as it has, closes the engine, and writes
/// the summary. For want of memory nothing is written.
fn make_load<N: PoolName + Send + Sync, R: Threads + Wait + Sync, K: Sink>(
    rt: &R,
    alloc: Global,
    config: &Config,
    blank: Blank,
    command: LoadCommand,
    output: &mut K,
) -> (Why, Option<Closed>)
    requires blank { IsBlankFor config.now N.pool blank }
    requires load { IsLoadThatFits config.now command }
    ensures ends { EndsLoad config.now command (K.outgoing output.old) (K.outgoing output.new) result.0 result.1 }
    ensures kept { IfSome result.1 (KeepsLast config.now) }
    ensures borrowed { K.borrowed output.new ≡ K.borrowed output.old }
    ensures untouched { result.1 ≡ None → output.new ≡ output.old }
    ensures without_memory { result.0 ≡ Why.Memory → output.new ≡ output.old }
{
    let LoadCommand {
        docs,
        workers,
        words,
        seed,
    } = command;
    let Ok(load) = make(alloc, seed, docs, words) else {
        return (Why::Memory, None);
    };
    let Ok((engine, passes)) = Engine::<N>::open(alloc, config, blank) else {
        return (Why::Memory, None);
    };
    let (passes, results) = run_load(rt, alloc, &engine, passes, workers, &load);
    let closed = engine.close(passes);
    match results {
        Ok(results) => (tell(alloc, docs, &results, output), Some(closed)),
        Err(Memory) => (Why::Memory, Some(closed)),
    }
}

/// Writes the summary with these results.
fn tell<K: Sink>(alloc: Global, docs: u32, results: &[(u64, u64)], output: &mut K) -> Why
    requires { length results.now ≡ 8 }
    ensures told { Tells (summary_text docs results.now) (K.outgoing output.old) (K.outgoing output.new) result }
    ensures without_memory { result ≡ Why.Memory → output.new ≡ output.old }
    ensures borrowed { K.borrowed output.new ≡ K.borrowed output.old }
{
    let mut text = Vec::new(alloc);
    if summary(docs, results, &mut text).is_err() {
        return Why::Memory;
    }
    match write_all(output, text.as_slice()) {
        Ok(()) => Why::Done,
        Err(_) => Why::WriteFault,
    }
}
