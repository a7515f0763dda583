//! One session over a new engine, by its first pass.
ghost use Rattle.std.specs.Prelude.{◌≡◌, ◌≤◌, [], IfSome};
ghost use Rattle.funnel_model.specs.Configuration.{IsValid};
ghost use Rattle.funnel.specs.Runs.{HoldTheSame, IsBlankFor, KeepsLast, RanOrNot, first_caller};
ghost use Rattle.funnel.specs.Serving.{FirstDid, new_passes};
ghost use Rattle.funnel.specs.Turns.{RunsInTurns};
ghost use Rattle.session.specs.declared.serving.TheConstants.{MOST_BYTES};
ghost use Rattle.session.specs.Ends.{Serves};

use crate::ends::Why;
use crate::first_pass::{first_client, hand_back};
use engine::{Blank, Closed, Engine, Pass, PoolName};
use funnel_io::{End, Pair, Sink, Source};
use funnel_model::Config;
use session::{MOST_BYTES, serve_session};
use std::alloc::Global;
use std::marker::Brand;
use std::sync::Wait;

/// Answers the lines of the input by the first pass of a new engine, and closes it. Nothing of it is left where there was no memory
/// to open it; then nothing was read or written.
pub(crate) fn run_command<R: Wait, S: Source, K: Sink>(
    rt: &R,
    alloc: Global,
    config: &Config,
    input: &mut S,
    output: &mut K,
) -> (Why, Option<Closed>)
    requires valid { IsValid config.now }
    ensures ran { RanOrNot config.now (S.incoming input.old) (S.incoming input.new) (K.outgoing output.old) (K.outgoing output.new) result.0 result.1 }
    ensures in_turns { RunsInTurns S.read_gives K.write_gives (result.0 ≡ Why.Done) (input.old, output.old) (input.new, output.new) }
    ensures kept { IfSome result.1 (KeepsLast config.now) }
    ensures without_memory { result.0 ≡ Why.Memory → (input.new ≡ input.old) × (output.new ≡ output.old) }
    ensures borrowed { HoldTheSame S.borrowed K.borrowed (input.old, output.old) (input.new, output.new) }
{
    let Ok(blank) = Blank::new(alloc, config) else {
        return (Why::Memory, None);
    };
    run::<Brand, _, _, _>(rt, alloc, config, blank, input, output)
}

/// Opens an engine over the blank, answers the lines of the input by its first pass, and closes it. Nothing of it is left
/// where there was no memory to open it; then nothing was read or written.
fn run<N: PoolName, R: Wait, S: Source, K: Sink>(
    rt: &R,
    alloc: Global,
    config: &Config,
    blank: Blank,
    input: &mut S,
    output: &mut K,
) -> (Why, Option<Closed>)
    requires blank { IsBlankFor config.now N.pool blank }
    ensures ran { RanOrNot config.now (S.incoming input.old) (S.incoming input.new) (K.outgoing output.old) (K.outgoing output.new) result.0 result.1 }
    ensures in_turns { RunsInTurns S.read_gives K.write_gives (result.0 ≡ Why.Done) (input.old, output.old) (input.new, output.new) }
    ensures kept { IfSome result.1 (KeepsLast config.now) }
    ensures without_memory { result.0 ≡ Why.Memory → (input.new ≡ input.old) × (output.new ≡ output.old) }
    ensures borrowed { HoldTheSame S.borrowed K.borrowed (input.old, output.old) (input.new, output.new) }
{
    let Ok((engine, passes)) = Engine::<N>::open(alloc, config, blank) else {
        return (Why::Memory, None);
    };
    let (end, passes) = serve(rt, alloc, &engine, passes, input, output);
    (Why::from(end), Some(engine.close(passes)))
}

/// Answers the lines of the input by the first of the engine's passes, which are new, and hands them all back.
fn serve<N: PoolName, R: Wait, S: Source, K: Sink>(
    rt: &R,
    alloc: Global,
    engine: &Engine<N>,
    passes: Vec<Pass<N>>,
    input: &mut S,
    output: &mut K,
) -> (End, Vec<Pass<N>>)
    requires some { 1 ≤ N.pool.limits.passes }
    requires counted { N.pool.limits.passes ≡ N.pool.config.passes }
    requires new { passes.items ≡ new_passes 0 N.pool.config.passes }
    ensures served { FirstDid N.pool result.1.items (λ front. Serves (first_caller N.pool.config N.pool.limits) MOST_BYTES
        record { front = []; incoming = S.incoming input.old; outgoing = K.outgoing output.old }
        record { front = front; incoming = S.incoming input.new; outgoing = K.outgoing output.new }
        result.0) }
    ensures in_turns { RunsInTurns S.read_gives K.write_gives (result.0 ≡ End.Done) (input.old, output.old) (input.new, output.new) }
    ensures without_memory { result.0 ≡ End.Memory → (input.new ≡ input.old) × (output.new ≡ output.old) }
    ensures borrowed { HoldTheSame S.borrowed K.borrowed (input.old, output.old) (input.new, output.new) }
{
    let (mut client, others) = first_client(rt, alloc, engine, passes);
    let mut conn = Pair {
        source: input,
        sink: output,
    };
    let end = serve_session(alloc, &mut client, &mut conn, MOST_BYTES);
    (end, hand_back(client, others))
}
