//! The first pass of a new engine as a client, and back among the others.
ghost use Rattle.std.specs.Prelude.{◌≡◌, ◌≤◌, ◌<◌, ◌-◌, length, vec_capacity};
ghost use Rattle.engine.specs.Passes.{new_pass};
ghost use Rattle.funnel.specs.Serving.{OnlyFirstUsed, new_passes};

use engine::{Client, Engine, Pass, PoolName};
use std::alloc::Global;
use std::sync::Wait;

/// The first of the engine's passes, which are new, as a client, and the others.
pub(crate) fn first_client<'a, N: PoolName, R: Wait>(
    rt: &'a R,
    alloc: Global,
    engine: &'a Engine<N>,
    passes: Vec<Pass<N>>,
) -> (Client<'a, N, R>, Vec<Pass<N>>)
    requires some { 1 ≤ N.pool.limits.passes }
    requires counted { N.pool.limits.passes ≡ N.pool.config.passes }
    requires new { passes.items ≡ new_passes 0 N.pool.config.passes }
    ensures first { result.0 ≡ new_pass 0 }
    ensures others { result.1.items ≡ new_passes 1 (N.pool.config.passes - 1) }
    ensures room { length result.1.items < vec_capacity result.1 }
{
    let mut passes = passes;
    let pass = passes.remove(0);
    let client = Client {
        engine,
        pass,
        rt,
        alloc,
    };
    (client, passes)
}

/// All passes of an engine: the first, which the client has, behind the others, which are new.
pub(crate) fn hand_back<N: PoolName, R: Wait>(
    client: Client<'_, N, R>,
    others: Vec<Pass<N>>,
) -> Vec<Pass<N>>
    requires first { client.number ≡ 0 }
    requires some { 1 ≤ N.pool.limits.passes }
    requires counted { N.pool.limits.passes ≡ N.pool.config.passes }
    requires new { others.items ≡ new_passes 1 (N.pool.config.passes - 1) }
    requires room { length others.items < vec_capacity others }
    ensures used { OnlyFirstUsed N.pool client.entry.front result.items }
{
    let Client { pass, .. } = client;
    let mut passes = others;
    // The room of the pass that was taken out is still there.
    if passes.push(pass).is_err() {
        unreachable!()
    }
    passes
}
