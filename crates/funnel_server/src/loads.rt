//! Loads that several workers put to an engine.
ghost use Rattle.std.specs.Prelude.{◌≡◌, ◌≤◌, ◌+◌, ◌++◌, ℕ, [], length, map, drop, reverse, vec_capacity, MatchResult};
ghost use Rattle.std.specs.List.{range_with_len};
ghost use Rattle.funnel_server.specs.Loads.{IsCutShort, IsPut, front_at};
ghost use Rattle.funnel_server.specs.Parts.{passes_of};

use crate::loader::Loader;
use crate::parts::run_parts;
use engine::{Client, Engine, Pass, PoolName};
use funnel_model::Memory;
use load_gen::Load;
use std::alloc::Global;
use std::sync::Wait;
use std::thread::Threads;

/// Puts a load to the engine, by as many workers as are asked for, and gives all passes back, each at its place.
///
/// Worker `i` uses pass `i` alone. It makes its calls in three parts: it adds its documents, deletes those that are to be
/// deleted, and runs its queries. In each part each worker has a thread of its own, and all have ended a part before the
/// next one begins. After a part that all came through each pass sees what all of them have seen. Where no thread can be
/// made a part runs on one thread, one worker after another.
///
/// The answer is the result of each query, or `Memory` where there was none for the workers or one of them found none. That
/// one then stops, the others come to the end of the part or find no memory themselves, and no further part begins; all passes
/// come back all the same. A call that is refused for another cause stops nothing.
///
/// It takes memory for all workers at once, and then what their calls take and the names that they look for. Its threads wait
/// for the engine's lock.
pub fn run_load<'a, N: PoolName + Send + Sync, R: Threads + Wait + Sync>(
    rt: &'a R,
    alloc: Global,
    engine: &'a Engine<N>,
    passes: Vec<Pass<N>>,
    workers: u32,
    load: &Load,
) -> (Vec<Pass<N>>, Result<[(u64, u64); 8], Memory>)
    requires some { 1 ≤ workers }
    requires enough { workers ≤ length passes.items }
    requires numbers { map (λ pass. pass.number) passes.items ≡ range_with_len 0 (length passes.items) }
    ensures numbers { map (λ pass. pass.number) result.0.items ≡ map (λ pass. pass.number) passes.items }
    ensures others { drop workers result.0.items ≡ drop workers passes.items }
    ensures put { MatchResult result.1
        (λ results. IsPut N.pool.config N.pool.limits load.now workers (front_at passes.items) (front_at result.0.items) results)
        (λ _. IsCutShort N.pool.config N.pool.limits load.now workers (front_at passes.items) (front_at result.0.items)) }
{
    let Ok(mut loaders) = Vec::with_capacity(alloc, workers as usize) else {
        return (passes, Err(Memory));
    };
    let mut passes = passes;
    equip(rt, alloc, engine, workers, &mut passes, &mut loaders);
    let results = run_parts(rt, engine, load, workers, &mut loaders);
    take_back(loaders, &mut passes);
    (passes, results)
}

/// Makes a worker of each of the first passes, and leaves the others in reverse.
fn equip<'a, N: PoolName, R: Wait>(
    rt: &'a R,
    alloc: Global,
    engine: &'a Engine<N>,
    workers: u32,
    passes: &mut Vec<Pass<N>>,
    loaders: &mut Vec<Loader<'a, N, R>>,
)
    requires enough { workers ≤ length passes.old.items }
    requires empty { loaders.old.items ≡ [] }
    requires room { workers ≤ vec_capacity loaders.old }
    ensures count { length loaders.new.items ≡ workers }
    ensures passes { passes_of loaders.new.items ++ reverse passes.new.items ≡ passes.old.items }
    ensures room { vec_capacity passes.new ≡ vec_capacity passes.old }
{
    passes.reverse();
    while loaders.len() < workers as usize {
        let Some(pass) = passes.pop() else {
            unreachable!()
        };
        let client = Client {
            engine,
            pass,
            rt,
            alloc,
        };
        let loader = Loader {
            client,
            results: [(0, 0); 8],
            stopped: false,
        };
        // There is room for each.
        if loaders.push(loader).is_err() {
            unreachable!()
        }
    }
}

/// Puts the passes of the workers before the others, which are in reverse.
fn take_back<N: PoolName, R: Wait>(loaders: Vec<Loader<'_, N, R>>, passes: &mut Vec<Pass<N>>)
    requires room { length loaders.items + length passes.old.items ≤ vec_capacity passes.old }
    ensures passes { passes.new.items ≡ passes_of loaders.entry.items ++ reverse passes.old.items }
{
    let mut loaders = loaders;
    while let Some(loader) = loaders.pop() {
        let Loader { client, .. } = loader;
        let Client { pass, .. } = client;
        // The room of those that were taken out is still there.
        if passes.push(pass).is_err() {
            unreachable!()
        }
    }
    passes.reverse();
}
