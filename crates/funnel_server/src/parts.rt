//! The three parts of a load.
ghost use Rattle.std.specs.Prelude.{◌≡◌, ◌<◌, ◌≤◌, ◌%◌, ℕ, false, true, length, slice_index_or, MatchResult};
ghost use Rattle.load_gen.specs.Jobs.{adds_of, deletes_of};
ghost use Rattle.funnel_server.specs.Loads.{IsCutShort, IsPut, front_at};
ghost use Rattle.funnel_server.specs.Parts.{AreWorkers, EachEnds, EndsDeletes, EndsLastPart, EndsPart, any_stopped, passes_of};

use crate::loader::Loader;
use crate::meeting::meet_all;
use engine::{Engine, PoolName};
use funnel_model::Memory;
use load_gen::Load;
use std::sync::Wait;
use std::thread::Threads;
use std::{array, thread};

/// Runs the parts one after another, with a meeting after each. Gives the results of the queries.
pub(crate) fn run_parts<N: PoolName + Send + Sync, R: Threads + Wait + Sync>(
    rt: &R,
    engine: &Engine<N>,
    load: &Load,
    workers: u32,
    loaders: &mut [Loader<'_, N, R>],
) -> Result<[(u64, u64); 8], Memory>
    requires some { 1 ≤ workers }
    requires workers { AreWorkers workers loaders.old }
    ensures workers { AreWorkers workers loaders.new }
    ensures put { MatchResult result
        (λ results. IsPut N.pool.config N.pool.limits load.now workers (front_at (passes_of loaders.old)) (front_at (passes_of loaders.new)) results)
        (λ _. IsCutShort N.pool.config N.pool.limits load.now workers (front_at (passes_of loaders.old)) (front_at (passes_of loaders.new))) }
{
    add_all(rt, load, workers, loaders)?;
    meet_all(engine, loaders);
    delete_all(rt, load, workers, loaders);
    meet_all(engine, loaders);
    find_all(rt, workers, loaders)?;
    meet_all(engine, loaders);
    Ok(results_of(loaders))
}

/// The first part: each worker adds its documents.
fn add_all<N: PoolName + Send + Sync, R: Threads + Wait + Sync>(
    rt: &R,
    load: &Load,
    workers: u32,
    loaders: &mut [Loader<'_, N, R>],
) -> Result<(), Memory>
    requires count { length loaders.old ≡ workers }
    requires some { 1 ≤ workers }
    ensures count { length loaders.new ≡ length loaders.old }
    ensures each { EachEnds (λ k. EndsPart N.pool.config N.pool.limits (adds_of load.now workers k)) loaders.old loaders.new }
    ensures stopped { MatchResult result (λ _. any_stopped loaders.new ≡ false) (λ _. any_stopped loaders.new ≡ true) }
{
    let threads = loaders.len();
    thread::for_each_mut(
        rt,
        loaders,
        threads,
        &|number, loader: &mut Loader<N, R>|
            requires { number < workers }
            ensures { EndsPart N.pool.config N.pool.limits (adds_of load.entry.now workers number) loader.old loader.new }
        { loader.add(load, workers, number as u32) },
    );
    none_stopped(loaders)
}

/// The second part: each worker deletes those of its documents that are to be deleted. None of them can stop.
fn delete_all<N: PoolName + Send + Sync, R: Threads + Wait + Sync>(
    rt: &R,
    load: &Load,
    workers: u32,
    loaders: &mut [Loader<'_, N, R>],
)
    requires count { length loaders.old ≡ workers }
    requires some { 1 ≤ workers }
    ensures count { length loaders.new ≡ length loaders.old }
    ensures each { EachEnds (λ k. EndsDeletes N.pool.config N.pool.limits (deletes_of load.now workers k)) loaders.old loaders.new }
{
    let threads = loaders.len();
    thread::for_each_mut(
        rt,
        loaders,
        threads,
        &|number, loader: &mut Loader<N, R>|
            requires { number < workers }
            ensures { EndsDeletes N.pool.config N.pool.limits (deletes_of load.entry.now workers number) loader.old loader.new }
        { loader.delete(load, workers, number as u32) },
    );
}

/// The third part: each worker runs its queries.
fn find_all<N: PoolName + Send + Sync, R: Threads + Wait + Sync>(
    rt: &R,
    workers: u32,
    loaders: &mut [Loader<'_, N, R>],
) -> Result<(), Memory>
    requires count { length loaders.old ≡ workers }
    requires some { 1 ≤ workers }
    ensures count { length loaders.new ≡ length loaders.old }
    ensures each { EachEnds (EndsLastPart N.pool.config N.pool.limits workers) loaders.old loaders.new }
    ensures stopped { MatchResult result (λ _. any_stopped loaders.new ≡ false) (λ _. any_stopped loaders.new ≡ true) }
{
    let threads = loaders.len();
    thread::for_each_mut(
        rt,
        loaders,
        threads,
        &|number, loader: &mut Loader<N, R>|
            requires { number < workers }
            ensures { EndsLastPart N.pool.config N.pool.limits workers number loader.old loader.new }
        { loader.find(workers, number as u32) },
    );
    none_stopped(loaders)
}

/// Whether each worker found memory for all of its adds, or of its queries where it came to them.
fn none_stopped<N: PoolName, R: Wait>(loaders: &[Loader<'_, N, R>]) -> Result<(), Memory>
    ensures { MatchResult result (λ _. any_stopped loaders.now ≡ false) (λ _. any_stopped loaders.now ≡ true) }
{
    if any_stopped(loaders) {
        Err(Memory)
    } else {
        Ok(())
    }
}

fn any_stopped<N: PoolName, R: Wait>(loaders: &[Loader<'_, N, R>]) -> bool
    ensures { result ≡ any_stopped loaders.now }
{
    loaders.iter().any(|loader| loader.stopped)
}

/// The result of each query, from the worker that ran it.
fn results_of<N: PoolName, R: Wait>(loaders: &[Loader<'_, N, R>]) -> [(u64, u64); 8]
    requires some { 1 ≤ length loaders.now }
    ensures count { length result ≡ 8 }
    ensures each { (place : ℕ) (d : _) → place < 8 →
        slice_index_or result place (0, 0) ≡ slice_index_or (slice_index_or loaders.now (place % length loaders.now) d).results place (0, 0) }
{
    array::from_fn(
        |place|
            requires { (place < 8) × (1 ≤ length loaders.now) }
            ensures { (d : _) → result ≡ slice_index_or (slice_index_or loaders.entry.now (place % length loaders.entry.now) d).results place (0, 0) }
        { loaders[place % loaders.len()].result(place) },
    )
}
