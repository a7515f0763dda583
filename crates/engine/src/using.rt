//! Engines for programs that write no clause and no proof.
ghost use Rattle.std.specs.Prelude.{◌≡◌, ◌≤◌, length, map, IfOk};
ghost use Rattle.std.specs.List.{range_with_len};
ghost use Rattle.engine.specs.Passes.{new_pass};
ghost use Rattle.funnel_model.specs.Configuration.{IsValid};

use crate::blank::Blank;
use crate::closed::Closed;
use crate::engine::Engine;
use crate::pass::Pass;
use funnel_model::{Config, Memory};
use slice_rule::PoolName;
use std::alloc::Global;
use std::marker::Brand;
use std::thread::{Threads, map_vec};

/// What a program does with an engine that is its own, by a runtime of the type `R`. `run` names no pool, so it can't mix up what
/// belongs to two engines. An `impl` says what it needs of the runtime, which is `Wait` for most calls of an engine.
pub trait UseEngine<R> {
    /// What it comes to.
    type Output;

    /// Uses the engine, which is empty, and its passes, as many as the configuration says, by their numbers. It may close the engine
    /// with them, or let them go.
    fn run<N: PoolName>(
        self,
        rt: &R,
        alloc: Global,
        engine: Engine<N>,
        passes: Vec<Pass<N>>,
    ) -> Self::Output
        requires engine { engine ≡ N.pool }
        requires passes { passes.items ≡ map new_pass (range_with_len 0 N.pool.config.passes) }
        requires some { 1 ≤ length passes.items };
}

/// What each of several threads does with an engine that they share, by a runtime of the type `R`.
pub trait ShareEngine<R> {
    /// What a thread comes to.
    type Output;

    /// Uses the engine by a pass of the thread's own, whose number tells one thread from another.
    fn work<N: PoolName>(
        &self,
        rt: &R,
        alloc: Global,
        engine: &Engine<N>,
        pass: &mut Pass<N>,
    ) -> Self::Output
        requires engine { engine.now ≡ N.pool };
}

/// Opens an engine with a configuration as `parse_config` gives it, and has `user` use it. Where there is no memory for its index,
/// `user` is dropped unused.
pub fn use_engine<R, U: UseEngine<R> + Drop>(
    rt: &R,
    alloc: Global,
    config: &Config,
    user: U,
) -> Result<U::Output, Memory>
    requires valid { IsValid config.now }
{
    let blank = Blank::new(alloc, config)?;
    open_and_use::<Brand, R, U>(rt, alloc, config, blank, user)
}

/// Opens an engine with a configuration as `parse_config` gives it, has `user` work with it on as many threads as there are passes,
/// and closes it. It gives what the threads came to, by the numbers of their passes. Where no thread can be made they work one
/// after another.
pub fn share_engine<R: Threads + Sync, U: ShareEngine<R> + Sync>(
    rt: &R,
    alloc: Global,
    config: &Config,
    user: &U,
) -> Result<(Closed, Vec<U::Output>), Memory>
where
    U::Output: Send + Drop,
    requires valid { IsValid config.now }
    ensures outputs { IfOk result (λ used. length used.1.items ≡ config.now.passes) }
{
    let blank = Blank::new(alloc, config)?;
    open_and_share::<Brand, R, U>(rt, alloc, config, blank, user)
}

// Opens the engine over the words of the blank, whose pool is `N`'s.
fn open_and_use<N: PoolName, R, U: UseEngine<R> + Drop>(
    rt: &R,
    alloc: Global,
    config: &Config,
    blank: Blank,
    user: U,
) -> Result<U::Output, Memory>
    requires valid { IsValid config.now }
    requires made_with { blank.config ≡ config.now }
    requires named { blank ≡ N.pool }
{
    let (engine, passes) = Engine::<N>::open(alloc, config, blank)?;
    Ok(user.run(rt, alloc, engine, passes))
}

fn open_and_share<N: PoolName + Send + Sync, R: Threads + Sync, U: ShareEngine<R> + Sync>(
    rt: &R,
    alloc: Global,
    config: &Config,
    blank: Blank,
    user: &U,
) -> Result<(Closed, Vec<U::Output>), Memory>
where
    U::Output: Send + Drop,
    requires made_with { blank.config ≡ config.now }
    requires named { blank ≡ N.pool }
    ensures outputs { IfOk result (λ used. length used.1.items ≡ config.now.passes) }
{
    let (engine, passes) = Engine::<N>::open(alloc, config, blank)?;
    let mut outputs = Vec::with_capacity(alloc, passes.len())?;
    let worked = work_all(rt, alloc, &engine, passes, user)?;
    let mut passes = Vec::with_capacity(alloc, worked.len())?;
    for Worked { pass, output } in worked {
        passes.push(pass)?;
        outputs.push(output)?;
    }
    Ok((engine.close(passes), outputs))
}

// A pass after its thread's work, and what that came to.
#[derive(Drop)]
struct Worked<N: PoolName, T> {
    pass: Pass<N>,
    output: T,
}

// Has each pass worked with on a thread of its own.
fn work_all<N: PoolName + Send + Sync, R: Threads + Sync, U: ShareEngine<R> + Sync>(
    rt: &R,
    alloc: Global,
    engine: &Engine<N>,
    passes: Vec<Pass<N>>,
    user: &U,
) -> Result<Vec<Worked<N, U::Output>>, Memory>
where
    U::Output: Send + Drop,
    requires engine { engine.now ≡ N.pool }
    ensures each { IfOk result (λ worked. length worked.items ≡ length passes.items) }
{
    let worked = map_vec(
        rt,
        passes,
        &|pass: Pass<N>| -> Worked<N, U::Output> { work_with(rt, alloc, engine, pass, user) },
    )?;
    Ok(worked)
}

fn work_with<N: PoolName, R, U: ShareEngine<R>>(
    rt: &R,
    alloc: Global,
    engine: &Engine<N>,
    mut pass: Pass<N>,
    user: &U,
) -> Worked<N, U::Output>
    requires engine { engine.now ≡ N.pool }
{
    let output = user.work(rt, alloc, engine, &mut pass);
    Worked { pass, output }
}
