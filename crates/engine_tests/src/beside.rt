//! Threads that use one engine beside each other.
ghost use Rattle.std.specs.Prelude.{◌≡◌, []};
ghost use Rattle.funnel_model.specs.Configuration.{IsInRange};

use crate::caller::Caller;
use crate::setting::blank;
use engine::{Blank, Closed, Engine, Pass, PoolName};
use funnel_model::{Config, Memory};
use std::alloc::Global;
use std::marker::Brand;
use std::process::Abort;
use std::sync::Wait;
use std::thread::{Threads, map_vec};

/// What threads do, each with a pass of one engine.
pub(crate) trait Task {
    fn work<N: PoolName, R: Wait>(&self, caller: &mut Caller<'_, N, R>);

    /// Whether all were answered as they have to be, where this is left of the engine.
    fn is_right<R: Wait>(&self, rt: &R, alloc: Global, closed: &Closed) -> bool;
}

/// Does the task on as many threads as a new engine has passes, and closes the engine when all are through. Expects all to be right.
pub(crate) fn expect_beside<R: Threads + Wait + Abort + Sync, T: Task + Sync>(
    rt: &R,
    alloc: Global,
    config: Config,
    task: &T,
)
    requires in_range { IsInRange config }
    requires no_words { config.words ≡ [] }
{
    let is_right = match work_beside(rt, alloc, config, task) {
        Ok(closed) => task.is_right(rt, alloc, &closed),
        Err(_) => false,
    };
    assert!(rt; is_right);
}

fn work_beside<R: Threads + Wait + Sync, T: Task + Sync>(
    rt: &R,
    alloc: Global,
    config: Config,
    task: &T,
) -> Result<Closed, Memory>
    requires in_range { IsInRange config }
    requires no_words { config.words ≡ [] }
{
    let blank = blank(alloc, &config)?;
    open_and_work::<Brand, _, _>(rt, alloc, &config, blank, task)
}

fn open_and_work<N: PoolName + Send + Sync, R: Threads + Wait + Sync, T: Task + Sync>(
    rt: &R,
    alloc: Global,
    config: &Config,
    blank: Blank,
    task: &T,
) -> Result<Closed, Memory>
    requires made_with { blank.config ≡ config.now }
    requires named { blank ≡ N.pool }
{
    let (engine, passes) = Engine::<N>::open(alloc, config, blank)?;
    let passes = work_all(rt, alloc, &engine, passes, task)?;
    Ok(engine.close(passes))
}

fn work_all<N: PoolName + Send + Sync, R: Threads + Wait + Sync, T: Task + Sync>(
    rt: &R,
    alloc: Global,
    engine: &Engine<N>,
    passes: Vec<Pass<N>>,
    task: &T,
) -> Result<Vec<Pass<N>>, Memory> {
    let passes = map_vec(
        rt,
        passes,
        &|pass: Pass<N>| -> Pass<N> { work_with(rt, alloc, engine, pass, task) },
    )?;
    Ok(passes)
}

fn work_with<N: PoolName, R: Wait, T: Task>(
    rt: &R,
    alloc: Global,
    engine: &Engine<N>,
    pass: Pass<N>,
    task: &T,
) -> Pass<N> {
    let mut caller = Caller {
        engine,
        pass,
        rt,
        alloc,
    };
    task.work(&mut caller);
    caller.pass
}
