//! What a test begins with: an engine, and its passes.
ghost use Rattle.std.specs.Prelude.{◌≡◌, IfOk, []};
ghost use Rattle.funnel_model.specs.Configuration.{IsBetween, IsInRange, IsValid};

use crate::caller::Caller;
use engine::{Blank, Engine, Pass, PoolName};
use funnel_model::{Config, Listed, Memory};
use std::alloc::Global;
use std::marker::Brand;
use std::process::Abort;
use std::sync::Wait;
use treatment::sizes;

/// Calls of the passes of an engine on one thread.
pub(crate) trait Case {
    /// Whether they are answered as they have to be. The last pass is apart from the others.
    fn holds<N: PoolName, R: Wait>(
        &self,
        caller: &mut Caller<'_, N, R>,
        others: &mut Vec<Caller<'_, N, R>>,
    ) -> bool;
}

pub(crate) fn no_words(alloc: Global) -> Listed
    ensures { result ≡ [] }
{
    Listed::new(Vec::new(alloc))
}

/// Without listed words, the rest by default.
pub(crate) fn config(alloc: Global, passes: u32, slices: u32, blocks: u32, commits: u64) -> Config
    requires passes { IsBetween 1 64 passes }
    requires slices { IsBetween 1 1024 slices }
    requires blocks { IsBetween 1 64 blocks }
    requires commits { IsBetween 1 16777216 commits }
    ensures in_range { IsInRange result }
    ensures no_words { result.words ≡ [] }
    ensures passes { result.passes ≡ passes }
{
    Config {
        passes,
        slices,
        blocks,
        max_rank: 0,
        commits,
        reserve: 0,
        one_in: 10,
        snr: 10,
        documents: 1000,
        tail: 10,
        max_rows: 65536,
        private: 2,
        words: no_words(alloc),
    }
}

/// Two passes and two slices, and one row of each rank up to 6.
pub(crate) fn few_rows(alloc: Global) -> Config
    ensures in_range { IsInRange result }
    ensures no_words { result.words ≡ [] }
{
    let mut config = config(alloc, 2, 2, 1, 1024);
    config.max_rank = 6;
    config.max_rows = 1;
    config
}

/// The words of an engine with this configuration, where it isn't too large.
pub(crate) fn blank(alloc: Global, config: &Config) -> Result<Blank, Memory>
    requires in_range { IsInRange config.now }
    requires no_words { config.now.words ≡ [] }
    ensures made_with { IfOk result (λ blank. blank.config ≡ config.now) }
    ensures valid { IfOk result (λ _. IsValid config.now) }
{
    let sizes = sizes(config);
    if sizes.columns > 4_194_304 || sizes.pool_words > 33_554_432 {
        return Err(Memory);
    }
    Blank::new(alloc, config)
}

/// Expects a case to hold at a new engine with this configuration.
pub(crate) fn expect<C: Case, R: Wait + Abort>(rt: &R, alloc: Global, config: Config, case: &C)
    requires in_range { IsInRange config }
    requires no_words { config.words ≡ [] }
{
    assert!(rt; matches!(holds(rt, alloc, config, case), Ok(true)));
}

/// Expects it to hold at one with two passes, and one slice of 64 columns.
pub(crate) fn expect_in_a_slice<C: Case, R: Wait + Abort>(rt: &R, alloc: Global, case: &C) {
    expect(rt, alloc, config(alloc, 2, 1, 1, 1024), case)
}

fn holds<C: Case, R: Wait>(rt: &R, alloc: Global, config: Config, case: &C) -> Result<bool, Memory>
    requires in_range { IsInRange config }
    requires no_words { config.words ≡ [] }
{
    let blank = blank(alloc, &config)?;
    open_and_call::<C, Brand, _>(rt, alloc, &config, blank, case)
}

fn open_and_call<C: Case, N: PoolName, R: Wait>(
    rt: &R,
    alloc: Global,
    config: &Config,
    blank: Blank,
    case: &C,
) -> Result<bool, Memory>
    requires made_with { blank.config ≡ config.now }
    requires named { blank ≡ N.pool }
{
    let (engine, passes) = Engine::<N>::open(alloc, config, blank)?;
    call_with(rt, alloc, &engine, passes, case)
}

fn call_with<C: Case, N: PoolName, R: Wait>(
    rt: &R,
    alloc: Global,
    engine: &Engine<N>,
    passes: Vec<Pass<N>>,
    case: &C,
) -> Result<bool, Memory> {
    let mut others = callers(rt, alloc, engine, passes)?;
    let Some(mut caller) = others.pop() else {
        return Ok(false);
    };
    Ok(case.holds(&mut caller, &mut others))
}

/// The passes, with their calls.
pub(crate) fn callers<'e, N: PoolName, R: Wait>(
    rt: &'e R,
    alloc: Global,
    engine: &'e Engine<N>,
    passes: Vec<Pass<N>>,
) -> Result<Vec<Caller<'e, N, R>>, Memory> {
    let mut callers = Vec::new(alloc);
    for pass in passes {
        callers.push(Caller {
            engine,
            pass,
            rt,
            alloc,
        })?;
    }
    Ok(callers)
}
