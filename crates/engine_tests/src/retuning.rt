//! Engines that get new statistics while they serve.
ghost use Rattle.std.specs.Prelude.{◌≡◌, ◌≤◌, []};
ghost use Rattle.funnel_model.specs.Configuration.{IsInRange, IsTuning};

use crate::caller::Caller;
use crate::setting::{blank, config, no_words};
use crate::steps::{Step, plays};
use engine::{Blank, Engine, Pass, PoolName, Recycled, TuneFault};
use funnel_model::{Config, Memory};
use std::alloc::Global;
use std::marker::{Brand, Model, PhantomData};
use std::process::Abort;
use std::sync::Wait;
use std::sync::atomic::{AtomicU64, Ordering};
use std::test::*;
use std::thread::{Threads, map_vec};

/// Statistics that the engine of the pool that `N` names can be given. Contracts see the configuration.
#[derive(Drop)]
struct Statistics<N: PoolName> {
    config: Config,
    of: PhantomData<N>,
}

impl<N: PoolName> Model for Statistics<N> {
    ghost use Rattle.funnel_model.specs.Configuration.{IsTuning};
    ghost use Rattle.funnel_model.specs.declared.config.Config.{Config};

    ghost Value = { Config };

    ghost view = { λ s. s.config };

    ghost invariant = { λ s. IsTuning N.pool.config s.config };
}

/// The configuration, but that a document has so many unlisted words.
fn by_tail(alloc: Global, opening: &Config, tail: u64) -> Config
    requires in_range { IsInRange opening.now }
    requires tail { tail ≤ 20 }
    ensures { IsTuning opening.now result }
{
    Config {
        passes: opening.passes,
        slices: opening.slices,
        blocks: opening.blocks,
        max_rank: opening.max_rank,
        commits: opening.commits,
        reserve: opening.reserve,
        one_in: opening.one_in,
        snr: opening.snr,
        documents: opening.documents,
        tail,
        max_rows: opening.max_rows,
        private: opening.private,
        words: no_words(alloc),
    }
}

/// The same as statistics of the engine.
fn with_tail<N: PoolName>(alloc: Global, opening: &Config, tail: u64) -> Statistics<N>
    requires opening { N.pool.config ≡ opening.now }
    requires in_range { IsInRange opening.now }
    requires tail { tail ≤ 20 }
{
    let config = by_tail(alloc, opening, tail);
    let of = PhantomData;
    let statistics = Statistics { config, of };
    statistics
}

/// A tuning by a pass.
fn retune<N: PoolName, R: Wait>(
    caller: &mut Caller<'_, N, R>,
    statistics: &Statistics<N>,
) -> Result<u64, TuneFault> {
    caller.engine.retune(
        caller.rt,
        caller.alloc,
        &mut caller.pass,
        &statistics.config,
    )
}

/// Documents in both slices.
static FILLED: [Step; 1] = [Step::AddAll((1, 66), 0)];

/// The first slice is rid of its documents, cleared, and gets another one. A find has the last document of the second slice and the one
/// of the first, in the order of their adds.
static USED_AGAIN: [Step; 5] = [
    Step::DeleteAll((1, 65), 65),
    Step::Recycle(Recycled::Done(0)),
    Step::Add(500, "x", Ok(130)),
    Step::Find("x", &[65, 500]),
    Step::Find("y", &[]),
];

static FOUND: [Step; 2] = [Step::Find("x", &[65, 500]), Step::Find("y", &[])];

/// What a pass does while the engine gets new statistics.
trait Tuning {
    /// Whether it is answered as it has to be. The statistics are for 1 to 20 unlisted words.
    fn holds<N: PoolName, R: Wait>(
        &self,
        caller: &mut Caller<'_, N, R>,
        statistics: &[Statistics<N>],
    ) -> bool;
}

/// Has two passes of a new engine do this, each on a thread of its own, and expects both to be answered as they have to be.
fn expect_tuned<R: Threads + Wait + Abort + Sync, T: Tuning + Sync>(
    rt: &R,
    alloc: Global,
    config: Config,
    tuning: &T,
)
    requires in_range { IsInRange config }
    requires no_words { config.words ≡ [] }
{
    assert!(rt; matches!(tune_beside(rt, alloc, config, tuning), Ok(2)));
}

/// How many passes are answered so.
fn tune_beside<R: Threads + Wait + Sync, T: Tuning + Sync>(
    rt: &R,
    alloc: Global,
    config: Config,
    tuning: &T,
) -> Result<u64, Memory>
    requires in_range { IsInRange config }
    requires no_words { config.words ≡ [] }
{
    let blank = blank(alloc, &config)?;
    open_and_tune::<Brand, _, _>(rt, alloc, &config, blank, tuning)
}

fn open_and_tune<N: PoolName + Send + Sync, R: Threads + Wait + Sync, T: Tuning + Sync>(
    rt: &R,
    alloc: Global,
    config: &Config,
    blank: Blank,
    tuning: &T,
) -> Result<u64, Memory>
    requires made_with { blank.config ≡ config.now }
    requires named { blank ≡ N.pool }
    requires in_range { IsInRange config.now }
{
    let statistics = tails::<N>(alloc, config)?;
    let (engine, passes) = Engine::<N>::open(alloc, config, blank)?;
    work_all(rt, alloc, &engine, passes, statistics.as_slice(), tuning)
}

/// Statistics for 1 to 20 unlisted words.
fn tails<N: PoolName>(alloc: Global, config: &Config) -> Result<Vec<Statistics<N>>, Memory>
    requires opening { N.pool.config ≡ config.now }
    requires in_range { IsInRange config.now }
{
    let mut all = Vec::new(alloc);
    for tail in 1..21 {
        all.push(with_tail(alloc, config, tail))?;
    }
    Ok(all)
}

fn work_all<N: PoolName + Send + Sync, R: Threads + Wait + Sync, T: Tuning + Sync>(
    rt: &R,
    alloc: Global,
    engine: &Engine<N>,
    passes: Vec<Pass<N>>,
    statistics: &[Statistics<N>],
    tuning: &T,
) -> Result<u64, Memory> {
    let right = AtomicU64::new(0);
    map_vec(
        rt,
        passes,
        &|pass: Pass<N>| -> Pass<N> {
            work_with(rt, alloc, engine, pass, statistics, tuning, &right)
        },
    )?;
    Ok(right.load(Ordering::SeqCst))
}

fn work_with<N: PoolName, R: Wait, T: Tuning>(
    rt: &R,
    alloc: Global,
    engine: &Engine<N>,
    pass: Pass<N>,
    statistics: &[Statistics<N>],
    tuning: &T,
    right: &AtomicU64,
) -> Pass<N> {
    let mut caller = Caller {
        engine,
        pass,
        rt,
        alloc,
    };
    if tuning.holds(&mut caller, statistics) {
        right.fetch_add(1, Ordering::SeqCst);
    }
    caller.pass
}

/// A slice that was cleared after a tuning has the new treatment, and the other one the opening one. A find has the documents of both.
/// Statistics whose rows don't fit into the slices are refused.
#[test]
fn documents_of_two_treatments_are_found(rt: HostRuntime) {
    expect_tuned(
        &rt,
        rt.alloc(),
        config(rt.alloc(), 2, 2, 1, 1024),
        &TwoTreatments,
    )
}

/// What the first pass does alone.
struct TwoTreatments;

impl Tuning for TwoTreatments {
    fn holds<N: PoolName, R: Wait>(
        &self,
        caller: &mut Caller<'_, N, R>,
        statistics: &[Statistics<N>],
    ) -> bool {
        match statistics {
            [least, _, _, _, fewer, .., wide] => {
                caller.number() != 0 || are_two_treatments(caller, wide, fewer, least)
            }
            _ => false,
        }
    }
}

fn are_two_treatments<N: PoolName, R: Wait>(
    caller: &mut Caller<'_, N, R>,
    wide: &Statistics<N>,
    fewer: &Statistics<N>,
    least: &Statistics<N>,
) -> bool {
    is_wide(caller, wide)
        && plays(caller, &FILLED)
        && retune(caller, fewer) == Ok(1)
        && plays(caller, &USED_AGAIN)
        && retune(caller, least) == Ok(2)
        && plays(caller, &FOUND)
}

/// Whether these rows are told to be too many.
fn is_wide<N: PoolName, R: Wait>(
    caller: &mut Caller<'_, N, R>,
    statistics: &Statistics<N>,
) -> bool {
    let (needed, room) = (1200, 600);
    retune(caller, statistics) == Err(TuneFault::Wide { needed, room })
}

/// Two threads add, find, delete and recycle in ten rounds. After each of its rounds the first gives the engine new statistics. Each
/// finds just the documents that it has itself, which a plain range of numbers tells.
#[test]
fn finds_are_the_same_beside_ten_tunings(rt: HostRuntime) {
    expect_tuned(
        &rt,
        rt.alloc(),
        config(rt.alloc(), 2, 16, 1, 4096),
        &TenTunings,
    )
}

struct TenTunings;

impl Tuning for TenTunings {
    fn holds<N: PoolName, R: Wait>(
        &self,
        caller: &mut Caller<'_, N, R>,
        statistics: &[Statistics<N>],
    ) -> bool {
        work(caller, statistics)
    }
}

/// The ten rounds of a pass. Whether all was answered as it has to be.
fn work<N: PoolName, R: Wait>(caller: &mut Caller<'_, N, R>, statistics: &[Statistics<N>]) -> bool {
    let tunes = caller.number() == 0;
    let mut as_wanted = true;
    let mut rounds = 0;
    for new in statistics.iter().take(10) {
        as_wanted = as_wanted && goes_round(caller, rounds);
        rounds = u64::saturating_add(rounds, 1);
        as_wanted = as_wanted && (!tunes || is_tuned(caller, new, rounds));
    }
    as_wanted && rounds == 10
}

/// Whether a tuning is the one of this number, and the pass finds what it has after as many rounds.
fn is_tuned<N: PoolName, R: Wait>(
    caller: &mut Caller<'_, N, R>,
    statistics: &Statistics<N>,
    rounds: u64,
) -> bool {
    retune(caller, statistics) == Ok(rounds) && finds_own(caller, own(caller.number(), rounds))
}

/// Which documents a pass has after so many rounds: the numbers from the first up to the second.
fn own(pass: u32, rounds: u64) -> (u64, u64) {
    let first = 1000 * u64::from(pass);
    let (deleted, added) = (rounds.saturating_mul(20), rounds.saturating_mul(30));
    (first.saturating_add(deleted), first.saturating_add(added))
}

/// The word of the documents of a pass.
fn own_word(pass: u32) -> &'static str {
    if pass == 0 { "zero" } else { "one" }
}

fn finds_own<N: PoolName, R: Wait>(caller: &mut Caller<'_, N, R>, range: (u64, u64)) -> bool {
    caller.finds(own_word(caller.number()), range)
}

/// The round after so many: the pass adds 30, deletes its 20 oldest, and recycles a slice where one is retired. Whether it finds what
/// it has.
fn goes_round<N: PoolName, R: Wait>(caller: &mut Caller<'_, N, R>, rounds: u64) -> bool {
    let (low, next) = own(caller.number(), rounds);
    let (oldest, end) = own(caller.number(), rounds.saturating_add(1));
    let added = add_own(caller, next, end) && finds_own(caller, (low, end));
    let deleted = added && delete_own(caller, low, oldest);
    caller.recycle();
    deleted && finds_own(caller, (oldest, end))
}

fn add_own<N: PoolName, R: Wait>(caller: &mut Caller<'_, N, R>, next: u64, end: u64) -> bool {
    let word = own_word(caller.number());
    let mut as_wanted = true;
    for id in next..end {
        as_wanted = as_wanted && caller.add(id, word).is_ok();
    }
    as_wanted
}

fn delete_own<N: PoolName, R: Wait>(caller: &mut Caller<'_, N, R>, low: u64, oldest: u64) -> bool {
    let mut as_wanted = true;
    for id in low..oldest {
        as_wanted = as_wanted && caller.delete(id).is_ok();
    }
    as_wanted
}
