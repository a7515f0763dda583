//! What a test begins with: a desk with its pool, and two passes.
ghost use Rattle.std.specs.Prelude.{◌≡◌, ◌^◌, ◌≤◌, []};
ghost use Rattle.commit_desk.specs.Passes.{IsResting};
ghost use Rattle.commit_desk_tests.specs.Tested.{IsLayoutOfPool};
ghost use Rattle.funnel_model.specs.Configuration.{IsInRange};

use crate::caller::Caller;
use commit_desk::{Desk, Looks};
use funnel_model::{Commits, Config, Listed};
use row_layout::Layout;
use slice_rule::{PassSeat, Pool, PoolName};
use std::alloc::Global;
use std::marker::{Brand, Model, PhantomData};
use std::process::Abort;
use std::test::Fail;
use treatment::sizes;

/// The calls of a test by two passes, and what they give.
pub(crate) trait Case {
    type Seen;

    fn run<N: PoolName>(setting: &mut Setting<N>, passes: Two<N>) -> Result<Self::Seen, Fail>;
}

pub(crate) type Two<N> = (Caller<N>, Caller<N>);

/// A desk with its pool of one slice or two. Contracts see nothing of it.
#[derive(Drop)]
pub(crate) struct Setting<N: PoolName> {
    pub alloc: Global,
    pub base: Config,
    pub layout: Layout,
    pub pool: Pool,
    pub desk: Desk,
    pub looks: Looks,
    pub of: PhantomData<N>,
}

impl<N: PoolName> Model for Setting<N> {
    ghost use Rattle.commit_desk_tests.specs.Tested.{IsSetting};

    ghost Value = { Unit {0} };

    ghost view = { λ _. tt };

    ghost invariant = { λ s. IsSetting N.pool s.layout s.pool s.desk.pool s.base };
}

pub(crate) fn no_words(alloc: Global) -> Listed
    ensures { result ≡ [] }
{
    Listed::new(Vec::new(alloc))
}

/// Two passes and so many slices, the rest by default.
fn config(alloc: Global, slices: u32, blocks: u32, max_rank: u8) -> Config
    requires slices { 1 ≤ slices }
    requires few { slices ≤ 2 }
    requires some { 1 ≤ blocks }
    requires most { blocks ≤ 64 }
    requires rank { max_rank ≤ 6 }
    ensures in_range { IsInRange result }
    ensures passes { result.passes ≡ 2 }
    ensures slices { result.slices ≡ slices }
{
    Config {
        passes: 2,
        slices,
        blocks,
        max_rank,
        commits: 1024,
        reserve: 0,
        one_in: 10,
        snr: 10,
        documents: 1000,
        tail: 10,
        max_rows: 65536,
        private: 2,
        words: no_words(alloc),
    }
}

/// Makes the calls at a new desk of 64 columns with this limit of events, and closes it: what they give, and the commits.
pub(crate) fn run<C: Case, R: Abort>(
    rt: &R,
    alloc: Global,
    events_limit: u64,
) -> Result<(C::Seen, Commits), Fail>
    requires some { 1 ≤ events_limit }
    requires bounded { events_limit ≤ 2 ^ 62 }
{
    run_sized::<C, R>(rt, alloc, events_limit, 1, 1, 0)
}

/// The same at a desk of 8,192 columns.
pub(crate) fn run_wide<C: Case, R: Abort>(
    rt: &R,
    alloc: Global,
) -> Result<(C::Seen, Commits), Fail> {
    run_sized::<C, R>(rt, alloc, 1 << 62, 1, 64, 1)
}

/// The same at a desk of two slices of 64 columns.
pub(crate) fn run_two<C: Case, R: Abort>(
    rt: &R,
    alloc: Global,
) -> Result<(C::Seen, Commits), Fail> {
    run_sized::<C, R>(rt, alloc, 1 << 62, 2, 1, 0)
}

fn run_sized<C: Case, R: Abort>(
    rt: &R,
    alloc: Global,
    events_limit: u64,
    slices: u32,
    blocks: u32,
    max_rank: u8,
) -> Result<(C::Seen, Commits), Fail>
    requires some { 1 ≤ events_limit }
    requires bounded { events_limit ≤ 2 ^ 62 }
    requires slices { 1 ≤ slices }
    requires few { slices ≤ 2 }
    requires blocks { 1 ≤ blocks }
    requires most { blocks ≤ 64 }
    requires rank { max_rank ≤ 6 }
{
    let config = config(alloc, slices, blocks, max_rank);
    if sizes(&config).pool_words > 33_554_432 {
        return Err(Fail::new("the pool is too large"));
    }
    let layout = Layout::new(alloc, &config)?;
    let (_, slice_words) = layout.slice_range(0);
    if slice_words == 0 || layout.columns() == 0 {
        return Err(Fail::new("a slice has words and columns"));
    }
    let (pool, home, mut passes) = Pool::new(alloc, &config, slice_words).expect(rt, "a pool");
    let second = passes.pop().expect(rt, "two passes");
    let first = passes.pop().expect(rt, "two passes");
    let own = Layout::new(alloc, &config)?;
    let made = Desk::new(alloc, &config, home, events_limit, own).expect(rt, "a desk");
    run_named::<C, Brand>(alloc, config, layout, pool, made, (first, second))
}

fn run_named<C: Case, N: PoolName>(
    alloc: Global,
    base: Config,
    layout: Layout,
    pool: Pool,
    made: (Desk, Looks),
    seats: (PassSeat, PassSeat),
) -> Result<(C::Seen, Commits), Fail>
    requires named { pool ≡ N.pool }
    requires laid { IsLayoutOfPool layout pool }
    requires desk { made.0.pool ≡ pool }
    requires base { base ≡ pool.config }
    requires in_range { IsInRange base }
    requires first { IsResting pool seats.0 }
    requires second { IsResting pool seats.1 }
{
    let of = PhantomData::<N>;
    let (desk, looks) = made;
    let (first, second) = seats;
    let mut setting = Setting {
        alloc,
        base,
        layout,
        pool,
        desk,
        looks,
        of,
    };
    let first = Caller { seat: first, of };
    let second = Caller { seat: second, of };
    let seen = C::run(&mut setting, (first, second));
    let commits = setting.into_commits();
    Ok((seen?, commits))
}
