ghost use Rattle.std.specs.Prelude.{◌≡◌, ◌^◌, length};

use crate::desk::Desk;
use crate::look::Looks;
use slice_rule::PoolName;
use std::marker::PhantomData;

/// The desk of the pool that `N` names, with the engine's limit of events, and the open look of each of its passes: what an engine's lock
/// holds.
#[derive(Drop)]
pub struct Named<N: PoolName> {
    pub desk: Desk,
    pub looks: Looks,
    pub of: PhantomData<N>,
    pub ghost of_pool: { desk.pool ≡ N.pool },
    pub ghost limit: { desk.events_limit ≡ 2 ^ 62 },
    pub ghost pool_limit: { desk.pool.limits.events ≡ 2 ^ 62 },
    pub ghost each_pass: { length looks ≡ desk.pool.limits.passes },
}
