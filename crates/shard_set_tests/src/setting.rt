//! Sets to be tested.
ghost use Rattle.std.specs.Prelude.{◌≡◌, ◌<◌, ◌≤◌, IfOk, vec_len};
ghost use Rattle.std.specs.List.{All};
ghost use Rattle.funnel_model.specs.Configuration.{IsValid};

use engine::{Config, ConfigFault, parse_config};
use shard_set::ShardSet;
use std::alloc::Global;

/// An empty set of two shards with these keys.
pub(crate) fn open_two(
    alloc: Global,
    first: &[u8],
    second: &[u8],
) -> Result<ShardSet, ConfigFault> {
    let first = parse_config(alloc, first)?;
    let second = parse_config(alloc, second)?;
    let mut configs = Vec::with_capacity(alloc, 2)?;
    configs.push_reserved(first);
    configs.push_reserved(second);
    open_all(alloc, configs)
}

/// An empty set of so many shards with these keys.
pub(crate) fn open_alike(alloc: Global, shards: usize, keys: &[u8]) -> Result<ShardSet, ConfigFault>
    requires some { 0 < shards }
    requires few { shards ≤ 8 }
{
    let configs = alike(alloc, shards, keys)?;
    open_all(alloc, configs)
}

fn alike(alloc: Global, shards: usize, keys: &[u8]) -> Result<Vec<Config>, ConfigFault>
    ensures count { IfOk result (λ configs. vec_len configs ≡ shards) }
    ensures valid { IfOk result (λ configs. All IsValid configs.items) }
{
    let mut configs = Vec::new(alloc);
    for _ in 0..shards {
        let config = parse_config(alloc, keys)?;
        let Ok(()) = configs.push(config) else {
            return Err(ConfigFault::Memory);
        };
    }
    Ok(configs)
}

fn open_all(alloc: Global, configs: Vec<Config>) -> Result<ShardSet, ConfigFault>
    requires some { 0 < vec_len configs }
    requires few { vec_len configs ≤ 8 }
    requires valid { All IsValid configs.items }
{
    let Ok(set) = ShardSet::open(alloc, configs) else {
        return Err(ConfigFault::Memory);
    };
    Ok(set)
}
