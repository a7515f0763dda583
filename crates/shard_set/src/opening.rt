//! The shards of a set, from their configurations to what is left of them.
ghost use Rattle.std.specs.Prelude.{◌≡◌, ◌≤◌, [], IfOk, length, vec_capacity};
ghost use Rattle.std.specs.List.{All, AllZip};
ghost use Rattle.funnel_model.specs.Configuration.{IsValid};
ghost use Rattle.shard_set.specs.Opening.{IsLeftOf, IsOpened};

use engine::{Closed, Solo};
use funnel_model::{Config, Memory};
use std::alloc::Global;

// An empty shard of each configuration.
pub(crate) fn open_each(alloc: Global, configs: Vec<Config>) -> Result<Vec<Solo>, Memory>
    requires valid { All IsValid configs.items }
    ensures opened { IfOk result (λ shards. AllZip IsOpened configs.items shards.items) }
{
    let mut shards = Vec::with_capacity(alloc, configs.len())?;
    for config in configs {
        shards.push_reserved(Solo::open(alloc, config)?);
    }
    Ok(shards)
}

// What is left of each shard, in the room for it.
pub(crate) fn close_each(shards: Vec<Solo>, mut left: Vec<Closed>) -> Vec<Closed>
    requires none { left.items ≡ [] }
    requires room { length shards.items ≤ vec_capacity left }
    ensures { AllZip IsLeftOf shards.items result.items }
{
    for shard in shards {
        left.push_reserved(shard.close());
    }
    left
}
