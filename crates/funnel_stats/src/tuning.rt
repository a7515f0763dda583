ghost use Rattle.std.specs.Prelude.{◌≡◌, Ok, IfOk, MatchResult};
ghost use Rattle.funnel_model.specs.Configuration.{IsInRange, IsTuning, with_statistics};
ghost use Rattle.serde_json.specs.View.{members_view};
ghost use Rattle.funnel_stats.specs.Configurations.{config_of};
ghost use Rattle.funnel_stats.specs.Reading.{IsFaultOfBytes};
ghost use Rattle.funnel_stats.specs.Steps.{GivesOrFaults};
ghost use Rattle.funnel_stats.specs.Tunings.{tuning, tuning_fault};

use crate::fault::ConfigFault;
use crate::key::STATISTIC_KEYS;
use crate::object::{check_keys, read_object};
use crate::values::read_values;
use funnel_model::Config;
use serde_json::{Map, Value};
use std::alloc::Global;

/// What the text is as a tuning of an engine that was opened with `base`: its statistics, and all else of `base`. The text
/// is a JSON object, or empty, which stands for the object without keys. A key that it leaves out has its default, and not
/// the value of `base`; a key that is none of the statistics is unknown. The faults are those with the numbers 3 to 7, and want
/// of memory. Whether a slice of `base` has room for the rows isn't asked here.
pub fn read_tuning(alloc: Global, text: &str, base: &Config) -> Result<Config, ConfigFault>
    ensures answer { MatchResult result (λ config. tuning base.now text.now ≡ Ok config)
        (λ fault. IsFaultOfBytes fault (tuning base.now text.now)) }
    ensures tuning { IsInRange base.now → IfOk result (IsTuning base.now) }
{
    let object = read_object(alloc, text.as_bytes())?;
    tuning_from(alloc, &object, base)
}

/// The tuning that an object gives, or its first fault.
fn tuning_from(
    alloc: Global,
    object: &Map<String, Value>,
    base: &Config,
) -> Result<Config, ConfigFault>
    ensures answer { let members = members_view object.now.entries in
        GivesOrFaults result (with_statistics base.now (config_of members)) (tuning_fault members) }
    ensures tuning { IsInRange base.now → IfOk result (IsTuning base.now) }
{
    check_keys(alloc, object, &STATISTIC_KEYS)?;
    let statistics = read_values(alloc, object)?;
    Ok(with_statistics(base, statistics))
}

/// The first configuration with the statistics of the second.
fn with_statistics(base: &Config, statistics: Config) -> Config
    ensures { result ≡ with_statistics base.now statistics }
{
    Config {
        passes: base.passes,
        slices: base.slices,
        blocks: base.blocks,
        max_rank: base.max_rank,
        commits: base.commits,
        reserve: base.reserve,
        ..statistics
    }
}
