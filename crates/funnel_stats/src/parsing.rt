ghost use Rattle.std.specs.Prelude.{◌≡◌, ◌≤◌, ◌⊎◌, [], ◌∷◌, Ok, Err, IfOk, MatchResult, length};
ghost use Rattle.funnel_model.specs.Configuration.{IsValid, IsInRange};
ghost use Rattle.serde_json.specs.View.{members_view};
ghost use Rattle.funnel_stats.specs.declared.fault.ConfigFault.TheVariants.{Memory};
ghost use Rattle.funnel_stats.specs.Configurations.{configuration, config_of, fault_of, first_of, longest};
ghost use Rattle.funnel_stats.specs.Faults.{too_many_columns, pool_too_large};
ghost use Rattle.funnel_stats.specs.Reading.{IsFaultOfBytes};
ghost use Rattle.funnel_stats.specs.Steps.{Checks, GivesOrFaults};

use crate::fault::ConfigFault;
use crate::key::KEYS;
use crate::object::{check_keys, read_object};
use crate::reading::LONGEST;
use crate::values::read_values;
use funnel_model::{Config, MOST_COLUMNS, MOST_ROW_WORDS};
use serde_json::{Map, Value};
use std::alloc::Global;
use treatment::sizes;

/// What the bytes are as a configuration: a valid one, with the defaults of the keys that they leave out, or the first fault
/// that applies. None of the faults is that of a read.
pub fn parse_config(alloc: Global, bytes: &[u8]) -> Result<Config, ConfigFault>
    ensures answer { MatchResult result (λ config. configuration bytes.now ≡ Ok config)
        (λ fault. (fault ≡ Memory) ⊎ (configuration bytes.now ≡ Err fault)) }
    ensures valid { IfOk result IsValid }
{
    if bytes.len() > LONGEST {
        return Err(ConfigFault::TooLong(LONGEST as u64));
    }
    parse(alloc, bytes)
}

/// The same of bytes that are not too many.
pub fn parse(alloc: Global, bytes: &[u8]) -> Result<Config, ConfigFault>
    requires { length bytes.now ≤ longest }
    ensures answer { MatchResult result (λ config. configuration bytes.now ≡ Ok config)
        (λ fault. IsFaultOfBytes fault (configuration bytes.now)) }
    ensures valid { IfOk result IsValid }
{
    let object = read_object(alloc, bytes)?;
    config_from(alloc, &object)
}

/// The configuration that an object gives, or its first fault.
fn config_from(alloc: Global, object: &Map<String, Value>) -> Result<Config, ConfigFault>
    ensures answer { let members = members_view object.now.entries in GivesOrFaults result (config_of members) (fault_of members) }
    ensures valid { IfOk result IsValid }
{
    check_keys(alloc, object, &KEYS)?;
    let config = read_values(alloc, object)?;
    check_sizes(&config)?;
    Ok(config)
}

/// Whether the columns and the pool are within their limits.
fn check_sizes(config: &Config) -> Result<(), ConfigFault>
    requires { IsInRange config.now }
    ensures { Checks result (first_of (too_many_columns config.now ∷ pool_too_large config.now ∷ [])) }
{
    let sizes = sizes(config);
    if sizes.columns > MOST_COLUMNS {
        return Err(ConfigFault::TooManyColumns(sizes.columns));
    }
    if sizes.pool_words > MOST_ROW_WORDS {
        return Err(ConfigFault::PoolTooLarge(sizes.pool_words));
    }
    Ok(())
}
