ghost use Rattle.std.specs.Prelude.{IfOk, All};
ghost use Rattle.funnel_model.specs.Configuration.{IsInRange, IsWord};
ghost use Rattle.funnel_model.specs.Listed.{IsInByteOrder};
ghost use Rattle.serde_json.specs.View.{members_view};
ghost use Rattle.funnel_stats.specs.Configurations.{config_of, value_fault};
ghost use Rattle.funnel_stats.specs.Steps.{GivesOrFaults};

use crate::fault::ConfigFault;
use crate::listing::list_words;
use crate::numbers::read_numbers;
use funnel_model::Config;
use serde_json::{Map, Value};
use std::alloc::Global;

/// The configuration with the values that an object gives, however large it is.
pub fn read_values(alloc: Global, object: &Map<String, Value>) -> Result<Config, ConfigFault>
    ensures answer { let members = members_view object.now.entries in
        GivesOrFaults result (config_of members) (value_fault members) }
    ensures range { IfOk result IsInRange }
    ensures ordered { IfOk result (λ config. IsInByteOrder config.words) }
    ensures folded { IfOk result (λ config. All (λ entry. IsWord entry.0) config.words) }
{
    let mut config = read_numbers(alloc, object)?;
    config.words = list_words(alloc, object, config.documents)?;
    Ok(config)
}
