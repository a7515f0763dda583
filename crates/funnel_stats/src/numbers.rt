ghost use Rattle.std.specs.Prelude.{◌≡◌, ◌≤◌, [], IfOk, OnOk, Some, length, map, option_map, unwrap_or};
ghost use Rattle.funnel_model.specs.Configuration.{IsInRange};
ghost use Rattle.serde_json.specs.View.{view, members_view};
ghost use Rattle.funnel_stats.specs.Configurations.{config_of, first_of};
ghost use Rattle.funnel_stats.specs.Faults.{bad_value};
ghost use Rattle.funnel_stats.specs.Keys.{keys, range_of};
ghost use Rattle.funnel_stats.specs.Steps.{GivesOrFaults};
ghost use Rattle.funnel_stats.specs.Values.{listed_at, misfit_of_value, number_at, quantity};
ghost use Rattle.funnel_stats.specs.declared.fault.ConfigFault.TheVariants.{BadValue};

use crate::fault::ConfigFault;
use crate::kept::Kept;
use crate::key::Key;
use crate::listing::no_words;
use crate::object::value_of;
use funnel_model::{Config, MOST_WORDS};
use serde_json::{Map, Value};
use std::alloc::Global;

/// The configuration with the numbers that an object gives, and with no words yet.
pub fn read_numbers(alloc: Global, object: &Map<String, Value>) -> Result<Config, ConfigFault>
    ensures answer { let members = members_view object.now.entries in
        GivesOrFaults result (record (config_of members) { words = [] }) (first_of (map (bad_value members) keys)) }
    ensures range { IfOk result IsInRange }
    ensures few { OnOk result (length (listed_at (members_view object.now.entries)) ≤ MOST_WORDS) }
{
    let passes = number_of(object, Key::Passes)? as u32;
    let slices = number_of(object, Key::Slices)? as u32;
    let blocks = number_of(object, Key::Blocks)? as u32;
    let max_rank = number_of(object, Key::MaxRank)? as u8;
    let commits = number_of(object, Key::Commits)?;
    let reserve = number_of(object, Key::Reserve)? as u32;
    let one_in = number_of(object, Key::OneIn)?;
    let snr = number_of(object, Key::Snr)?;
    let documents = number_of(object, Key::Documents)?;
    let tail = number_of(object, Key::Tail)?;
    let max_rows = number_of(object, Key::MaxRows)? as u32;
    let private = number_of(object, Key::Private)? as u8;
    let _count = number_of(object, Key::Words)?;
    Ok(Config {
        passes,
        slices,
        blocks,
        max_rank,
        commits,
        reserve,
        one_in,
        snr,
        documents,
        tail,
        max_rows,
        private,
        words: no_words(alloc),
    })
}

/// The number of a key, which is its default where the object leaves it out.
fn number_of(object: &Map<String, Value>, key: Key) -> Result<u64, ConfigFault>
    ensures answer { let members = members_view object.now.entries in
        GivesOrFaults result (number_at members key) (bad_value members key) }
    ensures low { IfOk result (λ n. (range_of key).least ≤ n) }
    ensures high { IfOk result (λ n. n ≤ (range_of key).greatest) }
{
    match value_of(object, key) {
        Some(value) => within_limits(key, quantity_of(key, value)),
        None => Ok(key.limits().default),
    }
}

/// The number, where the key takes it.
fn within_limits(key: Key, number: Option<u64>) -> Result<u64, ConfigFault>
    ensures answer { GivesOrFaults result (unwrap_or number 0) (option_map (BadValue key) (misfit_of_value key number)) }
    ensures number { IfOk result (λ n. number ≡ Some n) }
    ensures low { IfOk result (λ n. (range_of key).least ≤ n) }
    ensures high { IfOk result (λ n. n ≤ (range_of key).greatest) }
{
    let limits = key.limits();
    match number {
        Some(n) if limits.contain(n) => Ok(n),
        Some(n) => Err(ConfigFault::BadValue(key, Kept::Number(n))),
        None => Err(ConfigFault::BadValue(key, Kept::Other)),
    }
}

/// The number by which the value of a key is judged.
fn quantity_of(key: Key, value: &Value) -> Option<u64>
    ensures { result ≡ quantity key (view value.now) }
{
    match key {
        Key::Words => value.as_object().map(|words| words.len() as u64),
        _ => value.as_u64(),
    }
}
