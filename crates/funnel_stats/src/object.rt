ghost use Rattle.std.specs.Prelude.{◌≡◌, Some, IfOk, IfErr, option_map};
ghost use Rattle.serde_json.specs.Find.{as_object};
ghost use Rattle.serde_json.specs.View.{view, members_view};
ghost use Rattle.funnel_stats.specs.Configurations.{object_of};
ghost use Rattle.funnel_stats.specs.Faults.{unknown_key};
ghost use Rattle.funnel_stats.specs.Steps.{Checks, IsNoObject};
ghost use Rattle.funnel_stats.specs.Values.{entries, value_at};

use crate::fault::ConfigFault;
use crate::key::{Key, is_name};
use funnel_model::Text;
use serde_json::{Map, Value};
use std::alloc::Global;

/// The object that the bytes are.
pub fn read_object(alloc: Global, bytes: &[u8]) -> Result<Map<String, Value>, ConfigFault>
    ensures ok { IfOk result (λ object. object_of bytes.now ≡ Some (members_view object.entries)) }
    ensures err { IfErr result (λ fault. IsNoObject fault (object_of bytes.now)) }
{
    if bytes.is_empty() {
        return Ok(Map::new(alloc));
    }
    match Value::from_slice(alloc, bytes) {
        Ok(value) => object_in(value).ok_or(ConfigFault::NotJson),
        Err(error) if error.is_memory() => Err(ConfigFault::Memory),
        Err(_) => Err(ConfigFault::NotJson),
    }
}

/// The members of a value that is an object.
fn object_in(value: Value) -> Option<Map<String, Value>>
    ensures { option_map (λ object. members_view object.entries) result ≡ as_object (view value) }
{
    match value {
        Value::Object(object) => Some(object),
        _other => None,
    }
}

/// Whether each name is that of one of the keys.
pub fn check_keys(
    alloc: Global,
    object: &Map<String, Value>,
    known: &[Key],
) -> Result<(), ConfigFault>
    ensures { Checks result (unknown_key known.now (entries (members_view object.now.entries))) }
{
    for (name, _) in object {
        if !is_name(known, name) {
            return Err(ConfigFault::UnknownKey(Text::new(name.clone()?)));
        }
    }
    Ok(())
}

/// The value of a key.
pub fn value_of(object: &Map<String, Value>, key: Key) -> Option<&Value>
    ensures { option_map (λ value. view value.now) result ≡ value_at (members_view object.now.entries) key }
{
    object.get(key.name())
}
