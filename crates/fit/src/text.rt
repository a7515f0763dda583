//! The text of a configuration.

ghost use Rattle.std.specs.Prelude.{◌≡◌, ◌==◌, Some, IfOk, IsUtf8, OnOk, string_bytes, if◌then◌else◌};
ghost use Rattle.funnel_model.specs.Configuration.{IsInRange};
ghost use Rattle.serde_json.specs.Data.{object, put};
ghost use Rattle.serde_json.specs.Read.{read};
ghost use Rattle.serde_json.specs.View.{members_view, view};
ghost use Rattle.funnel_stats.specs.Keys.{name_of, range_of};
ghost use Rattle.funnel_stats.specs.declared.key.Key.TheVariants.{Private};
ghost use Rattle.fit.specs.Texts.{text_of, members_of, members_of_words, whole};

use funnel_model::{Config, Listed, Memory};
use funnel_stats::Key;
use serde_json::{Map, Value};
use std::alloc::Global;

/// The text of the configuration: one object with the keys that a fit sets, and a newline.
pub(crate) fn text_of(alloc: Global, config: &Config) -> Result<String, Memory>
    requires { IsInRange config.now }
    ensures text { IfOk result (λ text. string_bytes text ≡ text_of config.now) }
    ensures utf8 { IfOk result (λ _. IsUtf8 (text_of config.now)) }
    ensures read_back { IfOk result (λ _. read (text_of config.now) ≡ Some (object (members_of config.now))) }
{
    let object = object_of(alloc, config)?;
    let mut text = Value::Object(object).to_string(alloc)?;
    text.push('\n')?;
    Ok(text)
}

/// The object of the configuration.
fn object_of(alloc: Global, config: &Config) -> Result<Map<String, Value>, Memory>
    ensures { IfOk result (λ object. members_view object.entries ≡ members_of config.now) }
{
    let mut object = Map::new(alloc);
    put_number(alloc, &mut object, Key::Documents, config.documents)?;
    put_number(alloc, &mut object, Key::MaxRank, u64::from(config.max_rank))?;
    put_number(alloc, &mut object, Key::Passes, u64::from(config.passes))?;
    put_private(alloc, &mut object, u64::from(config.private))?;
    put_number(alloc, &mut object, Key::Reserve, u64::from(config.reserve))?;
    put_number(alloc, &mut object, Key::Slices, u64::from(config.slices))?;
    put_number(alloc, &mut object, Key::Tail, config.tail)?;
    let words = object_of_words(alloc, &config.words)?;
    put_value(alloc, &mut object, Key::Words, Value::Object(words))?;
    Ok(object)
}

/// Puts the number of the key `private` into an object, unless it is the default.
fn put_private(alloc: Global, object: &mut Map<String, Value>, number: u64) -> Result<(), Memory>
    ensures { OnOk result (members_view object.new.entries
        ≡ (if number == (range_of Private).default then members_view object.old.entries
        else put (name_of Private) (whole number) (members_view object.old.entries))) }
{
    if number == Key::Private.limits().default {
        return Ok(());
    }
    put_number(alloc, object, Key::Private, number)
}

/// Puts the number of a key into an object.
fn put_number(
    alloc: Global,
    object: &mut Map<String, Value>,
    key: Key,
    number: u64,
) -> Result<(), Memory>
    ensures { OnOk result (members_view object.new.entries ≡ put (name_of key) (whole number) (members_view object.old.entries)) }
{
    put_value(alloc, object, key, Value::from(number))
}

/// Puts the value of a key into an object.
fn put_value(
    alloc: Global,
    object: &mut Map<String, Value>,
    key: Key,
    value: Value,
) -> Result<(), Memory>
    ensures { OnOk result (members_view object.new.entries ≡ put (name_of key) (view value) (members_view object.old.entries)) }
{
    let name = String::from_str(alloc, key.name())?;
    object.insert(name, value)?;
    Ok(())
}

/// The object of the listed words with their counts.
fn object_of_words(alloc: Global, words: &Listed) -> Result<Map<String, Value>, Memory>
    ensures { IfOk result (λ object. members_view object.entries ≡ members_of_words words.now) }
{
    let mut object = Map::new(alloc);
    for (word, count) in words.as_slice() {
        object.insert(word.clone()?, Value::from(*count))?;
    }
    Ok(object)
}
