ghost use Rattle.std.specs.Prelude.{◌≡◌, ◌↔◌, [], ◌∷◌, true, false, Some, IsTrue, IfOk, MatchOption, map, option_map, option_and_then};
ghost use Rattle.funnel_model.specs.Listed.{IsInByteOrder};
ghost use Rattle.funnel_model.specs.Words.{IsRising};
ghost use Rattle.serde_json.specs.Find.{as_object};
ghost use Rattle.serde_json.specs.View.{view, members_view};
ghost use Rattle.funnel_stats.specs.Configurations.{word_counts, first_of};
ghost use Rattle.funnel_stats.specs.Faults.{is_count, is_word, not_word, word_count};
ghost use Rattle.funnel_stats.specs.Steps.{Checks, GivesOrFaults};
ghost use Rattle.funnel_stats.specs.Values.{entries, listed_at, value_at, whole_number};
ghost use Rattle.funnel_stats.specs.declared.key.Key.TheVariants.{Words};

use crate::fault::ConfigFault;
use crate::kept::Kept;
use crate::key::Key;
use crate::object::value_of;
use funnel_model::{Listed, Memory, Text, WordSet};
use serde_json::{Map, Value};
use std::alloc::Global;
use word_cut::words;

/// The listed words with their counts.
pub fn list_words(
    alloc: Global,
    object: &Map<String, Value>,
    documents: u64,
) -> Result<Listed, ConfigFault>
    ensures answer { let listed = listed_at (members_view object.now.entries) in
        GivesOrFaults result (word_counts listed) (first_of (not_word listed ∷ word_count documents listed ∷ [])) }
    ensures ordered { IfOk result IsInByteOrder }
{
    match listed_in(object) {
        Some(listed) => {
            check_words(alloc, listed)?;
            count_words(alloc, listed, documents)
        }
        None => Ok(no_words(alloc)),
    }
}

/// The members of the listed words.
fn listed_in(object: &Map<String, Value>) -> Option<&Map<String, Value>>
    ensures { option_map (λ listed. members_view listed.now.entries) result
        ≡ option_and_then as_object (value_at (members_view object.now.entries) Words) }
{
    value_of(object, Key::Words)?.as_object()
}

/// A list without words.
pub fn no_words(alloc: Global) -> Listed
    ensures words { result ≡ [] }
    ensures ordered { IsInByteOrder result }
{
    Listed::new(Vec::new(alloc))
}

/// Whether each listed text is one folded word.
fn check_words(alloc: Global, listed: &Map<String, Value>) -> Result<(), ConfigFault>
    ensures { Checks result (not_word (entries (members_view listed.now.entries))) }
{
    for (text, _) in listed {
        if !is_word(alloc, text)? {
            return Err(ConfigFault::NotWord(Text::new(text.clone()?)));
        }
    }
    Ok(())
}

/// Whether a text is one folded word, as a listed word is: whether it is all that its set of words has.
pub fn is_word(alloc: Global, text: &str) -> Result<bool, Memory>
    ensures { IfOk result (λ is. is ≡ is_word text.now) }
{
    let Ok(found) = words(alloc, text) else {
        return Err(Memory);
    };
    Ok(is_alone(&found, text))
}

/// Whether the text is all that the words are.
fn is_alone(words: &WordSet, text: &str) -> bool
    ensures alone { IsTrue result ↔ (words.now ≡ text.now ∷ []) }
    ensures rising { IsRising words.now }
{
    words.len() == 1 && words.contains(text.as_bytes())
}

/// The words with their counts, each from 1 to the number of documents.
fn count_words(
    alloc: Global,
    listed: &Map<String, Value>,
    documents: u64,
) -> Result<Listed, ConfigFault>
    ensures answer { let entries = entries (members_view listed.now.entries) in
        GivesOrFaults result (word_counts entries) (word_count documents entries) }
    ensures ordered { IfOk result IsInByteOrder }
{
    let mut counts = Vec::new(alloc);
    for (word, value) in listed {
        let Some(count) = count_of(value, documents) else {
            let kept = Kept::from(value.as_u64());
            return Err(ConfigFault::WordCount(Text::new(word.clone()?), kept));
        };
        counts.push((word.clone()?, count))?;
    }
    Ok(Listed::new(counts))
}

/// The count that a value is.
fn count_of(value: &Value, documents: u64) -> Option<u64>
    ensures { MatchOption result (is_count documents (view value.now) ≡ false)
        (λ count. (is_count documents (view value.now) ≡ true) × (whole_number (view value.now) ≡ Some count)) }
{
    let count = value.as_u64()?;
    if 1 <= count && count <= documents {
        Some(count)
    } else {
        None
    }
}
