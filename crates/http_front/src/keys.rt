ghost use Rattle.std.specs.Prelude.{◌≡◌, ◌<◌, [], ◌∷◌, length, Some, None, MatchOption};
ghost use Rattle.std.specs.List.{after_first, before_first, slice_split};
ghost use Rattle.http_front.specs.Routes.{is_ampersand, is_equals, is_question, keys_in, keys_of, keys_seen, no_keys};
ghost use Rattle.http_front.specs.Routes.{tells_ids, told_seen, with_from, with_key, with_piece, with_text, with_told};

use line_proto::parse_number;

/// How much is told of the documents that are found.
#[derive(Clone, Copy, Debug, PartialEq, Eq)]
pub(crate) enum Amounts {
    /// Their numbers.
    All,
    /// How many they are.
    Count,
    /// That, and at most so many numbers of those that were added last.
    Newest(u64),
    /// That, and at most so many numbers of those that were added first.
    Oldest(u64),
}

/// What the keys of a query string say.
#[derive(Clone, Copy, Debug)]
pub(crate) struct Keys<'a> {
    /// The value of `q`.
    pub(crate) text: Option<&'a str>,
    pub(crate) told: Amounts,
    pub(crate) from: Option<u64>,
}

/// Whether all numbers are told.
pub(crate) fn tells_all(told: Amounts) -> bool
    ensures { result ≡ tells_ids (told_seen told) }
{
    match told {
        Amounts::All => true,
        Amounts::Count | Amounts::Newest(_) | Amounts::Oldest(_) => false,
    }
}

/// What the keys of a target say. Each comes once at most, and there are no others.
#[tactic(auto, unfolding(crate::specs::Routes::keys_of))]
pub(crate) fn parse_keys(target: &str) -> Option<Keys<'_>>
    ensures { MatchOption result (keys_of target.now ≡ None) (λ keys. keys_of target.now ≡ Some (keys_seen keys)) }
{
    let (path, query) = split_target(target);
    if path == target {
        return Some(without_keys());
    }
    parse_query(query)
}

/// What stands before the first question mark of a target, and what stands behind it.
pub(crate) fn split_target(target: &str) -> (&str, &str)
    ensures path { result.0.now ≡ before_first is_question target.now }
    ensures query { result.1.now ≡ after_first is_question target.now }
{
    target.split_once('?').unwrap_or((target, ""))
}

/// No key says anything.
fn without_keys() -> Keys<'static>
    ensures { keys_seen result ≡ no_keys }
{
    Keys {
        text: None,
        told: Amounts::All,
        from: None,
    }
}

/// What the keys of a query string say.
#[tactic(auto, unfolding(crate::specs::Routes::keys_in))]
fn parse_query(query: &str) -> Option<Keys<'_>>
    ensures { MatchOption result (keys_in query.now ≡ None) (λ keys. keys_in query.now ≡ Some (keys_seen keys)) }
{
    let mut keys = without_keys();
    let mut left = query;
    while let Some((piece, rest)) = next_piece(left) {
        keys = with_piece(keys, piece)?;
        left = rest;
    }
    with_piece(keys, left)
}

/// The first of several pieces, and the text of the others.
fn next_piece(text: &str) -> Option<(&str, &str)>
    ensures { MatchOption result (slice_split is_ampersand text.now ≡ text.now ∷ [])
        (λ parts. (slice_split is_ampersand text.now ≡ parts.0.now ∷ slice_split is_ampersand parts.1.now) × (length parts.1.now < length text.now)) }
{
    text.split_once('&')
}

/// The keys with that of a piece.
#[tactic(auto, unfolding(crate::specs::Routes::with_piece))]
fn with_piece<'a>(keys: Keys<'a>, piece: &'a str) -> Option<Keys<'a>>
    ensures { MatchOption result (with_piece (keys_seen keys.entry) piece.now ≡ None)
        (λ more. with_piece (keys_seen keys.entry) piece.now ≡ Some (keys_seen more)) }
{
    let (name, value) = split_piece(piece);
    if name == piece {
        return None;
    }
    with_key(keys, name, value)
}

/// What stands before the first equals sign of a piece, and what stands behind it.
fn split_piece(piece: &str) -> (&str, &str)
    ensures name { result.0.now ≡ before_first is_equals piece.now }
    ensures value { result.1.now ≡ after_first is_equals piece.now }
{
    piece.split_once('=').unwrap_or((piece, ""))
}

/// The keys with one of this name and value.
#[tactic(auto, unfolding(crate::specs::Routes::with_key))]
fn with_key<'a>(keys: Keys<'a>, name: &str, value: &'a str) -> Option<Keys<'a>>
    ensures { MatchOption result (with_key (keys_seen keys.entry) name.now value.now ≡ None)
        (λ more. with_key (keys_seen keys.entry) name.now value.now ≡ Some (keys_seen more)) }
{
    match name {
        "q" => with_text(keys, value),
        "newest" => with_told(keys, Amounts::Newest(parse_number(value)?)),
        "oldest" => with_told(keys, Amounts::Oldest(parse_number(value)?)),
        "from" => with_from(keys, parse_number(value)?),
        _ => None,
    }
}

/// The keys with the value of `q`, unless one came before.
fn with_text<'a>(keys: Keys<'a>, value: &'a str) -> Option<Keys<'a>>
    ensures { MatchOption result (with_text (keys_seen keys.entry) value.now ≡ None)
        (λ more. with_text (keys_seen keys.entry) value.now ≡ Some (keys_seen more)) }
{
    match keys.text {
        None => Some(Keys {
            text: Some(value),
            told: keys.told,
            from: keys.from,
        }),
        Some(_) => None,
    }
}

/// The keys with so many of the newest or the oldest, unless such a key came before.
fn with_told(keys: Keys<'_>, told: Amounts) -> Option<Keys<'_>>
    ensures { MatchOption result (with_told (keys_seen keys.entry) (told_seen told) ≡ None)
        (λ more. with_told (keys_seen keys.entry) (told_seen told) ≡ Some (keys_seen more)) }
{
    match keys.told {
        Amounts::All => Some(Keys {
            text: keys.text,
            told,
            from: keys.from,
        }),
        Amounts::Count | Amounts::Newest(_) | Amounts::Oldest(_) => None,
    }
}

/// The keys with where the journal begins, unless that was said before.
fn with_from(keys: Keys<'_>, from: u64) -> Option<Keys<'_>>
    ensures { MatchOption result (with_from (keys_seen keys.entry) from ≡ None)
        (λ more. with_from (keys_seen keys.entry) from ≡ Some (keys_seen more)) }
{
    match keys.from {
        None => Some(Keys {
            text: keys.text,
            told: keys.told,
            from: Some(from),
        }),
        Some(_) => None,
    }
}
