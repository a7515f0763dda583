ghost use Rattle.std.specs.Prelude.{◌≡◌, Some, None, bytes_eq, option_map, MatchOption};
ghost use Rattle.http_front.specs.Routes.{count_by, count_of, find_by, journal_by, keys_seen, number_in, query_by, text_or_none};
ghost use Rattle.http_front.specs.Routes.{route_by_keys, route_of, route_of_get, route_of_post, route_of_text, route_seen};

use crate::keys::{Amounts, Keys, parse_keys, split_target, tells_all};
use crate::numbers::read_number;
use std::str;

/// What a method and a target ask for.
#[derive(Clone, Copy, Debug)]
pub(crate) enum Route<'a> {
    /// Add the document in the body.
    Add,
    /// Put the text in the body at this number.
    Put(u64),
    /// Tell the text of the document of this number.
    Get(u64),
    /// Delete the document of this number.
    Delete(u64),
    /// Find by the words that this value stands for.
    Find(Amounts, &'a str),
    /// Find by the boolean query that this value stands for.
    Query(Amounts, &'a str),
    /// Tell how many commits there were.
    Place,
    /// Tell how full the engine is.
    Stats,
    /// Tell that in Prometheus' text format.
    Metrics,
    /// Tell the commits but the first so many.
    Journal(u64),
    /// Clear and open a slice of which each column is over.
    Recycle,
    /// Treat each slice that is cleared by the statistics in the body.
    Tune,
}

/// The route of a method and a target.
pub(crate) fn parse_route<'a>(method: &[u8], target: &'a [u8]) -> Option<Route<'a>>
    ensures { MatchOption result (route_of method.now target.now ≡ None) (λ route. route_of method.now target.now ≡ Some (route_seen route)) }
{
    let Ok(target) = str::from_utf8(target) else {
        return None;
    };
    parse_text(method, target)
}

/// The route of a target that is text.
#[tactic(auto, unfolding(crate::specs::Routes::route_of_text))]
fn parse_text<'a>(method: &[u8], target: &'a str) -> Option<Route<'a>>
    ensures { MatchOption result (route_of_text method.now target.now ≡ None)
        (λ route. route_of_text method.now target.now ≡ Some (route_seen route)) }
{
    if is_method(method, b"GET") {
        return parse_get(target);
    }
    if is_method(method, b"POST") {
        return parse_post(target);
    }
    if is_method(method, b"PUT") {
        return Some(Route::Put(parse_id(target)?));
    }
    if is_method(method, b"DELETE") {
        return Some(Route::Delete(parse_id(target)?));
    }
    None
}

/// Whether a method has this name.
fn is_method(method: &[u8], name: &[u8]) -> bool
    ensures { result ≡ bytes_eq method.now name.now }
{
    method == name
}

/// The route of a target with the method GET.
#[tactic(auto, unfolding(crate::specs::Routes::route_of_get))]
fn parse_get(target: &str) -> Option<Route<'_>>
    ensures { MatchOption result (route_of_get target.now ≡ None) (λ route. route_of_get target.now ≡ Some (route_seen route)) }
{
    match target {
        "/place" => Some(Route::Place),
        "/stats" => Some(Route::Stats),
        "/metrics" => Some(Route::Metrics),
        _ => parse_by_keys(target),
    }
}

/// The route of a target that may have keys.
#[tactic(auto, unfolding(crate::specs::Routes::route_by_keys))]
fn parse_by_keys(target: &str) -> Option<Route<'_>>
    ensures { MatchOption result (route_by_keys target.now ≡ None) (λ route. route_by_keys target.now ≡ Some (route_seen route)) }
{
    let (path, _) = split_target(target);
    match path {
        "/find" => find_by(parse_keys(target)?),
        "/query" => query_by(parse_keys(target)?),
        "/count" => count_by(parse_keys(target)?),
        "/journal" => journal_by(parse_keys(target)?),
        _ => Some(Route::Get(parse_id(target)?)),
    }
}

/// The route of a find with these keys.
fn find_by(keys: Keys<'_>) -> Option<Route<'_>>
    ensures { MatchOption result (find_by (keys_seen keys.entry) ≡ None) (λ route. find_by (keys_seen keys.entry) ≡ Some (route_seen route)) }
{
    match keys.from {
        None => Some(Route::Find(keys.told, text_or_none(keys.text))),
        Some(_) => None,
    }
}

/// The route of a query with these keys.
fn query_by(keys: Keys<'_>) -> Option<Route<'_>>
    ensures { MatchOption result (query_by (keys_seen keys.entry) ≡ None) (λ route. query_by (keys_seen keys.entry) ≡ Some (route_seen route)) }
{
    match keys.from {
        None => Some(Route::Query(keys.told, text_or_none(keys.text))),
        Some(_) => None,
    }
}

/// The text that is said, or none.
fn text_or_none(text: Option<&str>) -> &str
    ensures { result.now ≡ text_or_none (option_map (λ said. said.now) text.entry) }
{
    match text {
        None => "",
        Some(text) => text,
    }
}

/// The route of a count with these keys.
fn count_by(keys: Keys<'_>) -> Option<Route<'_>>
    ensures { MatchOption result (count_by (keys_seen keys.entry) ≡ None) (λ route. count_by (keys_seen keys.entry) ≡ Some (route_seen route)) }
{
    if !tells_all(keys.told) {
        return None;
    }
    match keys.from {
        None => Some(count_of(keys.text)),
        Some(_) => None,
    }
}

/// The count of what a text finds, or of each document.
fn count_of(text: Option<&str>) -> Route<'_>
    ensures { route_seen result ≡ count_of (option_map (λ said. said.now) text.entry) }
{
    match text {
        None => Route::Find(Amounts::Count, ""),
        Some(value) => Route::Query(Amounts::Count, value),
    }
}

/// The route of a journal with these keys.
fn journal_by(keys: Keys<'_>) -> Option<Route<'_>>
    ensures { MatchOption result (journal_by (keys_seen keys.entry) ≡ None) (λ route. journal_by (keys_seen keys.entry) ≡ Some (route_seen route)) }
{
    if !tells_all(keys.told) {
        return None;
    }
    match keys.text {
        None => Some(Route::Journal(keys.from?)),
        Some(_) => None,
    }
}

/// The route of a target with the method POST.
#[tactic(auto, unfolding(crate::specs::Routes::route_of_post))]
fn parse_post(target: &str) -> Option<Route<'_>>
    ensures { MatchOption result (route_of_post target.now ≡ None) (λ route. route_of_post target.now ≡ Some (route_seen route)) }
{
    match target {
        "/documents" => Some(Route::Add),
        "/recycle" => Some(Route::Recycle),
        "/tune" => Some(Route::Tune),
        _ => None,
    }
}

/// The document's number in a target.
fn parse_id(target: &str) -> Option<u64>
    ensures { result ≡ number_in target.now }
{
    let digits = target.as_bytes().strip_prefix(b"/documents/")?;
    read_number(digits)
}
