ghost use Rattle.std.specs.Prelude.{◌≡◌, ◌≤◌, List, ℕ, length, vec_capacity};
ghost use Rattle.funnel_model.specs.declared.reply.Reply.{Reply};
ghost use Rattle.line_proto.specs.Forms.{ByQuery, Searches};
ghost use Rattle.line_proto.specs.Requests.{requested};
ghost use Rattle.line_proto.specs.Services.{AnswersAsked};
ghost use Rattle.http_front.specs.Entries.{found_by};
ghost use Rattle.http_front.specs.Routes.{Add, Find, Put, Query, Tune, told_seen};
ghost use Rattle.http_front.specs.declared.outcome.Outcome.TheVariants.{Replied};
ghost use Rattle.http_front.specs.Steps.{AnswersFrame, AnswersRoute, IsRequest};

use crate::cause::Cause;
use crate::document::{parse_document, parse_text};
use crate::framing::{MAX_HEAD, Parts};
use crate::keys::Amounts;
use crate::outcome::{Outcome, Shape};
use crate::query::decode;
use crate::routing::{Route, parse_route};
use funnel_model::Reply;
use json::Scratch;
use line_proto::{Request, Search, Service};
use std::alloc::Global;
use std::str;

/// What decoding needs.
#[derive(Drop)]
pub(crate) struct Decoding {
    pub(crate) scratch: Scratch<Global>,
    pub(crate) query: Vec<u8>,
}

/// Has the service answer a request that is whole, or refuses it for its route, its body or its query.
pub(crate) fn outcome_of<S: Service>(
    service: &mut S,
    bytes: &[u8],
    parts: &Parts,
    decoding: &mut Decoding,
) -> Outcome
    requires whole { IsRequest bytes.now parts.now }
    requires room { MAX_HEAD ≤ vec_capacity decoding.old.query }
    ensures caller { S.caller service.new ≡ S.caller service.old }
    ensures answers { AnswersFrame bytes.now parts.now.body.end parts.now.closes (S.caller service.old) (S.front service.old) result (S.front service.new) }
    ensures room { vec_capacity decoding.old.query ≤ vec_capacity decoding.new.query }
{
    let body = parts.body.of(bytes);
    match parse_route(parts.method.of(bytes), parts.target.of(bytes)) {
        Some(Route::Add) => add(service, body, &mut decoding.scratch),
        Some(Route::Put(id)) => put(service, id, body, &mut decoding.scratch),
        Some(Route::Get(id)) => ask(service, Shape::Document(id), &Request::Get { id }),
        Some(Route::Delete(id)) => ask(service, Shape::Object, &Request::Delete { id }),
        Some(Route::Find(told, value)) => find(service, told, value, &mut decoding.query),
        Some(Route::Query(told, value)) => query(service, told, value, &mut decoding.query),
        Some(Route::Place) => ask(service, Shape::Object, &Request::Place),
        Some(Route::Stats) => ask(service, Shape::Object, &Request::Stats),
        Some(Route::Metrics) => ask(service, Shape::Metrics, &Request::Stats),
        Some(Route::Journal(from)) => ask(service, Shape::Object, &Request::Journal { from }),
        Some(Route::Recycle) => ask(service, Shape::Object, &Request::Recycle),
        Some(Route::Tune) => tune(service, body),
        None => Outcome::Refused(Cause::Route),
    }
}

/// Has the service answer a request, and tells its reply in a shape.
fn ask<S: Service>(service: &mut S, shape: Shape, request: &Request<'_>) -> Outcome
    ensures caller { S.caller service.new ≡ S.caller service.old }
    ensures answers { (reply : Reply) × (result ≡ Replied shape reply)
        × AnswersAsked (S.caller service.old) (S.front service.old) (S.front service.new) (requested request.now) reply }
{
    Outcome::Replied(shape, service.call(request))
}

/// Adds the document of a body.
fn add<S: Service>(service: &mut S, body: &[u8], scratch: &mut Scratch<Global>) -> Outcome
    ensures caller { S.caller service.new ≡ S.caller service.old }
    ensures answers { AnswersRoute Add body.now (S.caller service.old) (S.front service.old) result (S.front service.new) }
{
    match parse_document(body, scratch) {
        Ok(Some(document)) => Outcome::Replied(
            Shape::Object,
            service.call(&Request::Add {
                id: document.id,
                text: document.text,
            }),
        ),
        Ok(None) => Outcome::Refused(Cause::Body),
        Err(_) => Outcome::Replied(Shape::Object, Reply::Memory),
    }
}

/// Puts the text of a body at a number.
fn put<S: Service>(service: &mut S, id: u64, body: &[u8], scratch: &mut Scratch<Global>) -> Outcome
    ensures caller { S.caller service.new ≡ S.caller service.old }
    ensures answers { AnswersRoute (Put id) body.now (S.caller service.old) (S.front service.old) result (S.front service.new) }
{
    match parse_text(body, scratch) {
        Ok(Some(text)) => Outcome::Replied(Shape::Object, service.call(&Request::Put { id, text })),
        Ok(None) => Outcome::Refused(Cause::Body),
        Err(_) => Outcome::Replied(Shape::Object, Reply::Memory),
    }
}

/// Finds by the words that a value stands for.
fn find<S: Service>(service: &mut S, told: Amounts, value: &str, room: &mut Vec<u8>) -> Outcome
    requires { length value.now ≤ vec_capacity room.old }
    ensures caller { S.caller service.new ≡ S.caller service.old }
    ensures answers { (body : List ℕ) → AnswersRoute (Find (told_seen told) value.now) body
        (S.caller service.old) (S.front service.old) result (S.front service.new) }
    ensures room { vec_capacity room.old ≤ vec_capacity room.new }
{
    if !decode(value.as_bytes(), room) {
        return Outcome::Refused(Cause::Query);
    }
    match str::from_utf8(room) {
        Ok(words) => Outcome::Replied(Shape::Object, find_words(service, told, words)),
        Err(_) => Outcome::Refused(Cause::Query),
    }
}

/// Finds by words.
fn find_words<S: Service>(service: &mut S, told: Amounts, words: &str) -> Reply
    ensures caller { S.caller service.new ≡ S.caller service.old }
    ensures answers { AnswersAsked (S.caller service.old) (S.front service.old) (S.front service.new) (found_by (told_seen told) words.now) result }
{
    let kept = Search::Words(words);
    match told {
        Amounts::All => service.call(&Request::Find { query: words }),
        Amounts::Count => service.call(&Request::Count { kept }),
        Amounts::Newest(most) => service.call(&Request::Newest { most, kept }),
        Amounts::Oldest(most) => service.call(&Request::Oldest { most, kept }),
    }
}

/// Finds by the boolean query that a value stands for.
fn query<S: Service>(service: &mut S, told: Amounts, value: &str, room: &mut Vec<u8>) -> Outcome
    requires { length value.now ≤ vec_capacity room.old }
    ensures caller { S.caller service.new ≡ S.caller service.old }
    ensures answers { (body : List ℕ) → AnswersRoute (Query (told_seen told) value.now) body
        (S.caller service.old) (S.front service.old) result (S.front service.new) }
    ensures room { vec_capacity room.old ≤ vec_capacity room.new }
{
    if !decode(value.as_bytes(), room) {
        return Outcome::Refused(Cause::Query);
    }
    match str::from_utf8(room) {
        Ok(text) => Outcome::Replied(Shape::Object, query_text(service, told, text)),
        Err(_) => Outcome::Refused(Cause::Query),
    }
}

/// Finds by a boolean query.
fn query_text<S: Service>(service: &mut S, told: Amounts, text: &str) -> Reply
    ensures caller { S.caller service.new ≡ S.caller service.old }
    ensures answers { AnswersAsked (S.caller service.old) (S.front service.old) (S.front service.new) (Searches (told_seen told) (ByQuery text.now)) result }
{
    let kept = Search::Query(text);
    match told {
        Amounts::All => service.call(&Request::Query { text }),
        Amounts::Count => service.call(&Request::Count { kept }),
        Amounts::Newest(most) => service.call(&Request::Newest { most, kept }),
        Amounts::Oldest(most) => service.call(&Request::Oldest { most, kept }),
    }
}

/// Tunes by the statistics in a body.
fn tune<S: Service>(service: &mut S, body: &[u8]) -> Outcome
    ensures caller { S.caller service.new ≡ S.caller service.old }
    ensures answers { AnswersRoute Tune body.now (S.caller service.old) (S.front service.old) result (S.front service.new) }
{
    match str::from_utf8(body) {
        Ok(text) => Outcome::Replied(Shape::Object, service.call(&Request::Tune { text })),
        Err(_) => Outcome::Refused(Cause::Text),
    }
}
