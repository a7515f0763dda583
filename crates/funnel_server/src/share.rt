ghost use Rattle.std.specs.Prelude.{◌≡◌, ◌<◌, ◌%◌, ◌^◌, ◌∷◌, [], string_bytes, map, filter, sum, IfOk, OnOk, OnErr};
ghost use Rattle.funnel_model.specs.declared.call.Call.TheVariants as call;
ghost use Rattle.funnel_model.specs.declared.reply.Reply.TheVariants as reply;
ghost use Rattle.line_proto.specs.Requests.{requested};
ghost use Rattle.line_proto.specs.Services.{AnswersAsked};
ghost use Rattle.load_gen.specs.Documents.{name_of_document};
ghost use Rattle.load_gen.specs.Jobs.{add_and_check, adds_of, deletes_of, is_deleted, queries_of};
ghost use Rattle.load_laws.specs.Replies.{result_in};
ghost use Rattle.funnel_server.specs.Shares.{EndsEarly, FindsMemory, HasResults, IsDone};

use funnel_model::{Memory, Reply};
use itoa::Buffer;
use line_proto::{Request, Service};
use load_gen::{CHECKED_ONE_IN, DELETED_ONE_IN, Load, query};
use std::alloc::{AllocError, Global};

/// A load has this many queries.
const QUERY_COUNT: u32 = 8;

/// Adds the documents of the worker's share, in order, and looks for each 100th of them by its name.
///
/// It takes memory of its own only where such a find comes next, for the name. So it ends early only with a call that is
/// left: for want of this memory, or where a call is answered by that.
pub(crate) fn add_share<S: Service>(
    alloc: Global,
    service: &mut S,
    load: &Load,
    workers: u32,
    worker: u32,
) -> Result<(), Memory>
    requires one_of_them { worker < workers }
    ensures caller { S.caller service.new ≡ S.caller service.old }
    ensures done { OnOk result (IsDone (S.caller service.old) (S.front service.old) (S.front service.new) (adds_of load.now workers worker)) }
    ensures stopped { OnErr result (EndsEarly (S.caller service.old) (S.front service.old) (S.front service.new) (adds_of load.now workers worker)) }
{
    let mut name = String::new(alloc);
    let mut n = 0;
    for i in (worker..load.docs()).step_by(workers as usize) {
        n += 1;
        add_document(service, n, u64::from(i) + 1, load.text(i), &mut name)?;
    }
    Ok(())
}

/// Adds a document, which is the worker's `n`-th. Where `n` is a multiple of 100 it then looks for it by its name, which
/// is written into `name`.
fn add_document<S: Service>(
    service: &mut S,
    n: u32,
    id: u64,
    text: &str,
    name: &mut String,
) -> Result<(), Memory>
    ensures caller { S.caller service.new ≡ S.caller service.old }
    ensures done { OnOk result (IsDone (S.caller service.old) (S.front service.old) (S.front service.new) (add_and_check n (id, text.now))) }
    ensures stopped { OnErr result (EndsEarly (S.caller service.old) (S.front service.old) (S.front service.new) (add_and_check n (id, text.now))) }
{
    ask(service, &Request::Add { id, text })?;
    if n % CHECKED_ONE_IN == 0 {
        write_name(name, id)?;
        let query = name.as_str();
        ask(service, &Request::Find { query })?;
    }
    Ok(())
}

/// Sets `name` to the name of the document with this number.
fn write_name(name: &mut String, id: u64) -> Result<(), AllocError>
    ensures { OnOk result (string_bytes name.new ≡ name_of_document id) }
{
    name.clear();
    name.push_str("u")?;
    let mut buffer = Buffer::new();
    name.push_str(buffer.format(id))
}

/// Deletes those documents of the worker's share whose numbers are multiples of 10, in order. No delete lacks memory, so all
/// are made.
pub(crate) fn delete_share<S: Service>(service: &mut S, load: &Load, workers: u32, worker: u32)
    requires one_of_them { worker < workers }
    ensures caller { S.caller service.new ≡ S.caller service.old }
    ensures done { IsDone (S.caller service.old) (S.front service.old) (S.front service.new) (deletes_of load.now workers worker) }
{
    for i in (worker..load.docs()).step_by(workers as usize) {
        delete_where_due(service, i + 1);
    }
}

/// Deletes the document with this number where the number is a multiple of 10.
fn delete_where_due<S: Service>(service: &mut S, number: u32)
    ensures caller { S.caller service.new ≡ S.caller service.old }
    ensures done { IsDone (S.caller service.old) (S.front service.old) (S.front service.new) (map call.Delete (filter is_deleted (number ∷ []))) }
{
    if number % DELETED_ONE_IN == 0 {
        delete(service, u64::from(number));
    }
}

/// Deletes a document. Whatever the reply is, it is no want of memory.
fn delete<S: Service>(service: &mut S, id: u64)
    ensures caller { S.caller service.new ≡ S.caller service.old }
    ensures done { IsDone (S.caller service.old) (S.front service.old) (S.front service.new) (call.Delete id ∷ []) }
{
    service.call(&Request::Delete { id });
}

/// Runs the worker's queries, in order, and sets the result of each at its place: how many documents it found, and the sum of
/// their numbers in 64 bits. A query that is answered otherwise has found none.
///
/// It ends early only where a call is answered by want of memory.
pub(crate) fn find_share<S: Service>(
    service: &mut S,
    workers: u32,
    worker: u32,
    results: &mut [(u64, u64); 8],
) -> Result<(), Memory>
    requires one_of_them { worker < workers }
    ensures caller { S.caller service.new ≡ S.caller service.old }
    ensures found { OnOk result (HasResults (S.caller service.old) (S.front service.old) (S.front service.new) workers worker results.new) }
    ensures stopped { OnErr result (EndsEarly (S.caller service.old) (S.front service.old) (S.front service.new) (queries_of workers worker)) }
{
    for j in (worker..QUERY_COUNT).step_by(workers as usize) {
        let query = query(j);
        let reply = ask(service, &Request::Find { query })?;
        results[j as usize] = query_result(&reply);
    }
    Ok(())
}

/// Has a request answered, whatever it asks. Where the answer is want of memory, that is the error.
fn ask<S: Service>(service: &mut S, request: &Request<'_>) -> Result<Reply, Memory>
    ensures caller { S.caller service.new ≡ S.caller service.old }
    ensures answered { IfOk result (FindsMemory (S.caller service.old) (S.front service.old) (S.front service.new) (requested request.now)) }
    ensures refused { OnErr result (AnswersAsked (S.caller service.old) (S.front service.old) (S.front service.new) (requested request.now) reply.Memory) }
{
    match service.call(request) {
        Reply::Memory => Err(Memory),
        reply => Ok(reply),
    }
}

/// How many documents a query found by its reply, and the sum of their numbers in 64 bits.
fn query_result(reply: &Reply) -> (u64, u64)
    ensures { result ≡ result_in reply.now }
{
    match reply {
        Reply::Found(ids) => (ids.len() as u64, wrapping_sum(ids.as_slice())),
        _ => (0, 0),
    }
}

/// The sum of the numbers in 64 bits.
fn wrapping_sum(ids: &[u64]) -> u64
    ensures { result ≡ sum ids.now % 2 ^ 64 }
{
    ids.iter().fold(0u64, |total, id| total.wrapping_add(*id))
}
