//! Boolean queries against a plain model: small expressions over three words, at documents with each choice of these.
use crate::caller::Caller;
use crate::setting::{Case, config, expect, few_rows};
use engine::{Client, PoolName};
use funnel_model::Reply;
use line_proto::{Request, Service};
use std::alloc::{AllocError, Global};
use std::sync::Wait;
use std::test::*;

/// The documents, by their numbers from 1 on.
static TEXTS: [&str; 8] = ["x", "a", "b", "A b", "c", "c a", "b c c", "c B a"];

/// Which documents have each word, a bit for each document.
const A: u8 = 0b1010_1010;

const B: u8 = 0b1100_1100;

const C: u8 = 0b1111_0000;

/// An expression, and which documents it keeps.
type Factor = (&'static str, u8);

/// The words, their contraries, and those of two words.
static FACTORS: [Factor; 24] = [
    ("a", A),
    ("-a", !A),
    ("(a a)", A),
    ("-(a|-a)", 0),
    ("(a b)", A & B),
    ("-(a|-b)", !A & B),
    ("(a C)", A & C),
    ("-(a|-C)", !A & C),
    ("b", B),
    ("-b", !B),
    ("(b a)", B & A),
    ("-(b|-a)", !B & A),
    ("(b b)", B),
    ("-(b|-b)", 0),
    ("(b C)", B & C),
    ("-(b|-C)", !B & C),
    ("C", C),
    ("-C", !C),
    ("(C a)", C & A),
    ("-(C|-a)", !C & A),
    ("(C b)", C & B),
    ("-(C|-b)", !C & B),
    ("(C C)", C),
    ("-(C|-C)", 0),
];

fn joined(alloc: Global, parts: &[&str]) -> Result<String, AllocError> {
    let mut text = String::new(alloc);
    for part in parts {
        text.push_str(part)?;
    }
    Ok(text)
}

/// Which of the eight documents these are, where they come in the order in which they were added.
fn bits_of(ids: &[u64]) -> Option<u8> {
    let mut bits = 0;
    let mut last = 0;
    for id in ids {
        if *id <= 8 {
            if *id <= last {
                return None;
            }
            bits |= 1 << (*id - 1);
            last = *id;
        }
    }
    Some(bits)
}

/// Whether the query of these parts finds these documents.
fn is_answered<S: Service>(client: &mut S, alloc: Global, parts: &[&str], kept: u8) -> bool {
    match joined(alloc, parts) {
        Ok(query) => finds(client, query.as_str(), kept),
        Err(_) => false,
    }
}

fn finds<S: Service>(client: &mut S, text: &str, kept: u8) -> bool {
    match client.call(&Request::Query { text }) {
        Reply::Found(ids) => bits_of(ids.as_slice()) == Some(kept),
        _ => false,
    }
}

/// Whether the query of both factors, and that of one of two, find the right documents.
fn are_both_answered<S: Service>(
    client: &mut S,
    alloc: Global,
    first: &Factor,
    second: &Factor,
) -> bool {
    let (text, kept) = first;
    let (other, too) = second;
    is_answered(client, alloc, &[text, " ", other], *kept & *too)
        && is_answered(client, alloc, &[text, " | ", other], *kept | *too)
}

/// Whether the queries that begin with this factor do.
fn are_answered<S: Service>(client: &mut S, alloc: Global, first: &Factor) -> bool {
    let mut as_wanted = true;
    for second in &FACTORS {
        as_wanted = as_wanted && are_both_answered(client, alloc, first, second);
    }
    as_wanted
}

/// Whether all queries do.
fn all_are_answered<S: Service>(client: &mut S, alloc: Global) -> bool {
    let mut as_wanted = true;
    for first in &FACTORS {
        as_wanted = as_wanted && are_answered(client, alloc, first);
    }
    as_wanted
}

/// Adds documents without the words, so that those behind them stand in two slices.
fn add_others<S: Service>(client: &mut S) {
    for id in 100..160 {
        let _ = client.call(&Request::Add { id, text: "y" });
    }
}

/// Adds the documents.
fn add_texts<S: Service>(client: &mut S) {
    let mut id = 0;
    for text in &TEXTS {
        id = u64::saturating_add(id, 1);
        let _ = client.call(&Request::Add { id, text });
    }
}

/// All queries of two factors, by a client.
struct Queries;

impl Case for Queries {
    fn holds<N: PoolName, R: Wait>(
        &self,
        _: &mut Caller<'_, N, R>,
        others: &mut Vec<Caller<'_, N, R>>,
    ) -> bool {
        let Some(caller) = others.pop() else {
            return false;
        };
        let Caller {
            engine,
            pass,
            rt,
            alloc,
        } = caller;
        let mut client = Client {
            engine,
            pass,
            rt,
            alloc,
        };
        ask_all(&mut client, alloc)
    }
}

fn ask_all<S: Service>(client: &mut S, alloc: Global) -> bool {
    add_others(client);
    add_texts(client);
    all_are_answered(client, alloc)
}

#[test]
fn queries_find_what_the_model_finds(rt: HostRuntime) {
    let alloc = rt.alloc();
    expect(&rt, alloc, config(alloc, 2, 2, 1, 1024), &Queries)
}

/// All words have the same rows, so bits tell nothing of a document but that it has words.
#[test]
fn queries_of_words_that_share_rows_find_what_the_model_finds(rt: HostRuntime) {
    let alloc = rt.alloc();
    expect(&rt, alloc, few_rows(alloc), &Queries)
}
