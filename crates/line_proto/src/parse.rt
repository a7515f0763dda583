ghost use Rattle.std.specs.Prelude.{◌≡◌, MatchOption, Some, None};
ghost use Rattle.line_proto.specs.Forms.{without_return, word_of, after_space, number_of};
ghost use Rattle.line_proto.specs.Forms.{add_of, put_of, delete_of, get_of, journal_of, query_of, newest_of, oldest_of, tune_of, sought_in};
ghost use Rattle.line_proto.specs.Forms.{asked_of_word, asked_of_rest, asked_of_search, asked_of_text, form_of};
ghost use Rattle.line_proto.specs.Requests.{requested, sought};

use crate::request::{Request, Search};
use funnel_io::MAX_LINE_LEN;
use std::str;

/// The most digits of a number.
const MAX_DIGITS: usize = 20;

/// The request of a line that is given without its newline, or `None` where the line has no form: it is longer
/// than [`MAX_LINE_LEN`], it isn't UTF-8, or it is of another shape. One carriage return at its end is dropped.
#[tactic(auto, unfolding(crate::specs::Forms::form_of))]
pub fn parse_line(line: &[u8]) -> Option<Request<'_>>
    ensures { MatchOption result (form_of line.now ≡ None) (λ r. form_of line.now ≡ Some (requested r)) }
{
    if line.len() > MAX_LINE_LEN {
        return None;
    }
    let Ok(text) = str::from_utf8(without_return(line)) else {
        return None;
    };
    parse_text(text)
}

/// The request of a line's text, by its first word.
#[tactic(auto, unfolding(crate::specs::Forms::asked_of_text))]
fn parse_text(text: &str) -> Option<Request<'_>>
    ensures { MatchOption result (asked_of_text text.now ≡ None) (λ r. asked_of_text text.now ≡ Some (requested r)) }
{
    let (word, rest) = split_word(text);
    match word {
        "add" => parse_add(rest),
        "put" => parse_put(rest),
        "del" => parse_delete(rest),
        "get" => parse_get(rest),
        _ => parse_search(text, word, rest),
    }
}

/// The request of a text whose first word is none of a document.
#[tactic(auto, unfolding(crate::specs::Forms::asked_of_search))]
fn parse_search<'a>(text: &'a str, word: &str, rest: &'a str) -> Option<Request<'a>>
    requires word { word.now ≡ word_of text.now }
    requires rest { rest.now ≡ after_space text.now }
    ensures { MatchOption result (asked_of_search text.now ≡ None) (λ r. asked_of_search text.now ≡ Some (requested r)) }
{
    match word {
        "find" => Some(Request::Find { query: rest }),
        "query" => parse_query(text, rest),
        "count" => Some(Request::Count {
            kept: parse_kept(text),
        }),
        "newest" => parse_newest(rest),
        "oldest" => parse_oldest(rest),
        _ => parse_rest(text, word, rest),
    }
}

/// The request of a text whose first word is none of a document or a search; `place`, `stats` and `recycle` stand alone.
#[tactic(auto, unfolding(crate::specs::Forms::asked_of_rest))]
fn parse_rest<'a>(text: &'a str, word: &str, rest: &'a str) -> Option<Request<'a>>
    requires word { word.now ≡ word_of text.now }
    requires rest { rest.now ≡ after_space text.now }
    ensures { MatchOption result (asked_of_rest text.now ≡ None) (λ r. asked_of_rest text.now ≡ Some (requested r)) }
{
    match word {
        "tune" => parse_tune(text, rest),
        "journal" => parse_journal(rest),
        _ => parse_word(text),
    }
}

/// The request of a text that is one word.
#[tactic(auto, unfolding(crate::specs::Forms::asked_of_word))]
fn parse_word(text: &str) -> Option<Request<'_>>
    ensures { MatchOption result (asked_of_word text.now ≡ None) (λ r. asked_of_word text.now ≡ Some (requested r)) }
{
    match text {
        "place" => Some(Request::Place),
        "stats" => Some(Request::Stats),
        "recycle" => Some(Request::Recycle),
        _ => None,
    }
}

/// The request of what follows `add` and a space.
#[tactic(auto, unfolding(crate::specs::Forms::add_of))]
fn parse_add(rest: &str) -> Option<Request<'_>>
    ensures { MatchOption result (add_of rest.now ≡ None) (λ r. add_of rest.now ≡ Some (requested r)) }
{
    let (number, text) = split_word(rest);
    let id = parse_number(number)?;
    Some(Request::Add { id, text })
}

/// The request of what follows `put` and a space.
#[tactic(auto, unfolding(crate::specs::Forms::put_of))]
fn parse_put(rest: &str) -> Option<Request<'_>>
    ensures { MatchOption result (put_of rest.now ≡ None) (λ r. put_of rest.now ≡ Some (requested r)) }
{
    let (number, text) = split_word(rest);
    let id = parse_number(number)?;
    Some(Request::Put { id, text })
}

/// The request of what follows `del` and a space.
#[tactic(auto, unfolding(crate::specs::Forms::delete_of))]
fn parse_delete(rest: &str) -> Option<Request<'_>>
    ensures { MatchOption result (delete_of rest.now ≡ None) (λ r. delete_of rest.now ≡ Some (requested r)) }
{
    let id = parse_number(rest)?;
    Some(Request::Delete { id })
}

/// The request of what follows `get` and a space.
#[tactic(auto, unfolding(crate::specs::Forms::get_of))]
fn parse_get(rest: &str) -> Option<Request<'_>>
    ensures { MatchOption result (get_of rest.now ≡ None) (λ r. get_of rest.now ≡ Some (requested r)) }
{
    let id = parse_number(rest)?;
    Some(Request::Get { id })
}

/// The request of what follows `journal` and a space.
#[tactic(auto, unfolding(crate::specs::Forms::journal_of))]
fn parse_journal(rest: &str) -> Option<Request<'_>>
    ensures { MatchOption result (journal_of rest.now ≡ None) (λ r. journal_of rest.now ≡ Some (requested r)) }
{
    let from = parse_number(rest)?;
    Some(Request::Journal { from })
}

/// The request of a text whose word is `query`, and of what follows its space.
#[tactic(auto, unfolding(crate::specs::Forms::query_of))]
fn parse_query<'a>(text: &'a str, rest: &'a str) -> Option<Request<'a>>
    requires { rest.now ≡ after_space text.now }
    ensures { MatchOption result (query_of text.now ≡ None) (λ r. query_of text.now ≡ Some (requested r)) }
{
    if text == "query" {
        return None;
    }
    Some(Request::Query { text: rest })
}

/// The request of what follows `newest` and a space.
#[tactic(auto, unfolding(crate::specs::Forms::newest_of))]
fn parse_newest(rest: &str) -> Option<Request<'_>>
    ensures { MatchOption result (newest_of rest.now ≡ None) (λ r. newest_of rest.now ≡ Some (requested r)) }
{
    let (number, _) = split_word(rest);
    let most = parse_number(number)?;
    Some(Request::Newest {
        most,
        kept: parse_kept(rest),
    })
}

/// The request of what follows `oldest` and a space.
#[tactic(auto, unfolding(crate::specs::Forms::oldest_of))]
fn parse_oldest(rest: &str) -> Option<Request<'_>>
    ensures { MatchOption result (oldest_of rest.now ≡ None) (λ r. oldest_of rest.now ≡ Some (requested r)) }
{
    let (number, _) = split_word(rest);
    let most = parse_number(number)?;
    Some(Request::Oldest {
        most,
        kept: parse_kept(rest),
    })
}

/// What is searched for behind the first word of the bytes: without a space there each document is kept.
fn parse_kept(bytes: &str) -> Search<'_>
    ensures { sought result ≡ sought_in bytes.now }
{
    let (word, rest) = split_word(bytes);
    if word == bytes {
        Search::Words("")
    } else {
        Search::Query(rest)
    }
}

/// The request of a text whose word is `tune`, and of what follows its space.
#[tactic(auto, unfolding(crate::specs::Forms::tune_of))]
fn parse_tune<'a>(text: &'a str, rest: &'a str) -> Option<Request<'a>>
    requires { rest.now ≡ after_space text.now }
    ensures { MatchOption result (tune_of text.now ≡ None) (λ r. tune_of text.now ≡ Some (requested r)) }
{
    if text == "tune" {
        return None;
    }
    Some(Request::Tune { text: rest })
}

/// The number that 1 to 20 digits write, if it is below 2^64.
pub fn parse_number(word: &str) -> Option<u64>
    ensures { result ≡ number_of word.now }
{
    // `parse` would read a plus sign, too
    if word.starts_with('+') || word.len() > MAX_DIGITS {
        return None;
    }
    word.parse().ok()
}

/// The bytes before the first space, and those after it.
fn split_word(text: &str) -> (&str, &str)
    ensures word { result.0.now ≡ word_of text.now }
    ensures rest { result.1.now ≡ after_space text.now }
{
    text.split_once(' ').unwrap_or((text, ""))
}

/// The line without one carriage return at its end.
fn without_return(line: &[u8]) -> &[u8]
    ensures { result.now ≡ without_return line.now }
{
    line.strip_suffix(b"\r").unwrap_or(line)
}
