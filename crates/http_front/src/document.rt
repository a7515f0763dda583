ghost use Rattle.std.specs.Prelude.{◌≡◌, Some, None, IfOk, MatchOption};
ghost use Rattle.funnel_model.specs.declared.call.Call.TheVariants.{Add};
ghost use Rattle.http_front.specs.Documents.{document_of, text_of_body};
ghost use Rattle.http_front.specs.Tokens.{AsksAdd, AsksNothing, BeginsWithNoPart, BeginsWithPart, TellsNoText, TellsText, part_seen};

use json::{Reader, Scratch, Token};
use line_proto::parse_number;
use std::alloc::{AllocError, Global};
use std::str;

/// A document of a body. Its text borrows from the body, or from the scratch where it has escapes.
#[derive(Clone, Copy, Debug)]
pub(crate) struct Document<'a> {
    pub(crate) id: u64,
    pub(crate) text: &'a str,
}

/// One of the two members of a document.
#[derive(Clone, Copy, Debug)]
enum Part<'a> {
    Id(u64),
    Text(&'a str),
}

/// The document that a body is: a JSON object of `id`, a whole number below 2^64, and `text`, a string, in either order.
/// Memory is taken for a body that is longer than those before it.
pub(crate) fn parse_document<'a>(
    body: &'a [u8],
    scratch: &'a mut Scratch<Global>,
) -> Result<Option<Document<'a>>, AllocError>
    ensures { IfOk result (λ found. MatchOption found (document_of body.now ≡ None)
        (λ document. document_of body.now ≡ Some (Add document.id document.text.now))) }
{
    let Ok(text) = str::from_utf8(body) else {
        return Ok(None);
    };
    let mut reader = Reader::new(text, scratch)?;
    Ok(parse_object(&mut reader))
}

/// The text that a body is: a JSON object of `text`, a string, alone. Memory is taken as for a document.
pub(crate) fn parse_text<'a>(
    body: &'a [u8],
    scratch: &'a mut Scratch<Global>,
) -> Result<Option<&'a str>, AllocError>
    ensures { IfOk result (λ found. MatchOption found (text_of_body body.now ≡ None) (λ text. text_of_body body.now ≡ Some text.now)) }
{
    let Ok(text) = str::from_utf8(body) else {
        return Ok(None);
    };
    let mut reader = Reader::new(text, scratch)?;
    Ok(parse_text_object(&mut reader))
}

/// The text that the tokens tell.
fn parse_text_object<'a>(reader: &mut Reader<'a>) -> Option<&'a str>
    ensures { MatchOption result (TellsNoText reader.old) (λ text. TellsText reader.old text.now) }
{
    let Some(Token::BeginObject) = reader.next() else {
        return None;
    };
    let Some(part) = parse_part(reader) else {
        return None;
    };
    let Some(Token::EndObject) = reader.next() else {
        return None;
    };
    if reader.next().is_some() {
        return None;
    }
    match part {
        Part::Text(text) => Some(text),
        Part::Id(_) => None,
    }
}

/// The document that the tokens are.
fn parse_object<'a>(reader: &mut Reader<'a>) -> Option<Document<'a>>
    ensures { MatchOption result (AsksNothing reader.old) (λ document. AsksAdd reader.old (Add document.id document.text.now)) }
{
    let Some(Token::BeginObject) = reader.next() else {
        return None;
    };
    let Some(first) = parse_part(reader) else {
        return None;
    };
    let Some(second) = parse_part(reader) else {
        return None;
    };
    let Some(Token::EndObject) = reader.next() else {
        return None;
    };
    if reader.next().is_some() {
        return None;
    }
    match (first, second) {
        (Part::Id(id), Part::Text(text)) | (Part::Text(text), Part::Id(id)) => {
            Some(Document { id, text })
        }
        _ => None,
    }
}

/// The member that comes next.
fn parse_part<'a>(reader: &mut Reader<'a>) -> Option<Part<'a>>
    ensures { MatchOption result (BeginsWithNoPart reader.old) (λ part. BeginsWithPart reader.old (part_seen part) reader.new) }
{
    let Some(Token::Key(name)) = reader.next() else {
        return None;
    };
    match (name, reader.next()) {
        ("id", Some(Token::Number(digits))) => Some(Part::Id(parse_number(digits)?)),
        ("text", Some(Token::String(text))) => Some(Part::Text(text)),
        _ => None,
    }
}
