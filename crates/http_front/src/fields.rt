ghost use Rattle.std.specs.Prelude.{◌≡◌, ◌≤◌, ◌∷◌, ◌++◌, ℕ, List, [], length, map, All};
ghost use Rattle.httparse.specs.Spans.{IsHeaderWithin, header_bytes};
ghost use Rattle.http_front.specs.Heads.{closes_by, connections, length_said, lengths, values_named};
ghost use Rattle.http_front.specs.Steps.{AreValues, is_closing};

use crate::closing::has_close;
use crate::numbers::read_number;
use httparse::spans::{HeaderSpan, Span};

/// The values of the fields of one name.
#[derive(Clone, Copy, Debug)]
pub(crate) enum Values {
    None,
    One(Span),
    Many,
}

/// The values of the fields of a name, of which case makes no difference.
pub(crate) fn field_values(bytes: &[u8], fields: &[HeaderSpan], name: &[u8]) -> Values
    requires { All (IsHeaderWithin (length bytes.now)) fields.now }
    ensures { AreValues bytes.now result (values_named name.now (map (header_bytes bytes.now) fields.now)) }
{
    let mut found = Values::None;
    for field in fields {
        found = with_field(found, bytes, field, name);
    }
    found
}

/// The values with that of a further field, where it has the name.
fn with_field(found: Values, bytes: &[u8], field: &HeaderSpan, name: &[u8]) -> Values
    requires { IsHeaderWithin (length bytes.now) field.now }
    ensures { (before : List (List ℕ)) → AreValues bytes.now found before →
        AreValues bytes.now result (before ++ values_named name.now (header_bytes bytes.now field.now ∷ [])) }
{
    if !field.name.of(bytes).eq_ignore_ascii_case(name) {
        return found;
    }
    match found {
        Values::None => Values::One(field.value),
        Values::One(_) | Values::Many => Values::Many,
    }
}

/// The length of the body, which one `Content-Length` says; without one it is 0. Two of them say none.
pub(crate) fn body_length(bytes: &[u8], fields: &[HeaderSpan]) -> Option<u64>
    requires { All (IsHeaderWithin (length bytes.now)) fields.now }
    ensures { result ≡ length_said (lengths (map (header_bytes bytes.now) fields.now)) }
{
    match field_values(bytes, fields, b"content-length") {
        Values::None => Some(0),
        Values::One(value) => read_number(value.of(bytes)),
        Values::Many => None,
    }
}

/// Whether a field asks to close the connection.
pub(crate) fn asks_to_close(bytes: &[u8], fields: &[HeaderSpan]) -> bool
    requires { All (IsHeaderWithin (length bytes.now)) fields.now }
    ensures { result ≡ closes_by (connections (map (header_bytes bytes.now) fields.now)) }
{
    for field in fields {
        if is_closing(bytes, field) {
            return true;
        }
    }
    false
}

/// Whether this field does.
fn is_closing(bytes: &[u8], field: &HeaderSpan) -> bool
    requires { IsHeaderWithin (length bytes.now) field.now }
    ensures { result ≡ is_closing (header_bytes bytes.now field.now) }
{
    field.name.of(bytes).eq_ignore_ascii_case(b"connection") && has_close(field.value.of(bytes))
}
