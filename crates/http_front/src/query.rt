ghost use Rattle.std.specs.Prelude.{⊤, ◌≡◌, ◌<◌, ◌≤◌, ◌∷◌, length, Some, None, MatchBool, MatchOption, slice_index, vec_capacity};
ghost use Rattle.http_front.specs.Queries.{decoded, meant, plain, put};

use httparse::parse_hex_digit;

/// Sets `text` to the bytes that the value of a query stands for: a plus is a space, a percent sign and two hexadecimal
/// digits are a byte, and any other byte is itself. It answers `false` where a percent sign lacks its digits.
pub(crate) fn decode(value: &[u8], text: &mut Vec<u8>) -> bool
    requires { length value.now ≤ vec_capacity text.old }
    ensures decoded { MatchBool result (decoded plain value.now ≡ Some text.new.items) (decoded plain value.now ≡ None) }
    ensures room { vec_capacity text.old ≤ vec_capacity text.new }
{
    text.clear();
    let mut left = value;
    while !left.is_empty() {
        let Some((byte, rest)) = next_byte(left) else {
            return false;
        };
        text.push_reserved(byte);
        left = rest;
    }
    true
}

/// The first byte that the bytes stand for, and those after its own; they are not empty.
fn next_byte(bytes: &[u8]) -> Option<(u8, &[u8])>
    requires { 0 < length bytes.now }
    ensures decoded { MatchOption result (decoded plain bytes.now ≡ None)
        (λ next. decoded plain bytes.now ≡ put next.0 (decoded plain next.1.now)) }
    ensures fewer { MatchOption result ⊤ (λ next. length next.1.now < length bytes.now) }
{
    if bytes[0] == b'%' {
        return escaped_byte(bytes);
    }
    Some((meant(bytes[0]), &bytes[1..]))
}

/// The byte that a percent sign and two digits stand for, and the bytes after them.
fn escaped_byte(bytes: &[u8]) -> Option<(u8, &[u8])>
    requires some { 0 < length bytes.now }
    requires sign { slice_index bytes.now 0 ≡ 37 }
    ensures decoded { MatchOption result (decoded plain bytes.now ≡ None)
        (λ next. decoded plain bytes.now ≡ put next.0 (decoded plain next.1.now)) }
    ensures fewer { MatchOption result ⊤ (λ next. length next.1.now < length bytes.now) }
{
    if bytes.len() < 3 {
        return None;
    }
    let Some(high) = parse_hex_digit(bytes[1]) else {
        return None;
    };
    let Some(low) = parse_hex_digit(bytes[2]) else {
        return None;
    };
    Some(((high * 16 + low) as u8, &bytes[3..]))
}

/// The byte that another byte than a percent sign stands for.
fn meant(byte: u8) -> u8
    ensures { result ≡ meant byte }
{
    if byte == b'+' { b' ' } else { byte }
}
