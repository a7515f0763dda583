ghost use Rattle.std.specs.Prelude.{MatchBool, List, ℕ, ◌≡◌, ◌++◌};
ghost use Rattle.httparse.specs.Grammar.{AllPass, EndsInTarget, LineEnd, is_uri_byte, print_blank};
ghost use Rattle.http_front.specs.Steps.{BeginsNewline};

use httparse::{is_token, is_uri_token};

/// Whether the bytes end within the target of a request. So long, a target that isn't UTF-8 may be read on.
pub(crate) fn ends_in_target(bytes: &[u8]) -> bool
    ensures { MatchBool result (EndsInTarget bytes.now) (EndsInTarget bytes.now → ⊥) }
{
    let line = after_blank(bytes);
    let mut at = 0;
    while at < line.len() {
        if line[at] == b' ' {
            return is_token(&line[..at]) && is_target(&line[at + 1..]);
        }
        at += 1;
    }
    false
}

/// Whether each of the bytes may stand in a target.
fn is_target(bytes: &[u8]) -> bool
    ensures { MatchBool result (AllPass is_uri_byte bytes.now) (AllPass is_uri_byte bytes.now → ⊥) }
{
    for byte in bytes {
        if !is_uri_token(*byte) {
            return false;
        }
    }
    true
}

/// The bytes after the empty lines.
fn after_blank(bytes: &[u8]) -> &[u8]
    ensures { (ends : List LineEnd) × (bytes.now ≡ print_blank ends ++ result.now) × (BeginsNewline result.now → ⊥) }
{
    let mut at = 0;
    loop {
        if at < bytes.len() && bytes[at] == b'\n' {
            at += 1;
        } else if at + 1 < bytes.len() && bytes[at] == b'\r' && bytes[at + 1] == b'\n' {
            at += 2;
        } else {
            return &bytes[at..];
        }
    }
}
