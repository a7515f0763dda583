ghost use Rattle.std.specs.Prelude.{◌≡◌};
ghost use Rattle.line_proto.specs.Forms.{number_of};

use line_proto::parse_number;
use std::str;

/// The number that bytes write as a line's word would.
pub(crate) fn read_number(word: &[u8]) -> Option<u64>
    ensures { result ≡ number_of word.now }
{
    let Ok(word) = str::from_utf8(word) else {
        return None;
    };
    parse_number(word)
}
