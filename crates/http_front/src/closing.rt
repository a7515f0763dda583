ghost use Rattle.std.specs.Prelude.{◌≡◌, ◌≤◌, length, slice_range};
ghost use Rattle.httparse.specs.Grammar.{trim_ows};
ghost use Rattle.http_front.specs.Heads.{has_close, is_close};

use httparse::is_space_or_tab;

/// Whether `close` is one of the options that commas part, of which case makes no difference.
pub(crate) fn has_close(value: &[u8]) -> bool
    ensures { result ≡ has_close value.now }
{
    let mut start = 0;
    for at in 0..value.len() {
        if value[at] == b',' {
            if is_close(&value[start..at]) {
                return true;
            }
            start = at + 1;
        }
    }
    is_close(&value[start..])
}

/// Whether an option is `close`, without the white space around it.
fn is_close(option: &[u8]) -> bool
    ensures { result ≡ is_close option.now }
{
    trim(option).eq_ignore_ascii_case(b"close")
}

/// The bytes without the spaces and tabs at both ends.
fn trim(bytes: &[u8]) -> &[u8]
    ensures { result.now ≡ trim_ows bytes.now }
{
    let mut start = 0;
    let mut end = bytes.len();
    while start < end && is_space_or_tab(bytes[start]) {
        start += 1;
    }
    while start < end && is_space_or_tab(bytes[end - 1]) {
        end -= 1;
    }
    &bytes[start..end]
}
