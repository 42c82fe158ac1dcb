//! How many rows a FETCH asks for.

ghost use Rattle.std.specs.Prelude.{◌≡◌};
ghost use Rattle.std.specs.Char.{is_ascii_digit};
ghost use Rattle.std.specs.List.{list_all};
ghost use Rattle.cursor_commands.specs.Limits.{is_count, count_of, limit_of};

/// The limit of rows that a word tells: 1 to 2147483647 in decimal without a leading zero; or ALL,
/// in any ASCII case, which is 0. None for any other word.
pub(crate) fn read_limit(word: &str) -> Option<i32>
    ensures { result ≡ limit_of word.now }
{
    if word.eq_ignore_ascii_case("ALL") {
        return Some(0);
    }
    read_count(word)
}

/// The number of rows that a word tells in decimal.
fn read_count(word: &str) -> Option<i32>
    ensures { result ≡ count_of word.now }
{
    if is_count(word.as_bytes()) {
        word.parse::<i32>().ok()
    } else {
        None
    }
}

/// Whether the bytes are decimal digits, one at least, of which the first isn't zero.
fn is_count(bytes: &[u8]) -> bool
    ensures { result ≡ is_count bytes.now }
{
    !bytes.is_empty() && are_digits(bytes) && bytes[0] != b'0'
}

/// Whether each byte is a decimal digit.
fn are_digits(bytes: &[u8]) -> bool
    ensures { result ≡ list_all is_ascii_digit bytes.now }
{
    bytes.iter().all(|byte| byte.is_ascii_digit())
}
