//! Numbers in decimal.

ghost use Rattle.std.specs.Prelude.{◌≡◌, ◌≤◌, IfSome};
ghost use Rattle.std.specs.Char.{is_ascii_digit};
ghost use Rattle.std.specs.List.{list_all};
ghost use Rattle.relation_words.specs.Numbers.{is_numeral, has_leading_zero, number_of, number_within};

/// The number that the word writes in decimal, without a sign or a leading zero. None for any other
/// word, and for a number of 2^64 or more.
pub(crate) fn read_number(word: &str) -> Option<u64>
    ensures { result ≡ number_of word.now }
{
    if is_numeral(word.as_bytes()) {
        word.parse::<u64>().ok()
    } else {
        None
    }
}

/// The number that the word writes in decimal, without a sign or a leading zero, where it is neither
/// below `least` nor above `most`. None for any other word.
pub fn read_within(least: u64, most: u64, word: &str) -> Option<u64>
    ensures value { result ≡ number_within least most word.now }
    ensures bounded { IfSome result (λ number. number ≤ most) }
{
    let number = read_number(word)?;
    if least <= number && number <= most {
        Some(number)
    } else {
        None
    }
}

/// Whether the bytes are decimal digits, one at least, without a leading zero.
fn is_numeral(bytes: &[u8]) -> bool
    ensures { result ≡ is_numeral bytes.now }
{
    !bytes.is_empty() && are_digits(bytes) && !has_leading_zero(bytes)
}

/// Whether a zero stands before another byte.
fn has_leading_zero(bytes: &[u8]) -> bool
    ensures { result ≡ has_leading_zero bytes.now }
{
    bytes.len() > 1 && bytes[0] == b'0'
}

/// Whether each byte is a decimal digit.
fn are_digits(bytes: &[u8]) -> bool
    ensures { result ≡ list_all is_ascii_digit bytes.now }
{
    bytes.iter().all(|byte| byte.is_ascii_digit())
}
