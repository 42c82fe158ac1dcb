// Runs of bytes in an interval's text.
ghost use Rattle.std.specs.Prelude.{◌≡◌, ◌+◌, ◌≤◌, ◌++◌, ◌==◌, ◌||◌, length, true, false};
ghost use Rattle.std.specs.List.{prefix_len, list_all};
ghost use Rattle.pg_interval.specs.Texts.{is_digit, is_letter, is_sign, is_whitespace, begins};
ghost use Rattle.pg_interval.specs.PostgresText.{is_number_byte, trimmed_end, trimmed_start};
ghost use Rattle.pg_interval.specs.IsoText.{is_designator};
ghost use Rattle.pg_interval.specs.Reader.{is_kind};

/// The most bytes of a text that is read.
pub(super) const LONGEST_TEXT: usize = 4096;

/// The kind of the bytes in a run.
#[derive(Clone, Copy)]
pub(super) enum Kind {
    /// A decimal digit.
    Digit,
    /// A letter of ASCII.
    Letter,
    /// Whitespace: the space, and the bytes 9 to 13.
    Space,
    /// Any other byte than whitespace.
    Solid,
    /// A digit, a sign or a point.
    NumberByte,
    /// A digit or a point.
    DecimalByte,
    /// Any other byte than `T` and an item's letter.
    Unmarked,
    /// Any other byte than `-`.
    NoMinus,
    /// Any other byte than `:`.
    NoColon,
    /// Any other byte than `.`.
    NoPoint,
}

/// Is it a decimal digit?
#[inline(always)]
pub(super) fn is_digit(byte: u8) -> bool
    ensures { result ≡ is_digit byte }
{
    b'0' <= byte && byte <= b'9'
}

/// Is it a letter of ASCII?
#[inline(always)]
pub(super) fn is_letter(byte: u8) -> bool
    ensures { result ≡ is_letter byte }
{
    (b'A' <= byte && byte <= b'Z') || (b'a' <= byte && byte <= b'z')
}

/// Is it `+` or `-`?
#[inline(always)]
pub(super) fn is_sign(byte: u8) -> bool
    ensures { result ≡ is_sign byte }
{
    (byte == b'+') | (byte == b'-')
}

/// Is it the space, or one of the bytes 9 to 13?
#[inline(always)]
pub(super) fn is_whitespace(byte: u8) -> bool
    ensures { result ≡ is_whitespace byte }
{
    byte == b' ' || (9 <= byte && byte <= 13)
}

/// Is it a digit, a sign or a point?
#[inline(always)]
pub(super) fn is_number_byte(byte: u8) -> bool
    ensures { result ≡ is_number_byte byte }
{
    is_digit(byte) || is_sign(byte) || byte == b'.'
}

/// Is it `T` or an item's letter?
#[inline(always)]
fn is_mark(byte: u8) -> bool
    ensures { result ≡ (is_designator byte || byte == 84) }
{
    byte == b'Y' || byte == b'M' || byte == b'D' || byte == b'H' || byte == b'S' || byte == b'T'
}

/// Is the byte of this kind?
#[inline(always)]
fn is_kind(kind: Kind, byte: u8) -> bool
    ensures { result ≡ is_kind kind byte }
{
    match kind {
        Kind::Digit => is_digit(byte),
        Kind::Letter => is_letter(byte),
        Kind::Space => is_whitespace(byte),
        Kind::Solid => !is_whitespace(byte),
        Kind::NumberByte => is_number_byte(byte),
        Kind::DecimalByte => is_digit(byte) || byte == b'.',
        Kind::Unmarked => !is_mark(byte),
        Kind::NoMinus => byte != b'-',
        Kind::NoColon => byte != b':',
        Kind::NoPoint => byte != b'.',
    }
}

/// How many bytes of this kind the text begins with.
#[inline(always)]
pub(super) fn run_len(kind: Kind, text: &[u8]) -> usize
    ensures run { result ≡ prefix_len (is_kind kind) text.now }
    ensures within { result ≤ length text.now }
{
    for (place, byte) in text.iter().enumerate() {
        if !is_kind(kind, *byte) {
            return place;
        }
    }
    text.len()
}

/// The bytes of this kind that the text begins with, and what follows them.
#[inline(always)]
pub(super) fn cut(kind: Kind, text: &[u8]) -> (&[u8], &[u8])
    ensures parts { text.now ≡ result.0.now ++ result.1.now }
    ensures front { list_all (is_kind kind) result.0.now ≡ true }
    ensures back { begins (is_kind kind) result.1.now ≡ false }
    ensures long { length result.0.now + length result.1.now ≡ length text.now }
{
    text.split_at(run_len(kind, text))
}

/// The text without the whitespace that it begins with.
#[inline(always)]
pub(super) fn trim_start(text: &[u8]) -> &[u8]
    ensures rest { result.now ≡ trimmed_start text.now }
    ensures solid { begins is_whitespace result.now ≡ false }
    ensures long { length result.now ≤ length text.now }
{
    let (_space, rest) = text.split_at(run_len(Kind::Space, text));
    rest
}

/// The text without the whitespace at its end.
pub(super) fn trim_end(text: &[u8]) -> &[u8]
    ensures rest { result.now ≡ trimmed_end text.now }
    ensures long { length result.now ≤ length text.now }
{
    let mut end = text.len();
    while end > 0 && is_whitespace(text[end - 1]) {
        end -= 1;
    }
    let (rest, _space) = text.split_at(end);
    rest
}
