// The words that options have as values.
ghost use Rattle.std.specs.Prelude.{◌≡◌, ◌⊎◌, ◌≤◌, length, take, drop, bytes_eq};
ghost use Rattle.std.specs.Str.{str_to_ascii_lowercase};
ghost use Rattle.pg_interval.specs.Texts.{is_whitespace};
ghost use Rattle.pg_interval.specs.PostgresText.{trimmed_start, trimmed_end, trimmed};

/// Whether a byte is whitespace: 09 to 0D and 20.
fn is_whitespace(byte: u8) -> bool
    ensures { result ≡ is_whitespace byte }
{
    byte == b' ' || (9 <= byte && byte <= 13)
}

/// The text without the whitespace at its start.
#[tactic(auto, using(crate::proofs::Trimming::start_step, crate::proofs::Trimming::start_stop))]
fn trimmed_start(text: &[u8]) -> &[u8]
    ensures { result.now ≡ trimmed_start text.now }
{
    let mut start = 0;
    while start < text.len() && is_whitespace(text[start]) {
        start += 1;
    }
    &text[start..]
}

/// The text without the whitespace at its end.
#[tactic(auto, using(crate::proofs::Trimming::end_step, crate::proofs::Trimming::end_stop))]
fn trimmed_end(text: &[u8]) -> &[u8]
    ensures { result.now ≡ trimmed_end text.now }
{
    let mut end = text.len();
    while end > 0 && is_whitespace(text[end - 1]) {
        end -= 1;
    }
    &text[..end]
}

/// The text without the whitespace at both ends.
pub(crate) fn trimmed(text: &str) -> &[u8]
    ensures { result.now ≡ trimmed text.now }
{
    trimmed_end(trimmed_start(text.as_bytes()))
}

/// Whether the text in lower case is this name, which is in lower case.
pub(crate) fn is_name(text: &[u8], name: &str) -> bool
    requires { str_to_ascii_lowercase name.now ≡ name.now }
    ensures { result ≡ bytes_eq name.now (str_to_ascii_lowercase text.now) }
{
    text.eq_ignore_ascii_case(name.as_bytes())
}
