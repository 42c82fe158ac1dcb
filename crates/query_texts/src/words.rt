//! The words of a text, which whitespace separates.

ghost use Rattle.std.specs.Prelude.{◌≡◌, ◌<◌, false, [], ◌∷◌, IsNone, IfSome, length, take, drop};
ghost use Rattle.std.specs.Str.{IsCharBoundary};
ghost use Rattle.pg_results.specs.Texts.{is_whitespace};
ghost use Rattle.query_texts.specs.QueryTexts.{words};
ghost use Rattle.query_texts.specs.Stops.{StopsAt};

/// The first word, and the text after it. None comes where the text is only whitespace.
pub fn first_word(text: &str) -> Option<(&str, &str)>
    ensures none { IsNone result → words text.now ≡ [] }
    ensures some { IfSome result (λ p. words text.now ≡ p.0.now ∷ words p.1.now) }
{
    let rest = &text[front_whitespace(text)..];
    if rest.is_empty() {
        return None;
    }
    let len = word_len(rest);
    Some((&rest[..len], &rest[len..]))
}

/// Whether a byte is whitespace.
fn is_whitespace(byte: u8) -> bool
    ensures { result ≡ is_whitespace byte }
{
    (9 <= byte && byte <= 13) || byte == b' '
}

/// The number of bytes of whitespace at the front.
fn front_whitespace(text: &str) -> usize
    ensures boundary { IsCharBoundary text.now result }
    ensures rest { words (drop result text.now) ≡ words text.now }
    ensures stop { StopsAt false (drop result text.now) }
{
    let bytes = text.as_bytes();
    let mut start = 0;
    while start < bytes.len() && is_whitespace(bytes[start]) {
        start += 1;
    }
    start
}

/// The number of bytes before the first whitespace of a text that begins with a word.
fn word_len(text: &str) -> usize
    requires some { 0 < length text.now }
    requires word { StopsAt false text.now }
    ensures boundary { IsCharBoundary text.now result }
    ensures word { words text.now ≡ take result text.now ∷ words (drop result text.now) }
{
    let bytes = text.as_bytes();
    let mut len = 0;
    while len < bytes.len() && !is_whitespace(bytes[len]) {
        len += 1;
    }
    len
}
