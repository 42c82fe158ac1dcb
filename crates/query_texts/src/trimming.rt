//! What is ignored around a query: whitespace and semicolons.

ghost use Rattle.std.specs.Prelude.{◌≡◌, take, drop};
ghost use Rattle.std.specs.Str.{IsCharBoundary};
ghost use Rattle.query_texts.specs.QueryTexts.{without_front_padding, without_end_padding, trimmed};

use pg_results::is_padding;

/// The query without the whitespace and semicolons at both ends.
pub fn trimmed(query: &str) -> &str
    ensures { result.now ≡ trimmed query.now }
{
    let rest = &query[front_padding(query)..];
    &rest[..end_padding(rest)]
}

/// The number of bytes of padding at the front.
fn front_padding(query: &str) -> usize
    ensures boundary { IsCharBoundary query.now result }
    ensures rest { drop result query.now ≡ without_front_padding query.now }
{
    let bytes = query.as_bytes();
    let mut start = 0;
    while start < bytes.len() && is_padding(bytes[start]) {
        start += 1;
    }
    start
}

/// Where the padding at the end begins.
fn end_padding(query: &str) -> usize
    ensures boundary { IsCharBoundary query.now result }
    ensures rest { take result query.now ≡ without_end_padding query.now }
{
    let bytes = query.as_bytes();
    let mut end = bytes.len();
    while end > 0 && is_padding(bytes[end - 1]) {
        end -= 1;
    }
    end
}
