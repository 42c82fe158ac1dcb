//! What the texts of queries mean.

ghost use Rattle.std.specs.Prelude.{◌≡◌};
ghost use Rattle.sample_handlers.specs.Meanings.{meaning, meaning_of, other_meaning_of};

use query_texts::trimmed;

/// What a query means.
#[derive(Clone, Copy)]
pub enum SampleStatement {
    /// `pair`: two rows.
    Pair,
    /// `broken`: a row, an error, and another row twice.
    Broken,
    /// `long`: 20,000 rows, an error, and another row.
    Long,
    /// `in`: data from the client.
    CopyIn,
    /// `out`: binary data from the server.
    CopyOut,
    /// `both`: data of both sides.
    CopyBoth,
    /// `failed`: an error in place of rows.
    Failed,
    /// `done`: a command that inserted a row.
    Done,
    /// `late`: two rows, after one poll.
    Late,
    /// `nothing`: the answer to a blank query.
    Nothing,
}

/// What a query means. Whitespace and semicolons at both ends count for nothing.
pub(crate) fn meaning(query: &str) -> Option<SampleStatement>
    ensures { result ≡ meaning query.now }
{
    meaning_of(trimmed(query))
}

/// What a trimmed text means.
pub(crate) fn meaning_of(text: &str) -> Option<SampleStatement>
    ensures { result ≡ meaning_of text.now }
{
    if text == "pair" {
        Some(SampleStatement::Pair)
    } else if text == "broken" {
        Some(SampleStatement::Broken)
    } else if text == "long" {
        Some(SampleStatement::Long)
    } else if text == "in" {
        Some(SampleStatement::CopyIn)
    } else if text == "out" {
        Some(SampleStatement::CopyOut)
    } else if text == "both" {
        Some(SampleStatement::CopyBoth)
    } else {
        other_meaning_of(text)
    }
}

/// What a trimmed text means that asks neither for rows at once nor for a COPY.
fn other_meaning_of(text: &str) -> Option<SampleStatement>
    ensures { result ≡ other_meaning_of text.now }
{
    if text == "failed" {
        Some(SampleStatement::Failed)
    } else if text == "done" {
        Some(SampleStatement::Done)
    } else if text == "late" {
        Some(SampleStatement::Late)
    } else if text == "nothing" {
        Some(SampleStatement::Nothing)
    } else {
        None
    }
}
