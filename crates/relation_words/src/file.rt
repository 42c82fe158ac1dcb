//! The file that the words name.

ghost use Rattle.std.specs.Prelude.{◌≡◌, slice_get};
ghost use Rattle.std.specs.Option.{option_copied};
ghost use Rattle.relation_words.specs.File.{file_of};

use crate::commands::is_serving;
use crate::listening::is_listening;
use pg_messages::PgStr;

/// FILE, which is any word, of a good `serve` or a good `listen`. None for any other words.
pub fn file_word<'a>(words: &'a [PgStr]) -> Option<&'a str>
    ensures { option_copied result ≡ file_of words.now }
{
    if is_serving(words) {
        word_at(words, 1)
    } else if is_listening(words) {
        word_at(words, 3)
    } else {
        None
    }
}

/// The word at this place, counted from 0.
fn word_at<'a>(words: &'a [PgStr], place: usize) -> Option<&'a str>
    ensures { option_copied result ≡ slice_get words.now place }
{
    let word = words.get(place)?;
    Some(word.as_str())
}
