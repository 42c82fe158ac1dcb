//! The words of a COPY.

ghost use Rattle.std.specs.Prelude.{◌≡◌, ◌&&◌, Some, IfSome, codes};
ghost use Rattle.std.specs.Option.{option_copied};
ghost use Rattle.relation_tables.specs.Queries.{words, is_word, copied_name};

use query_texts::first_word;

/// The name in `COPY name TO STDOUT`. The other three words may be in any ASCII case. Any other
/// text gives None.
pub(crate) fn copied_name(text: &str) -> Option<&str>
    ensures { option_copied result ≡ copied_name (words text.now) }
{
    match plainly_copied_name(text) {
        Some(name) => Some(name),
        None => name_among_words(text),
    }
}

/// The name, where the other words are in capitals and one space stands between words, as in most
/// texts. Such a text is read once, and its words aren't counted.
fn plainly_copied_name(text: &str) -> Option<&str>
    ensures { IfSome result (λ name. copied_name (words text.now) ≡ Some name.now) }
{
    let rest = text.strip_prefix("COPY ")?;
    let (name, behind) = first_word(rest)?;
    if behind == " TO STDOUT" {
        Some(name)
    } else {
        None
    }
}

/// The name, where the other words are in any ASCII case and any whitespace stands between words.
#[cold]
#[inline(never)]
fn name_among_words(text: &str) -> Option<&str>
    ensures { option_copied result ≡ copied_name (words text.now) }
{
    let (copy, rest) = first_word(text)?;
    let (name, rest) = first_word(rest)?;
    let (to, rest) = first_word(rest)?;
    let (out, rest) = first_word(rest)?;
    if first_word(rest).is_none() && is_copy(copy, to, out) {
        Some(name)
    } else {
        None
    }
}

/// Whether words are COPY, TO and STDOUT, in any ASCII case.
fn is_copy(copy: &str, to: &str, out: &str) -> bool
    ensures { result ≡ (is_word copy.now (codes "COPY") && is_word to.now (codes "TO")
        && is_word out.now (codes "STDOUT")) }
{
    copy.eq_ignore_ascii_case("COPY")
        && to.eq_ignore_ascii_case("TO")
        && out.eq_ignore_ascii_case("STDOUT")
}
