//! Lines and fields.

ghost use Rattle.std.specs.Prelude.{◌≡◌, ◌∷◌, length};
ghost use Rattle.std.specs.Str.Lines.{strip_carriage_return};
ghost use Rattle.relation_files.specs.Lines.{fields_of};
ghost use Rattle.relation_files.specs.Reader.{fields_behind};

/// A line without the `\r` that it may end with.
pub(crate) fn without_return(line: &[u8]) -> &[u8]
    ensures { result.now ≡ strip_carriage_return line.now }
{
    let len = line.len();
    if len > 0 && line[len - 1] == b'\r' {
        &line[..len - 1]
    } else {
        line
    }
}

/// The first field, and the others, if there are any.
pub(crate) fn first_field(text: &str) -> (&str, Option<&str>)
    ensures { fields_of text.now ≡ result.0.now ∷ fields_behind result.1 }
{
    match text.split_once('\t') {
        None => (text, None),
        Some((field, others)) => (field, Some(others)),
    }
}

/// How many fields there are.
pub(crate) fn field_count(text: &str) -> usize
    ensures { result ≡ length (fields_of text.now) }
{
    text.split('\t').count()
}
