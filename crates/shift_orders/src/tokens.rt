//! The tokens of a query: words and quoted texts.

ghost use Rattle.std.specs.Prelude.{◌≡◌, [], ◌∷◌, IsNone, IfOk, IfSome, take, drop};
ghost use Rattle.std.specs.Str.{IsCharBoundary};
ghost use Rattle.pg_results.specs.Texts.{is_whitespace};
ghost use Rattle.shift_orders.specs.Tokens.{is_ended, tokens};
ghost use Rattle.shift_orders.specs.Stops.{IsTrimmedInFront, BeginsWord, HasNoWord, ends_word, tokens_within};

use pg_messages::PgStr;
use std::alloc::{AllocError, Global};
use std::marker::Model;

/// A token of a query.
#[derive(Debug, Drop)]
pub(crate) enum Token {
    /// Bytes between whitespace and quotes.
    Word(PgStr),
    /// What stands between two quotes. Two quotes in it stood for one.
    Quoted(PgStr),
}

/// What is left of a query, token by token.
#[derive(Drop)]
pub(crate) struct Tokens<'a> {
    rest: &'a str,
}

impl<'a> Model for Tokens<'a> {
    ghost use Rattle.std.specs.Prelude.{List};
    ghost use Rattle.shift_orders.specs.declared.tokens.Token.{Token};
    ghost use Rattle.shift_orders.specs.Tokens.{tokens};

    ghost Value = { List Token };

    ghost view = { λ t. tokens t.rest.now };
}

impl<'a> Tokens<'a> {
    /// The tokens of a text.
    pub(crate) fn new(text: &'a str) -> Tokens<'a>
        ensures { result ≡ tokens text.now }
    {
        Tokens { rest: text }
    }

    /// Takes the first token, where it is a word. None where it is none, or no token is left.
    pub(crate) fn next_word(&mut self) -> Option<&'a str>
        ensures word { IfSome result (λ word. self.old ≡ Token.Word word.now ∷ self.new) }
        ensures none { IsNone result → HasNoWord self.old }
    {
        let text = &self.rest[front_whitespace(self.rest)..];
        if text.is_empty() {
            return None;
        }
        if let Some(_) = text.strip_prefix('\'') {
            return None;
        }
        let len = word_len(text);
        self.rest = &text[len..];
        Some(&text[..len])
    }

    /// Takes the first token; None where there is none.
    pub(crate) fn next(&mut self, alloc: Global) -> Result<Option<Token>, AllocError>
        ensures none { IfOk result (λ token. IsNone token → self.old ≡ []) }
        ensures some { IfOk result (λ token. IfSome token (λ t. self.old ≡ t ∷ self.new)) }
    {
        let text = &self.rest[front_whitespace(self.rest)..];
        if text.is_empty() {
            return Ok(None);
        }
        if let Some(behind) = text.strip_prefix('\'') {
            return match quoted(alloc, behind) {
                Ok((content, rest)) => {
                    self.rest = rest;
                    Ok(Some(Token::Quoted(content)))
                }
                Err(error) => Err(error),
            };
        }
        let len = word_len(text);
        let word = PgStr::copy_of(alloc, &text[..len])?;
        self.rest = &text[len..];
        Ok(Some(Token::Word(word)))
    }
}

/// Whether each quoted text of a query is ended.
pub(crate) fn is_ended(text: &str) -> bool
    ensures { result ≡ is_ended text.now }
{
    text.as_bytes()
        .iter()
        .filter(|byte| **byte == b'\'')
        .count()
        % 2
        == 0
}

/// Whether a byte is whitespace.
fn is_whitespace(byte: u8) -> bool
    ensures { result ≡ is_whitespace byte }
{
    (9 <= byte && byte <= 13) || byte == b' '
}

/// Whether a byte ends a word.
fn ends_word(byte: u8) -> bool
    ensures { result ≡ ends_word byte }
{
    is_whitespace(byte) || byte == b'\''
}

/// The number of bytes of whitespace at the front.
fn front_whitespace(text: &str) -> usize
    ensures boundary { IsCharBoundary text.now result }
    ensures rest { tokens (drop result text.now) ≡ tokens text.now }
    ensures stop { IsTrimmedInFront (drop result text.now) }
{
    let bytes = text.as_bytes();
    let mut start = 0;
    while start < bytes.len() && is_whitespace(bytes[start]) {
        start += 1;
    }
    start
}

/// The number of bytes of the word that stands at the front.
fn word_len(text: &str) -> usize
    requires { BeginsWord text.now }
    ensures boundary { IsCharBoundary text.now result }
    ensures word { tokens text.now ≡ Token.Word (take result text.now) ∷ tokens (drop result text.now) }
{
    let bytes = text.as_bytes();
    let mut len = 0;
    while len < bytes.len() && !ends_word(bytes[len]) {
        len += 1;
    }
    len
}

/// The quoted text whose first quote stands before a text, and what stands behind the quote that ends
/// it. One that isn't ended reaches to the end.
fn quoted(alloc: Global, text: &str) -> Result<(PgStr, &str), AllocError>
    ensures { IfOk result (λ p. tokens_within text.now ≡ Token.Quoted p.0 ∷ tokens p.1.now) }
{
    let mut content = String::new(alloc);
    let mut rest = text;
    'pieces: while let Some((inside, behind)) = rest.split_once('\'') {
        content.push_str(inside)?;
        let Some(more) = behind.strip_prefix('\'') else {
            return Ok((PgStr::from_string(content), behind));
        };
        content.push('\'')?;
        rest = more;
    }
    content.push_str(rest)?;
    Ok((PgStr::from_string(content), ""))
}
