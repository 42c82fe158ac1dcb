//! The words of the command line, and those that ask a program to tell of itself.

ghost use Rattle.std.specs.Prelude.{◌≡◌, [], drop, map, IfOk, OnErr, string_bytes};
ghost use Rattle.std.specs.Option.{option_copied};
ghost use Rattle.std.specs.Vec.Iter.{into_iter_items};
ghost use Rattle.program_io.specs.Words.{told_text};

use pg_messages::{PgList, PgStr};
use std::alloc::{AllocError, Global};
use std::env::{Args, Env};
use std::{env, io};

/// The words of the command line, as [`words_of`] makes them of what the system tells.
pub fn read_words<R: Env + AllocGlobal>(rt: &R) -> Result<PgList<PgStr>, AllocError> {
    words_of(rt.alloc(), env::args(rt))
}

/// The words of a command line, without the program's name. Where the line could not be read, for
/// example since a word isn't UTF-8, there are no words. The error comes where memory ran out.
pub fn words_of(alloc: Global, args: io::Result<Args>) -> Result<PgList<PgStr>, AllocError>
    ensures words { IfOk args (λ args. IfOk result (λ words. words
        ≡ map string_bytes (drop 1 (into_iter_items args)))) }
    ensures faulty { OnErr args (IfOk result (λ words. words ≡ [])) }
{
    match args {
        Ok(args) => words_behind(alloc, args),
        Err(error) => no_words(alloc, &error),
    }
}

/// The words behind the first.
fn words_behind(alloc: Global, mut args: Args) -> Result<PgList<PgStr>, AllocError>
    ensures { IfOk result (λ words. words
        ≡ map string_bytes (drop 1 (into_iter_items args))) }
{
    let _name = args.next();
    let mut words = PgList::new(alloc);
    'behind: while let Some(word) = args.next() {
        words.push(PgStr::from_string(word))?;
    }
    Ok(words)
}

/// No words, or the error where want of memory is why they weren't read.
fn no_words(alloc: Global, error: &io::Error) -> Result<PgList<PgStr>, AllocError>
    ensures { IfOk result (λ words. words ≡ []) }
{
    match error.kind() {
        io::ErrorKind::OutOfMemory => Err(AllocError),
        _ => Ok(PgList::new(alloc)),
    }
}

/// The text that the words ask for: the help where they are the one word `--help`, the version where
/// they are the one word `--version`. None for any other words, which are to be obeyed.
pub fn told_word<'a>(words: &[PgStr], help: &'a str, version: &'a str) -> Option<&'a str>
    ensures { option_copied result ≡ told_text words.now help.now version.now }
{
    let [word] = words else {
        return None;
    };
    if word.as_str() == "--help" {
        Some(help)
    } else if word.as_str() == "--version" {
        Some(version)
    } else {
        None
    }
}
