//! A command of a row is run.

use crate::given::{Sources, sources_of, words_of};
use crate::place::Place;
use crate::sink::Sinks;
use row_files::Fault;
use std::alloc::{AllocError, Global};
use std::sync::Wait;

/// Runs the words with the file, the client and the faults that the lines tell, and answers the
/// status, and whether there is a note.
pub fn run_told<'t, R: Wait>(
    rt: &R,
    alloc: Global,
    place: &mut Place,
    words: &'t str,
    text: &'t str,
    lines: &[&'t str],
    sinks: &mut Sinks,
) -> Result<(u8, bool), Fault<'t>> {
    let mut sources = sources_of(alloc, text, lines)?;
    Ok(run_words(rt, alloc, place, words, &mut sources, sinks)?)
}

/// Runs the words.
fn run_words<R: Wait>(
    rt: &R,
    alloc: Global,
    place: &mut Place,
    words: &str,
    sources: &mut Sources,
    sinks: &mut Sinks,
) -> Result<(u8, bool), AllocError> {
    let words = words_of(alloc, words)?;
    Ok(place.run(rt, alloc, words.as_slice(), sources, sinks))
}
