//! Rows that are blocks of lines, each of which begins with a word.

use crate::fault::Fault;
use crate::parts::parsed;
use std::alloc::Global;

/// What a line says behind this word, or None where it begins with another.
pub fn told_by<'t>(line: &'t str, word: &str) -> Option<&'t str> {
    let (first, rest) = line.split_once(" ").unwrap_or((line, ""));
    if first == word {
        Some(rest.trim())
    } else {
        None
    }
}

/// Whether a line says nothing: it is empty, or a comment.
pub(crate) fn is_silent(line: &str) -> bool {
    line.is_empty() || line.starts_with("#")
}

/// The name of a block that begins with this word, or None where it is no such block.
pub fn name_of<'t>(block: &'t str, word: &str) -> Option<&'t str> {
    for line in block.lines() {
        if !is_silent(line) {
            return told_by(line, word);
        }
    }
    None
}

/// The lines of a block that say something, where each `use` stands for the lines of the block that
/// it names. Each line begins with one of the words.
pub fn lines_of<'t>(
    alloc: Global,
    text: &'t str,
    block: &'t str,
    words: &[&str],
) -> Result<Vec<&'t str>, Fault<'t>> {
    let mut lines = Vec::new(alloc);
    for line in block.lines() {
        push_used(&mut lines, text, line, words)?;
    }
    Ok(lines)
}

/// Appends a line, or the lines of the block that it names.
fn push_used<'t>(
    lines: &mut Vec<&'t str>,
    text: &'t str,
    line: &'t str,
    words: &[&str],
) -> Result<(), Fault<'t>> {
    match told_by(line, "use") {
        None => push_line(lines, line, words),
        Some(name) => push_lines(lines, defined(text, name)?, words),
    }
}

/// The block that defines this name.
fn defined<'t>(text: &'t str, name: &'t str) -> Result<&'t str, Fault<'t>> {
    for block in text.split("\n\n") {
        if name_of(block, "define") == Some(name) {
            return Ok(block);
        }
    }
    Err(Fault::Line(name))
}

/// Appends the lines of a block.
fn push_lines<'t>(
    lines: &mut Vec<&'t str>,
    block: &'t str,
    words: &[&str],
) -> Result<(), Fault<'t>> {
    for line in block.lines() {
        push_line(lines, line, words)?;
    }
    Ok(())
}

/// Appends a line that begins with one of the words; one that says nothing is left out.
fn push_line<'t>(lines: &mut Vec<&'t str>, line: &'t str, words: &[&str]) -> Result<(), Fault<'t>> {
    if is_silent(line) {
        return Ok(());
    }
    let (first, _) = line.split_once(" ").unwrap_or((line, ""));
    if !words.contains(&first) {
        return Err(Fault::Line(line));
    }
    Ok(lines.push(line)?)
}

/// What the first line with this word says.
pub fn told<'t>(lines: &[&'t str], word: &str) -> Option<&'t str> {
    for line in lines {
        if let Some(rest) = told_by(line, word) {
            return Some(rest);
        }
    }
    None
}

/// The number that a line with this word tells, if there is one.
pub fn number_told<'t>(lines: &[&'t str], word: &str) -> Result<Option<u64>, Fault<'t>> {
    match told(lines, word) {
        None => Ok(None),
        Some(digits) => Ok(Some(parsed(digits)?)),
    }
}

/// The numbers of a line.
pub fn numbers_of<'t>(alloc: Global, words: &'t str) -> Result<Vec<usize>, Fault<'t>> {
    let mut numbers = Vec::new(alloc);
    for word in words.split_whitespace() {
        numbers.push(parsed(word)?)?;
    }
    Ok(numbers)
}
