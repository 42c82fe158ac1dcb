//! The answers of rows.

use crate::given::{file_of, input_of, sink_of, words_of};
use crate::running::{Program, program_of};
use pg_messages::{PgList, PgStr};
use pg_streams::{MemorySink, MemorySource};
use row_files::{Fault, next_part, push_digits, push_shown};
use std::alloc::{AllocError, Global};
use std::fmt::Write;

/// A text of more bytes than these is told by their number and their sum.
const LONG: usize = 10_000;

/// What a row gives its program, as it stands in the row.
#[derive(Clone, Copy)]
struct Given<'t> {
    program: Program,
    words: &'t str,
    file: &'t str,
    file_fails: &'t str,
    input: &'t str,
    input_fails: &'t str,
    out_fails: &'t str,
}

/// What the parts of a row give.
fn given_of<'t>(parts: &'t str) -> Result<Given<'t>, Fault<'t>> {
    let (program, parts) = next_part(parts)?;
    let program = program_of(program)?;
    let (words, parts) = next_part(parts)?;
    let (file, parts) = next_part(parts)?;
    let (file_fails, parts) = next_part(parts)?;
    let (input, parts) = next_part(parts)?;
    let (input_fails, out_fails) = next_part(parts)?;
    Ok(Given {
        program,
        words,
        file,
        file_fails,
        input,
        input_fails,
        out_fails,
    })
}

/// What the program tells of a row's words, file and input: its status, what it wrote, and the line
/// of errors.
pub fn answer_of<'t>(alloc: Global, parts: &'t str) -> Result<String, Fault<'t>> {
    let given = given_of(parts)?;
    let mut file = file_of(alloc, given.file, given.file_fails)?;
    answer_over(alloc, given, &mut file)
}

/// What the program tells of a row's words and input over this file.
fn answer_over<'t>(
    alloc: Global,
    given: Given<'t>,
    file: &mut MemorySource,
) -> Result<String, Fault<'t>> {
    let mut input = input_of(alloc, given.input, given.input_fails)?;
    let mut out = sink_of(alloc, given.out_fails)?;
    Ok(answer_to(alloc, given, file, &mut input, &mut out)?)
}

/// What the program tells of a row's words over this file and this input.
fn answer_to<'t>(
    alloc: Global,
    given: Given<'t>,
    file: &mut MemorySource,
    input: &mut MemorySource,
    out: &mut MemorySink,
) -> Result<String, AllocError> {
    let words = words_of(alloc, given.words)?;
    told(alloc, given.program, words.as_slice(), file, input, out)
}

/// What the program tells.
fn told(
    alloc: Global,
    program: Program,
    words: &[PgStr],
    file: &mut MemorySource,
    input: &mut MemorySource,
    out: &mut MemorySink,
) -> Result<String, AllocError> {
    let mut err = MemorySink::new(alloc, PgList::new(alloc));
    let status = program.run(alloc, words, file, input, out, &mut err);
    let mut answer = String::new(alloc);
    write!(answer, "{status}")?;
    put_written(&mut answer, " out ", out.bytes())?;
    put_written(&mut answer, " err ", err.bytes())?;
    Ok(answer)
}

/// Puts bytes behind a label, where there are any: many by their number and their sum; in
/// hexadecimal digits where a zero byte is among them; else as text.
fn put_written(text: &mut String, label: &str, bytes: &[u8]) -> Result<(), AllocError> {
    if bytes.is_empty() {
        return Ok(());
    }
    text.push_str(label)?;
    if bytes.len() > LONG {
        return put_sum(text, bytes);
    }
    if bytes.contains(&0) {
        text.push_str("hex ")?;
        return push_digits(text, bytes);
    }
    for byte in bytes {
        push_shown(text, char::from(*byte))?;
    }
    Ok(())
}

/// Puts how many bytes there are, and their sum.
fn put_sum(text: &mut String, bytes: &[u8]) -> Result<(), AllocError> {
    let len = bytes.len();
    let mut sum = 0u64;
    for byte in bytes {
        sum = sum.saturating_add(u64::from(*byte));
    }
    write!(text, "{len} bytes of sum {sum}")
}
