//! The rows of standard input are judged.

use crate::fault::Fault;
use crate::lines::{is_silent, name_of};
use crate::parts::row_name;
use crate::tally::Tally;
use std::alloc::Global;
use std::io;

/// What judges a row.
pub trait Judge {
    /// What differs from what a row expects, if anything does. The text is the whole file.
    fn difference<'t>(
        &self,
        alloc: Global,
        text: &'t str,
        row: &'t str,
    ) -> Result<Option<String>, Fault<'t>>;
}

/// How rows stand in a file.
#[derive(Clone, Copy)]
enum Layout {
    /// Each is a line that is neither empty nor a comment. Its name stands before its first bar.
    Lines,
    /// Each is a block between empty lines that begins with `row` and its name.
    Blocks,
}

impl Layout {
    /// What stands between rows.
    fn separator(self) -> &'static str {
        match self {
            Layout::Lines => "\n",
            Layout::Blocks => "\n\n",
        }
    }

    /// The name of a row, or None where this is no row.
    fn name_in<'t>(self, piece: &'t str) -> Option<&'t str> {
        match self {
            Layout::Lines if is_silent(piece) => None,
            Layout::Lines => Some(row_name(piece)),
            Layout::Blocks => name_of(piece, "row"),
        }
    }
}

/// Judges each line of standard input but empty ones and comments, and prints a line for each and
/// their number. A row's name stands before its first bar.
pub fn judge_lines<R: Print + Input, J: Judge>(rt: &R, alloc: Global, judge: &J) -> io::Result<()> {
    judge_input(rt, alloc, judge, Layout::Lines)
}

/// Judges each block of standard input, between empty lines, that begins with `row` and a name, and
/// prints a line for each and their number.
pub fn judge_blocks<R: Print + Input, J: Judge>(
    rt: &R,
    alloc: Global,
    judge: &J,
) -> io::Result<()> {
    judge_input(rt, alloc, judge, Layout::Blocks)
}

/// Judges the rows of standard input, which have this layout.
fn judge_input<R: Print + Input, J: Judge>(
    rt: &R,
    alloc: Global,
    judge: &J,
    layout: Layout,
) -> io::Result<()> {
    let text = io::read_to_string(alloc, rt.reader())?;
    judge_text(rt, alloc, judge, layout, text.as_str())
}

/// Judges the rows of a text, which have this layout, and prints a line for each and their number.
fn judge_text<R: Print, J: Judge>(
    rt: &R,
    alloc: Global,
    judge: &J,
    layout: Layout,
    text: &str,
) -> io::Result<()> {
    let mut tally = Tally::new();
    for piece in text.split(layout.separator()) {
        if let Some(name) = layout.name_in(piece) {
            tally.tell(rt, name, judge.difference(alloc, text, piece))?;
        }
    }
    tally.tell_count(rt)
}
