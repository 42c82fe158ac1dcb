// Answers rows on interval texts, options and cells, one on each line. A row is a word and its
// fields, with `|` between them. What is printed of a cell begins with the byte `>`, which stands in
// the buffer before the cell is appended.
#![tactic(auto)]

mod cells;
mod intervals;
mod options;
mod told;

use std::io;

fn main(rt: HostRuntime) -> io::Result<()> {
    for line in rt.lines(rt.alloc()) {
        answer_line(&rt, line?)?;
    }
    Ok(())
}

fn answer_line(rt: &HostRuntime, row: String) -> io::Result<()> {
    answer_row(rt, row.as_str())
}

/// Prints a row and the answer to it.
fn answer_row(rt: &HostRuntime, row: &str) -> io::Result<()> {
    print!(rt; "{row} => ")?;
    let (word, fields) = cut(row);
    match word {
        "read" | "print" | "error" => intervals::answer(rt, word, fields),
        _ => options::answer(rt, word, fields),
    }
}

/// The first field and the others.
fn cut(fields: &str) -> (&str, &str) {
    fields.split_once('|').unwrap_or((fields, ""))
}
