// Prints or reads many interval texts, and tells what came of it and how long it took. The words are
// `print COUNT [times]`: with `times` it tells the nanoseconds of a print as well. Or they are `read
// STYLE [ROUNDS]`, which reads the texts of standard input, one on each line. With ROUNDS it reads
// them ROUNDS times more, and tells the nanoseconds of a read.
#![tactic(auto)]

mod draw;
mod printing;
mod reading;
mod style;

use printing::print_drawn;
use reading::read_texts;
use std::alloc::Global;
use std::io::Input;
use std::time::Clock;
use std::{env, io};
use style::{Style, style_named};

fn main(rt: HostRuntime) -> io::Result<()> {
    let mut words = env::args(&rt)?;
    let _program = words.next();
    let reads = words.next().is_some_and(|word| word.as_str() == "read");
    let first = words.next();
    let second = words.next();
    if reads {
        read_lines(&rt, rt.alloc(), style_of(first), number_of(second))
    } else {
        let timed = second.is_some();
        print_drawn(&rt, rt.alloc(), number_of(first), timed)
    }
}

/// The number that the word tells, 0 where there is none.
fn number_of(word: Option<String>) -> u32 {
    word.map_or(0, |word| word.as_str().parse::<u32>().unwrap_or(0))
}

/// The style that the word names.
fn style_of(word: Option<String>) -> Style {
    word.map_or(style_named(""), |word| style_named(word.as_str()))
}

/// Reads the lines of standard input as texts in a style.
fn read_lines<R: Print + Clock + Input>(
    rt: &R,
    alloc: Global,
    style: Style,
    rounds: u32,
) -> io::Result<()> {
    let mut texts: Vec<String> = Vec::new(alloc);
    for line in rt.lines(alloc) {
        texts.push(line?)?;
    }
    read_texts(rt, style, rounds, texts.as_slice())
}
