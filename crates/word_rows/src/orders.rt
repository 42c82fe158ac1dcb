//! What words of the command line order, as a line.

use pg_messages::{PgList, PgStr};
use relation_words::{
    Command, ListenPlace, Load, Service, file_word, listen_count, listen_place, read_command,
};
use row_files::push_digits;
use std::alloc::{AllocError, Global};

/// What the words of a text order.
pub fn order_answer(alloc: Global, text: &str) -> Result<String, AllocError> {
    let words = words_of(alloc, text)?;
    order_of(alloc, words.as_slice())
}

/// The words, which stand apart by single spaces; `-` is no word.
fn words_of(alloc: Global, text: &str) -> Result<PgList<PgStr>, AllocError> {
    let mut words = PgList::new(alloc);
    if text != "-" {
        for word in text.split(" ") {
            words.push(PgStr::copy_of(alloc, word)?)?;
        }
    }
    Ok(words)
}

/// What the words order.
fn order_of(alloc: Global, words: &[PgStr]) -> Result<String, AllocError> {
    let file = file_word(words);
    match read_command(alloc, words)? {
        Some(Command::Serve(service)) => service_line(alloc, file, &service),
        Some(Command::Demo(load)) => load_line(alloc, file, load),
        None => place_line(alloc, words, file),
    }
}

/// A service: its file, pid, key and turns.
fn service_line(
    alloc: Global,
    file: Option<&str>,
    service: &Service,
) -> Result<String, AllocError> {
    let (pid, turns) = (service.pid, service.turns);
    let mut digits = String::new(alloc);
    push_digits(&mut digits, service.key.as_slice())?;
    format!(in alloc; "serve {file:?} {pid} {digits} {turns}")
}

/// A load: its seed and count.
fn load_line(alloc: Global, file: Option<&str>, load: Load) -> Result<String, AllocError> {
    let Load { seed, count } = load;
    format!(in alloc; "demo {file:?} {seed} {count}")
}

/// A place to listen at: its port or path, file and bound. Words that order nothing at all are
/// `usage`.
fn place_line(alloc: Global, words: &[PgStr], file: Option<&str>) -> Result<String, AllocError> {
    let count = listen_count(words);
    match listen_place(words) {
        Some(ListenPlace::Tcp(port)) => format!(in alloc; "tcp {port} {file:?} {count:?}"),
        Some(ListenPlace::Unix(path)) => format!(in alloc; "unix {path:?} {file:?} {count:?}"),
        None => format!(in alloc; "usage {file:?} {count:?}"),
    }
}
