//! What the `main` of a program does with the outside: it reads the words of the command line,
//! writes the help or the version, opens the file that the words name, and takes the standard
//! streams.
#![tactic(auto)]

mod opened_file;
mod standard;
mod telling;
mod words;

pub use opened_file::{OpenedFile, open_file};
pub use standard::{sink_over, standard_input};
pub use telling::{out_of_memory, tell, words_to_obey};
pub use words::{read_words, told_word, words_of};
