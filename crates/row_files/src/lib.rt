//! Files of rows: how the programs that try tables of cases read a row's parts, bytes and numbers,
//! and how they tell what came of each row and how many there were.
#![tactic(auto)]

mod escapes;
mod fault;
mod hexadecimal;
mod judge;
mod lines;
mod lists;
mod parts;
mod tally;

pub use escapes::{push_repeated, push_shown, push_unescaped, unescaped};
pub use fault::Fault;
pub use hexadecimal::{hex_words, push_digits, push_hex, push_pairs};
pub use judge::{Judge, judge_blocks, judge_lines};
pub use lines::{lines_of, name_of, number_told, numbers_of, told, told_by};
pub use lists::{singles, up_to_one};
pub use parts::{
    common_len, last_part, next_part, parsed, part, three_numbers, times_and_rest, unexpected,
};
pub use tally::Tally;
