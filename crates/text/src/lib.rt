// Text, REFERENCE 7: its words, read forwards, and its numbers, written in decimal digits.
#![tactic(auto)]

mod decimals;
mod words;

pub use decimals::{MOST_DIGITS, count_up, decimal, write_last};
pub use words::{Word, before_last, next_number, next_short, next_word, parts};
