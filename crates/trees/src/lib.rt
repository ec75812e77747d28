// Properties as trees, and the rows that they are numbered as: operands first, left to right.
#![tactic(auto)]

pub mod book_words;
pub mod rows;
pub mod walk;
