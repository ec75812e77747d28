// Rules as text, read as the words of a book.
#![tactic(auto)]

pub mod lay;
pub mod make;
pub mod read;
