// A book's rows, and the judging of a book that is handed over as words.
#![tactic(auto)]

pub mod check;
pub mod kind;
pub mod loading;
pub mod strict;

// How many kinds there are.
pub const KINDS: usize = 10;
