// A book's properties, printed as text.
#![tactic(auto)]

pub mod print;
pub mod put;
pub mod walk;
