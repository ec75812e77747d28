// Tidies a book: makes steps that fit, and refuses others, whoever proposed them.
#![tactic(auto)]

pub mod fit;
pub mod lay;
pub mod tidy;
