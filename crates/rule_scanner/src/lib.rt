// Rules as text: their symbols, what each symbol does to the reader, and whether a text is written as it should be.
#![tactic(auto)]

pub mod scan;
pub mod symbols;
pub mod turns;
