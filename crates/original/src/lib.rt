// The Rust original, oracle.rs and oracle/numset.rs, as definitions (specs/), and the proof that it answers as the logic does (proofs/). It has no code.
#![tactic(auto)]
