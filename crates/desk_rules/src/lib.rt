// The kit desk as definitions (specs/), from kits and scans to the book and the calls that they become, and the theorems about them (proofs/).
// It has no code.
#![tactic(auto)]
