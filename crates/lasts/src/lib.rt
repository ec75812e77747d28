// The lasting way: what it means, in terms of histories, and the proof that one step for each call does what a call at every instant between would do.
// It has no code.
#![tactic(auto)]
