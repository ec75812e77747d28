// What is counted of a property while calls are made.
#![tactic(auto)]

// The six fields: how many calls were accepted; how many of these left the property false; the first and the last of these, by call
// number, 0 if none; how many of them came in a row where most did; the call at which the property settled, 0 if it is open.
#[derive(Clone, Copy)]
pub struct Summary {
    pub accepted: u64,
    pub failed: u64,
    pub first: u64,
    pub last: u64,
    pub longest: u64,
    pub settled: u64,
}
