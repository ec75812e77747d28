// What a report says: the demands of what is printed, for every input. It has no code.
#![tactic(auto)]
