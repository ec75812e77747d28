// A summary for each property, kept call by call, and that it is what a recount of the report's lines gives. It has no code.
#![tactic(auto)]
