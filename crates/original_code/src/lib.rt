// The original and our entries: after loading and any calls, what our code hands back is what the transcribed original answers. It has no code.
#![tactic(auto)]
