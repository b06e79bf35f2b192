// Only specs live here: that refusal 13 is given by nothing, and no number but those in the order of judging.
#![tactic(auto)]
