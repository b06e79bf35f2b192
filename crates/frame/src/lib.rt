// Only laws live here: what stands in a room after a change, for the crates above to cite.
#![tactic(auto)]
