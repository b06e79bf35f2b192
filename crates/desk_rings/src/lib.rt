// Only laws live here: that `desk` and `shots` print no code 12 where their rings suffice.
#![tactic(auto)]
