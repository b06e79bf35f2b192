// Only specs live here: what each call leaves of a room, told by document 01's rules. It stands above the calls, so that an edit of a call proves little again.
#![tactic(auto)]
