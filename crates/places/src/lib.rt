// Only specs live here: where a call changes a room, that every other key's slot stands then, and what a sound room is. The steps of `steps` are told by it.
#![tactic(auto)]
