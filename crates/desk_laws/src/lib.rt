// Only specs live here: what `desk` or `shots` prints for a whole input, told line by line. It stands above `desk_feed`, so that an edit
// there proves little again.
#![tactic(auto)]
