// Only specs live here: every line that `desk` prints reads back. It stands above `desk_laws` and `apart`, which are proved without the reader.
#![tactic(auto)]
