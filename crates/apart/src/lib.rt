// Only specs live here: what one party's calls are answered does not depend on the other party.
#![tactic(auto)]
