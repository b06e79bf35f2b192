// Only specs live here: what the user was promised, as theorems about the verdicts that the contracts name. Only `wrong` stands above it.
#![tactic(auto)]
