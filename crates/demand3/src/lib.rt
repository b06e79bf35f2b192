// Only specs live here: document 01's demand 3 of the suppressed limiter. specs/Demand3.antt has the statements, specs/History.antt what they speak of.
#![tactic(auto)]
