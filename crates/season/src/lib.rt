// Only specs live here: what the gateway promises over a season. specs/Season.antt has the statements, specs/Own.antt the proof, specs/Wrong.antt wrong ones.
#![tactic(auto)]
