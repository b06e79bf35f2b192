// Only specs live here: demand 3 is sharp in each clause. specs/Sharp.antt has the statements, specs/Histories.antt the histories, computed.
#![tactic(auto)]
