// Only specs live here: what is promised of units, limits, shares, the factor and the draw. No code needs them.
#![tactic(auto)]
