// Only specs live here: how long a ring must be for refusal 12 never to be met, over whole histories.
#![tactic(auto)]
