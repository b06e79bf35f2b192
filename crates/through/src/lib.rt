// Only laws live here: what the limiter promises holds of a gateway's shots too.
#![tactic(auto)]
