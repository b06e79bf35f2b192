// Only specs live here: which promise each kind of wrong limiter cannot keep. It stands above `promises`, so that an edit there proves little again.
#![tactic(auto)]
