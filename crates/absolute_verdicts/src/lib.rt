// The absolute limiter's own calls as verdicts: what each answers and leaves, for every input. Laws alone; the code stands above.
#![tactic(auto)]
