// Only specs live here: what a key's buckets know of the counts that were admitted, and what an admission by the hard limit makes of any span.
#![tactic(auto)]
