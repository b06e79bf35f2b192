// Document 01's rules about a key stand here as definitions, over the key as the document speaks of it: its buckets, oldest first, its limit, its
// cached factor. The values that the rules give are declared here; the crates above decide by them.
#![tactic(auto)]

use answers::RateLimitDecision;
use suppression::CachedFactor;

// Which limiter a room is for.
#[derive(Clone, Copy)]
pub enum RoomKind {
    Absolute,
    Suppressed,
}

// Which rule of the fresh factor applies: it is 0, it is 1, or it is worked out.
#[derive(Clone, Copy)]
pub enum FactorRule {
    Nil,
    One,
    Worked,
}

// A factor that is asked for, and what is cached: none, and the cached one is left.
#[derive(Clone, Copy)]
pub struct Asked {
    pub factor: f64,
    pub caching: Option<CachedFactor>,
}

// Where a forecast stands: equal to the hard limit, at most the soft one, over the hard one, or between them.
#[derive(Clone, Copy)]
pub enum Reach {
    Hard,
    Soft,
    Over,
    Between,
}

// What an increment decides: the decision, how much of the count is declined, and what becomes of the cached factor.
#[derive(Clone, Copy)]
pub struct Outcome {
    pub decision: RateLimitDecision,
    pub declined: u64,
    pub caching: Option<CachedFactor>,
}
