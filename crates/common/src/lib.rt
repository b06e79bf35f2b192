// The leaf: units, limits and comparator. Whatever the room keeps of doubles goes through here as words.
#![tactic(auto)]

mod comparator;
mod limits;
mod refusal;
mod units;
mod words;

pub use comparator::RateLimitComparator;
pub use limits::{absolute_limit, cut, cut_limit, hard_limit, is_limit, soft_limit};
pub use refusal::Refusal;
pub use units::{
    BucketSize, Period, RateLimit, SuppressionFactorCachePeriod, WindowSize, is_real_from,
};
pub use words::{double_of, word_of};
