// What comes in as plain numbers.
#![tactic(auto)]

ghost use Rattle.std.specs.Prelude.{◌≡◌};
ghost use Rattle.inputs.specs.Inputs.{clock_of, settings, comparison_of, preserving};

use answers::{HistoryPreservation, HistoryUpdateMode};
use common::{BucketSize, RateLimitComparator, SuppressionFactorCachePeriod, WindowSize};
use settings::{ClockMode, Settings};

// In C a word: the clock mode that it names.
#[tactic(auto, unfolding(crate::specs::Inputs::clock_of))]
pub fn clock_of(number: u64) -> ClockMode
    ensures { result ≡ clock_of number }
{
    match number {
        0 => ClockMode::Milliseconds,
        _ => ClockMode::Nanoseconds,
    }
}

pub fn settings(window: u64, bucket: u64, cache: u64, factor: f64, clock: u64) -> Settings
    ensures { result ≡ settings window bucket cache factor clock }
{
    Settings {
        window_size: WindowSize(window),
        bucket_size: BucketSize(bucket),
        hard_limit_factor: factor,
        suppression_factor_cache_period: SuppressionFactorCachePeriod(cache),
        clock_mode: clock_of(clock),
    }
}

// The comparator that a number names, if it names one.
#[tactic(auto, unfolding(crate::specs::Inputs::comparison_of))]
pub fn comparison_of(number: u64, operand: u64) -> Option<RateLimitComparator>
    ensures { result ≡ comparison_of number operand }
{
    match number {
        0 => Some(RateLimitComparator::Always),
        1 => Some(RateLimitComparator::Eq(operand)),
        2 => Some(RateLimitComparator::Lt(operand)),
        3 => Some(RateLimitComparator::Gt(operand)),
        4 => Some(RateLimitComparator::Ne(operand)),
        _ => None,
    }
}

// The mode that a number names, if it names one.
#[tactic(auto, unfolding(crate::specs::Inputs::preserving))]
pub fn preserving(number: u64) -> Option<HistoryUpdateMode>
    ensures { result ≡ preserving number }
{
    match number {
        0 => Some(HistoryUpdateMode::Preserve(HistoryPreservation::PreserveNewest)),
        1 => Some(HistoryUpdateMode::Preserve(HistoryPreservation::PreserveOldest)),
        _ => None,
    }
}
