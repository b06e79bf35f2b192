// The settings of a room: they begin as the defaults, and each setter hands them back with one value changed.
#![tactic(auto)]

ghost use Rattle.std.specs.Prelude.{◌≡◌, ◌≤◌};
ghost use Rattle.common.specs.Ranges.{factor_ok};
ghost use Rattle.common.specs.Refusals.{first, ruled};
ghost use Rattle.settings.specs.Clock.{ticks_of, longest, window_ticks, look_ticks, join_ticks, cache_ticks, second_ticks};
ghost use Rattle.settings.specs.Settings.{window_in, bucket_in, cache_in, defaults, with_window, with_bucket, with_factor, with_cache, with_clock};
ghost use Rattle.settings.specs.Settings.{faults};

use common::{BucketSize, Period, Refusal, SuppressionFactorCachePeriod, WindowSize, is_real_from};

const LEAST_FACTOR: f64 = 1.0;

const DEFAULT_FACTOR: f64 = 1.0;

pub const MILLISECONDS_PER_SECOND: u64 = 1000;

// The ticks that readings, bucket times and cache times are in.
#[derive(Clone, Copy, Debug, PartialEq, Eq, Hash)]
pub enum ClockMode {
    Milliseconds,
    Nanoseconds,
}

impl ClockMode {
    // How many ticks a millisecond has.
    pub fn ticks_per_millisecond(self) -> u64
        ensures { result ≡ ticks_of self }
    {
        match self {
            ClockMode::Milliseconds => 1,
            ClockMode::Nanoseconds => 1_000_000,
        }
    }

    // The longest age, in ticks, that is at most so many milliseconds once it is cut to whole ones.
    fn longest(self, milliseconds: u64) -> u64
        requires { milliseconds ≤ 33554432000 }
        ensures { result ≡ longest (ticks_of self) milliseconds }
    {
        let n = self.ticks_per_millisecond();
        n * milliseconds + (n - 1)
    }
}

#[derive(Clone, Copy, Debug, PartialEq)]
pub struct Settings {
    pub window_size: WindowSize,
    pub bucket_size: BucketSize,
    pub hard_limit_factor: f64,
    pub suppression_factor_cache_period: SuppressionFactorCachePeriod,
    pub clock_mode: ClockMode,
}

// Whether a hard limit factor is finite and at least 1.
pub fn is_hard_limit_factor(x: f64) -> bool
    ensures { result ≡ factor_ok x }
{
    is_real_from(LEAST_FACTOR, x)
}

impl Default for Settings {
    ghost is_default = { λ s. s ≡ defaults };

    fn default() -> Self {
        Settings {
            window_size: WindowSize::default(),
            bucket_size: BucketSize::default(),
            hard_limit_factor: DEFAULT_FACTOR,
            suppression_factor_cache_period: SuppressionFactorCachePeriod::default(),
            clock_mode: ClockMode::Milliseconds,
        }
    }
}

impl Settings {
    pub fn window_size(mut self, value: WindowSize) -> Self
        ensures { result ≡ with_window self value }
    {
        self.window_size = value;
        self
    }

    pub fn bucket_size(mut self, value: BucketSize) -> Self
        ensures { result ≡ with_bucket self value }
    {
        self.bucket_size = value;
        self
    }

    pub fn hard_limit_factor(mut self, value: f64) -> Self
        ensures { result ≡ with_factor self value }
    {
        self.hard_limit_factor = value;
        self
    }

    pub fn suppression_factor_cache_period(mut self, value: SuppressionFactorCachePeriod) -> Self
        ensures { result ≡ with_cache self value }
    {
        self.suppression_factor_cache_period = value;
        self
    }

    pub fn clock_mode(mut self, value: ClockMode) -> Self
        ensures { result ≡ with_clock self value }
    {
        self.clock_mode = value;
        self
    }

    // The window: an older bucket is expired.
    pub fn window_ticks(self) -> u64
        requires { window_in self ≤ 33554432 }
        ensures { result ≡ window_ticks self }
    {
        let window = self.window_size;
        let clock = self.clock_mode;
        clock.ticks_per_millisecond() * (MILLISECONDS_PER_SECOND * window.0)
    }

    // The longest age of an oldest bucket at which a first look evicts nothing.
    pub fn look_ticks(self) -> u64
        requires { window_in self ≤ 33554432 }
        ensures { result ≡ look_ticks self }
    {
        let window = self.window_size;
        let clock = self.clock_mode;
        clock.longest(MILLISECONDS_PER_SECOND * window.0)
    }

    // The longest age at which an increment joins the newest bucket.
    pub fn join_ticks(self) -> u64
        requires { bucket_in self ≤ 4294967296 }
        ensures { result ≡ join_ticks self }
    {
        let bucket = self.bucket_size;
        let clock = self.clock_mode;
        clock.longest(bucket.0)
    }

    // The age from which on a cached factor is not used.
    pub fn cache_ticks(self) -> u64
        requires { cache_in self ≤ 4294967296 }
        ensures { result ≡ cache_ticks self }
    {
        let period = self.suppression_factor_cache_period;
        let clock = self.clock_mode;
        clock.ticks_per_millisecond() * period.0
    }

    // The longest age that is in the last second.
    pub fn second_ticks(self) -> u64
        ensures { result ≡ second_ticks self }
    {
        let clock = self.clock_mode;
        clock.longest(MILLISECONDS_PER_SECOND)
    }

    // Turned away with the first of 1 to 4 that applies.
    #[tactic(auto, unfolding(common::specs::Refusals::first, crate::specs::Settings::faults))]
    pub fn check(self) -> Result<(), Refusal>
        ensures { result ≡ ruled (first (faults self)) }
    {
        if !self.window_size.is_in_range() {
            return Err(Refusal::BAD_WINDOW);
        }
        if !self.bucket_size.is_in_range() {
            return Err(Refusal::BAD_BUCKET);
        }
        if !self.suppression_factor_cache_period.is_in_range() {
            return Err(Refusal::BAD_CACHE);
        }
        if !is_hard_limit_factor(self.hard_limit_factor) {
            return Err(Refusal::BAD_FACTOR);
        }
        Ok(())
    }
}
