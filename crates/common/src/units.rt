// Units of time and rate, as tuple structs: a window in seconds, a bucket and a cache period in milliseconds, a rate
// per second. A constructor refuses what lies outside the range of its unit.
ghost use Rattle.std.specs.Prelude.{◌≡◌, ℕ, ◌*◌, ◌<◌, ◌≤◌, ◌&&◌, Result};
ghost use Rattle.std.specs.Float.Ieee as Ieee;
ghost use Rattle.std.proofs.Common.{rules};
ghost use Rattle.common.specs.Ranges.{within, most, most_window, most_bucket, most_cache, rate_ok};
ghost use Rattle.common.specs.Units.{second, minute, hour, day, week, month};
ghost use Rattle.common.specs.Units.{period_of, unit_of, window_of, bucket_of, cache_of, window_is, bucket_is, cache_is, rate_from, rate_of};
ghost use Rattle.common.specs.Units.{milliseconds_of, in_periods, per_period, default_window, default_bucket, default_cache};
ghost use Rattle.common.specs.declared.refusal.Refusal.{Refusal};

use crate::refusal::Refusal;

const MILLISECONDS_PER_SECOND: u64 = 1_000;

// Periods in seconds.
const SECOND: u64 = 1;

const MINUTE: u64 = 60;

const HOUR: u64 = 3_600;

const DAY: u64 = 86_400;

const WEEK: u64 = 604_800;

const MONTH: u64 = 2_592_000;

// 2^-900
const LEAST_RATE: f64 = 1.1830521861667747e-271;

const DEFAULT_WINDOW: u64 = 30;

const DEFAULT_BUCKET: u64 = 100;

const DEFAULT_CACHE: u64 = 100;

fn is_within(value: u64, most: u64) -> bool
    ensures { result ≡ within 1 most value }
{
    (1..=most).contains(&value)
}

// Whether a double is finite and at least `least`: false for a NaN.
pub fn is_real_from(least: f64, x: f64) -> bool
    ensures { result ≡ (Ieee.le least x && Ieee.le x most) }
{
    x >= least && x <= f64::MAX
}

// A length of time in parts of its own: how many of them a second has, how many a length has at most, and the refusal of any other number of them.
pub trait Period: Copy {
    ghost SECOND: { ℕ };

    ghost MOST: { ℕ };

    ghost REFUSAL: { Refusal };

    ghost of: { ℕ → Self };

    ghost parts: { Self → ℕ };

    ghost made: { ℕ → ℕ → Result Self Refusal };

    const SECOND: u64;

    const MOST: u64;

    const REFUSAL: Refusal;

    fn of(number: u64) -> Self
        ensures { result ≡ of number };

    fn parts(self) -> u64
        ensures { result ≡ parts self };

    ghost some: { 0 < SECOND };

    ghost few: { SECOND ≤ 1000 };

    ghost made_is: { (m v : ℕ) → made m v ≡ unit_of of REFUSAL MOST m v };

    final fn is_in_range(self) -> bool
        ensures { result ≡ within 1 MOST (parts self) }
    {
        is_within(self.parts(), Self::MOST)
    }

    final fn seconds(value: u64) -> Result<Self, Refusal>
        ensures { result ≡ made (SECOND * second) value }
    {
        periods(value, Self::SECOND * SECOND)
    }

    final fn minutes(value: u64) -> Result<Self, Refusal>
        ensures { result ≡ made (SECOND * minute) value }
    {
        periods(value, Self::SECOND * MINUTE)
    }

    final fn hours(value: u64) -> Result<Self, Refusal>
        ensures { result ≡ made (SECOND * hour) value }
    {
        periods(value, Self::SECOND * HOUR)
    }

    final fn days(value: u64) -> Result<Self, Refusal>
        ensures { result ≡ made (SECOND * day) value }
    {
        periods(value, Self::SECOND * DAY)
    }

    final fn weeks(value: u64) -> Result<Self, Refusal>
        ensures { result ≡ made (SECOND * week) value }
    {
        periods(value, Self::SECOND * WEEK)
    }

    final fn months(value: u64) -> Result<Self, Refusal>
        ensures { result ≡ made (SECOND * month) value }
    {
        periods(value, Self::SECOND * MONTH)
    }
}

// The shared fact of every period constructor, over the multiplier.
fn checked_duration(value: u64, multiplier: u64, most: u64) -> Option<u64>
    requires { 0 < multiplier }
    ensures { result ≡ period_of most multiplier value }
{
    let number = value.checked_mul(multiplier)?;
    is_within(number, most).then_some(number)
}

// So many periods of so many parts each.
fn periods<P: Period>(value: u64, multiplier: u64) -> Result<P, Refusal>
    requires { 0 < multiplier }
    ensures { result ≡ P.made multiplier value }
{
    let number = checked_duration(value, multiplier, P::MOST).ok_or(P::REFUSAL)?;
    Ok(P::of(number))
}

// A sliding window, in seconds.
#[derive(Clone, Copy, Debug, PartialEq, Eq, Hash)]
pub struct WindowSize(pub u64);

impl Default for WindowSize {
    ghost is_default = { λ x. x ≡ record { 0 = default_window } };

    fn default() -> Self {
        WindowSize(DEFAULT_WINDOW)
    }
}

impl Period for WindowSize {
    ghost SECOND = { 1 };

    ghost MOST = { most_window };

    ghost REFUSAL = { record { 0 = 1 } };

    ghost of = { λ n. record { 0 = n } };

    ghost parts = { λ x. x.0 };

    ghost made = { window_of };

    const SECOND: u64 = 1;

    const MOST: u64 = 33_554_432;

    const REFUSAL: Refusal = Refusal::BAD_WINDOW;

    fn of(number: u64) -> Self {
        WindowSize(number)
    }

    fn parts(self) -> u64 {
        self.0
    }

    ghost some = { Prim.search rules };

    ghost few = { Prim.search rules };

    ghost made_is = { window_is };
}

impl WindowSize {
    pub fn as_seconds(self) -> u64
        ensures { result ≡ self.0 }
    {
        self.0
    }

    // The original has 128 bits here: a word holds the milliseconds of every window in range.
    pub fn as_milliseconds(self) -> u64
        ensures { result ≡ milliseconds_of self.0 }
    {
        self.0.saturating_mul(MILLISECONDS_PER_SECOND)
    }

    fn as_period(self, period: u64) -> f64
        ensures { result ≡ in_periods period self.0 }
    {
        std::num::nearest_u64_to_f64(self.0) / std::num::nearest_u64_to_f64(period)
    }

    pub fn as_minutes(self) -> f64
        ensures { result ≡ in_periods minute self.0 }
    {
        self.as_period(MINUTE)
    }

    pub fn as_hours(self) -> f64
        ensures { result ≡ in_periods hour self.0 }
    {
        self.as_period(HOUR)
    }

    pub fn as_days(self) -> f64
        ensures { result ≡ in_periods day self.0 }
    {
        self.as_period(DAY)
    }

    pub fn as_weeks(self) -> f64
        ensures { result ≡ in_periods week self.0 }
    {
        self.as_period(WEEK)
    }

    pub fn as_months(self) -> f64
        ensures { result ≡ in_periods month self.0 }
    {
        self.as_period(MONTH)
    }
}

// How long increments join one bucket, in milliseconds.
#[derive(Clone, Copy, Debug, PartialEq, Eq, Hash)]
pub struct BucketSize(pub u64);

impl Default for BucketSize {
    ghost is_default = { λ x. x ≡ record { 0 = default_bucket } };

    fn default() -> Self {
        BucketSize(DEFAULT_BUCKET)
    }
}

impl Period for BucketSize {
    ghost SECOND = { 1000 };

    ghost MOST = { most_bucket };

    ghost REFUSAL = { record { 0 = 2 } };

    ghost of = { λ n. record { 0 = n } };

    ghost parts = { λ x. x.0 };

    ghost made = { bucket_of };

    const SECOND: u64 = MILLISECONDS_PER_SECOND;

    const MOST: u64 = 4_294_967_296;

    const REFUSAL: Refusal = Refusal::BAD_BUCKET;

    fn of(number: u64) -> Self {
        BucketSize(number)
    }

    fn parts(self) -> u64 {
        self.0
    }

    ghost some = { Prim.search rules };

    ghost few = { Prim.search rules };

    ghost made_is = { bucket_is };
}

impl BucketSize {
    pub fn milliseconds(value: u64) -> Result<Self, Refusal>
        ensures { result ≡ bucket_of 1 value }
    {
        periods(value, 1)
    }

    pub fn as_milliseconds(self) -> u64
        ensures { result ≡ self.0 }
    {
        self.0
    }
}

// How long a suppression factor is kept, in milliseconds.
#[derive(Clone, Copy, Debug, PartialEq, Eq, Hash)]
pub struct SuppressionFactorCachePeriod(pub u64);

impl Default for SuppressionFactorCachePeriod {
    ghost is_default = { λ x. x ≡ record { 0 = default_cache } };

    fn default() -> Self {
        SuppressionFactorCachePeriod(DEFAULT_CACHE)
    }
}

impl Period for SuppressionFactorCachePeriod {
    ghost SECOND = { 1000 };

    ghost MOST = { most_cache };

    ghost REFUSAL = { record { 0 = 3 } };

    ghost of = { λ n. record { 0 = n } };

    ghost parts = { λ x. x.0 };

    ghost made = { cache_of };

    const SECOND: u64 = MILLISECONDS_PER_SECOND;

    const MOST: u64 = 4_294_967_296;

    const REFUSAL: Refusal = Refusal::BAD_CACHE;

    fn of(number: u64) -> Self {
        SuppressionFactorCachePeriod(number)
    }

    fn parts(self) -> u64 {
        self.0
    }

    ghost some = { Prim.search rules };

    ghost few = { Prim.search rules };

    ghost made_is = { cache_is };
}

impl SuppressionFactorCachePeriod {
    pub fn milliseconds(value: u64) -> Result<Self, Refusal>
        ensures { result ≡ cache_of 1 value }
    {
        periods(value, 1)
    }

    pub fn as_milliseconds(self) -> u64
        ensures { result ≡ self.0 }
    {
        self.0
    }
}

// A rate, per second.
#[derive(Clone, Copy, Debug, PartialEq)]
pub struct RateLimit(pub f64);

impl RateLimit {
    pub fn max() -> Self
        ensures { result ≡ record { 0 = most } }
    {
        RateLimit(f64::MAX)
    }

    pub fn is_in_range(self) -> bool
        ensures { result ≡ rate_ok self.0 }
    {
        is_real_from(LEAST_RATE, self.0)
    }

    pub fn per_second(value: f64) -> Result<Self, Refusal>
        ensures { result ≡ rate_from value }
    {
        let rate = RateLimit(value);
        if !rate.is_in_range() {
            return Err(Refusal::BAD_RATE);
        }
        Ok(rate)
    }

    fn from_period(value: f64, period: u64) -> Result<Self, Refusal>
        ensures { result ≡ rate_of period value }
    {
        RateLimit::per_second(value / std::num::nearest_u64_to_f64(period))
    }

    pub fn per_minute(value: f64) -> Result<Self, Refusal>
        ensures { result ≡ rate_of minute value }
    {
        RateLimit::from_period(value, MINUTE)
    }

    pub fn per_hour(value: f64) -> Result<Self, Refusal>
        ensures { result ≡ rate_of hour value }
    {
        RateLimit::from_period(value, HOUR)
    }

    pub fn per_day(value: f64) -> Result<Self, Refusal>
        ensures { result ≡ rate_of day value }
    {
        RateLimit::from_period(value, DAY)
    }

    pub fn per_week(value: f64) -> Result<Self, Refusal>
        ensures { result ≡ rate_of week value }
    {
        RateLimit::from_period(value, WEEK)
    }

    pub fn per_month(value: f64) -> Result<Self, Refusal>
        ensures { result ≡ rate_of month value }
    {
        RateLimit::from_period(value, MONTH)
    }

    pub fn as_per_second(self) -> f64
        ensures { result ≡ self.0 }
    {
        self.0
    }

    fn as_per_period(self, period: u64) -> f64
        ensures { result ≡ per_period period self.0 }
    {
        self.0 * std::num::nearest_u64_to_f64(period)
    }

    pub fn as_per_minute(self) -> f64
        ensures { result ≡ per_period minute self.0 }
    {
        self.as_per_period(MINUTE)
    }

    pub fn as_per_hour(self) -> f64
        ensures { result ≡ per_period hour self.0 }
    {
        self.as_per_period(HOUR)
    }

    pub fn as_per_day(self) -> f64
        ensures { result ≡ per_period day self.0 }
    {
        self.as_per_period(DAY)
    }

    pub fn as_per_week(self) -> f64
        ensures { result ≡ per_period week self.0 }
    {
        self.as_per_period(WEEK)
    }

    pub fn as_per_month(self) -> f64
        ensures { result ≡ per_period month self.0 }
    {
        self.as_per_period(MONTH)
    }
}
