// Cases of `common`, each against a value worked out by hand or by double arithmetic as the original does it. A line for
// each: its name, what was found, what was expected. A number of 1,000,000,000,000 and more is a refusal.
#![tactic(auto)]

use common::{
    BucketSize, Period, RateLimit, RateLimitComparator, Refusal, SuppressionFactorCachePeriod,
    WindowSize, absolute_limit, cut, cut_limit, hard_limit, is_limit, soft_limit, word_of,
};
use settings::Settings;
use share::mul_div;
use std::io;
use suppression::{admits, fresh_factor, is_factor};

const REFUSED: u64 = 1_000_000_000_000;

// What is made of a length, or the refusal's number, past all that a length can be.
fn number_of<P: Period>(x: Result<P, Refusal>) -> u64 {
    match x {
        Ok(length) => length.parts(),
        Err(why) => REFUSED.saturating_add(why.number()),
    }
}

// A rate's bits, or the refusal's number, which no rate's bits are.
fn rate_bits(x: Result<RateLimit, Refusal>) -> u64 {
    match x {
        Ok(rate) => word_of(rate.0),
        Err(why) => why.number(),
    }
}

fn said(yes: bool) -> u64 {
    u64::from(yes)
}

fn same(number: u64) -> u64 {
    number
}

// A line for each row: its name, what was found, what was expected.
fn cases<T: Copy, F: Fn(T) -> u64>(
    rt: &impl Print,
    number: F,
    rows: &[(&str, T, u64)],
) -> io::Result<()>
    requires { F.IsAlwaysCallable number }
{
    for &(name, found, expected) in rows {
        let found = number(found);
        let sign = if found == expected {
            "ok    "
        } else {
            "WRONG "
        };
        println!(rt; "{sign}{name}: {found}, expected {expected}")?;
    }
    Ok(())
}

fn windows(rt: &impl Print) -> io::Result<()> {
    cases(
        rt,
        number_of,
        &[
            ("10 s", WindowSize::seconds(10), 10),
            ("33,554,432 s", WindowSize::seconds(33554432), 33554432),
            ("33,554,433 s", WindowSize::seconds(33554433), 1000000000001),
            ("2 min", WindowSize::minutes(2), 120),
            ("13 months", WindowSize::months(13), 1000000000001),
            ("2^64 - 1 min", WindowSize::minutes(u64::MAX), 1000000000001),
        ],
    )
}

fn buckets(rt: &impl Print) -> io::Result<()> {
    cases(
        rt,
        number_of,
        &[
            ("bucket 1 ms", BucketSize::milliseconds(1), 1),
            ("bucket 2 s", BucketSize::seconds(2), 2000),
            ("bucket 71,582 min", BucketSize::minutes(71582), 4294920000),
            (
                "bucket 71,583 min",
                BucketSize::minutes(71583),
                1000000000002,
            ),
            ("bucket 1 month", BucketSize::months(1), 2592000000),
        ],
    )
}

fn cache_periods(rt: &impl Print) -> io::Result<()> {
    cases(
        rt,
        number_of,
        &[
            (
                "cache 50 ms",
                SuppressionFactorCachePeriod::milliseconds(50),
                50,
            ),
            (
                "cache 0 min",
                SuppressionFactorCachePeriod::minutes(0),
                1000000000003,
            ),
            (
                "cache 2 months",
                SuppressionFactorCachePeriod::months(2),
                1000000000003,
            ),
        ],
    )
}

fn rates(rt: &impl Print) -> io::Result<()> {
    cases(
        rt,
        rate_bits,
        &[
            (
                "5.5 per second",
                RateLimit::per_second(5.5),
                4617878467915022336,
            ),
            (
                "100 per minute",
                RateLimit::per_minute(100.0),
                4610184818551597739,
            ),
            (
                "7 per month",
                RateLimit::per_month(7.0),
                4523487078525000913,
            ),
            ("0 per second", RateLimit::per_second(0.0), 8),
            (
                "2^-900 per second",
                RateLimit::per_second(1.1830521861667747e-271),
                553942754166571008,
            ),
            (
                "2^-901 per second",
                RateLimit::per_second(5.9152609308338735e-272),
                8,
            ),
            (
                "infinity per second",
                RateLimit::per_second(f64::INFINITY),
                8,
            ),
        ],
    )
}

fn readings(rt: &impl Print) -> io::Result<()> {
    cases(
        rt,
        same,
        &[
            (
                "the largest rate",
                word_of(RateLimit::max().as_per_second()),
                9218868437227405311,
            ),
            (
                "0.3 per second, per minute",
                word_of(RateLimit(0.3).as_per_minute()),
                4625759767262920704,
            ),
            ("10 s in ms", WindowSize(10).as_milliseconds(), 10000),
            (
                "2^63 s in ms",
                WindowSize(9223372036854775808).as_milliseconds(),
                u64::MAX,
            ),
            (
                "100 s in minutes",
                word_of(WindowSize(100).as_minutes()),
                4610184818551597739,
            ),
        ],
    )
}

// The number of what turns settings away, or 0.
fn refusal(settings: Settings) -> u64 {
    match settings.check() {
        Ok(()) => 0,
        Err(refusal) => refusal.number(),
    }
}

fn defaults(rt: &impl Print) -> io::Result<()> {
    cases(
        rt,
        same,
        &[
            ("defaults", refusal(Settings::default()), 0),
            ("default window", Settings::default().window_size.0, 30),
            ("default bucket", Settings::default().bucket_size.0, 100),
            (
                "default factor",
                word_of(Settings::default().hard_limit_factor),
                4607182418800017408,
            ),
        ],
    )
}

fn settings(rt: &impl Print) -> io::Result<()> {
    let start = Settings::default();
    cases(
        rt,
        refusal,
        &[
            ("window 0", start.window_size(WindowSize(0)), 1),
            (
                "bucket 2^32 + 1",
                start.bucket_size(BucketSize(4294967297)),
                2,
            ),
            (
                "cache period 0",
                start.suppression_factor_cache_period(SuppressionFactorCachePeriod(0)),
                3,
            ),
            (
                "factor just below 1",
                start.hard_limit_factor(0.9999999999999999),
                4,
            ),
            ("factor NaN", start.hard_limit_factor(f64::NAN), 4),
            (
                "window and factor",
                start
                    .hard_limit_factor(0.0)
                    .window_size(WindowSize(33554433)),
                1,
            ),
        ],
    )
}

fn comparator(rt: &impl Print) -> io::Result<()> {
    cases(
        rt,
        said,
        &[
            ("5 equals 5", RateLimitComparator::Eq(5).matches(5), 1),
            ("4 below 5", RateLimitComparator::Lt(5).matches(4), 1),
            ("5 below 5", RateLimitComparator::Lt(5).matches(5), 0),
            ("5 above 5", RateLimitComparator::Gt(5).matches(5), 0),
            ("5 differs from 5", RateLimitComparator::Ne(5).matches(5), 0),
            ("always", RateLimitComparator::Always.matches(u64::MAX), 1),
        ],
    )
}

fn limits(rt: &impl Print) -> io::Result<()> {
    cases(
        rt,
        same,
        &[
            (
                "1 per second, 10 s",
                absolute_limit(RateLimit(1.0), WindowSize(10)),
                4621819117588971520,
            ),
            (
                "0.1 per second, factor 3, 7 s",
                hard_limit(RateLimit(0.1), 3.0, WindowSize(7)),
                4611911198408756430,
            ),
            (
                "0.7 per second, factor 1.1, 13 s",
                hard_limit(RateLimit(0.7), 1.1, WindowSize(13)),
                4621824747088505733,
            ),
            (
                "largest rate, 10 s",
                absolute_limit(RateLimit::max(), WindowSize(10)),
                9218868437227405312,
            ),
        ],
    )
}

fn cuts(rt: &impl Print) -> io::Result<()> {
    cases(
        rt,
        same,
        &[
            ("cut of 10.9", cut(10.9), 10),
            ("cut of a NaN", cut(f64::NAN), 0),
            ("cut of 2^64", cut(18446744073709551616.0), u64::MAX),
            ("cut of infinity", cut(f64::INFINITY), u64::MAX),
            (
                "cut of the word of 20.0",
                cut_limit(4626322717216342016),
                20,
            ),
            ("cut of a NaN's word", cut_limit(9221120237041090561), 0),
            (
                "soft of 20, factor 2",
                soft_limit(4626322717216342016, 2.0),
                10,
            ),
            (
                "soft of 0.3 * 3 * 7, factor 3",
                soft_limit(4618779187840496434, 3.0),
                2,
            ),
        ],
    )
}

fn sound_limits(rt: &impl Print) -> io::Result<()> {
    cases(
        rt,
        said,
        &[
            (
                "10.0 is a limit",
                is_limit(4621819117588971520, WindowSize(10), 1.0),
                1,
            ),
            ("0.0 is a limit", is_limit(0, WindowSize(10), 1.0), 0),
            (
                "infinity is a limit",
                is_limit(9218868437227405312, WindowSize(10), 1.0),
                1,
            ),
            (
                "a NaN is a limit",
                is_limit(9221120237041090561, WindowSize(10), 1.0),
                0,
            ),
            ("least subnormal, 2 s", is_limit(1, WindowSize(2), 1.0), 0),
        ],
    )
}

fn old_rates(rt: &impl Print) -> io::Result<()> {
    cases(
        rt,
        |x: f64| word_of(x),
        &[
            (
                "old rate of 0.1 * 3 * 7",
                RateLimit::from_stored_window_limit(4611911198408756430, WindowSize(7), 3.0).0,
                4591870180066957724,
            ),
            (
                "old rate of infinity",
                RateLimit::from_stored_window_limit(9218868437227405312, WindowSize(7), 3.0).0,
                9218868437227405311,
            ),
        ],
    )
}

fn fresh_factors(rt: &impl Print) -> io::Result<()> {
    cases(
        rt,
        |x: f64| word_of(x),
        &[
            (
                "S 10, total 20, W 10, last second 2",
                fresh_factor(10, 20, WindowSize(10), 2),
                4602678819172646912,
            ),
            (
                "S 10, total 15, W 10, last second 5",
                fresh_factor(10, 15, WindowSize(10), 5),
                4605380978949069210,
            ),
            (
                "S 10, total 10, W 10, last second 1",
                fresh_factor(10, 10, WindowSize(10), 1),
                0,
            ),
            (
                "S 9007199254740992, total 9007199254740992, W 33554432, last second 1",
                fresh_factor(9007199254740992, 9007199254740992, WindowSize(33554432), 1),
                0,
            ),
        ],
    )
}

fn factors(rt: &impl Print) -> io::Result<()> {
    cases(
        rt,
        said,
        &[
            ("0 is a factor", is_factor(0), 1),
            ("0.5 is a factor", is_factor(4602678819172646912), 1),
            ("1 is a factor", is_factor(4607182418800017408), 1),
            ("-0.0 is a factor", is_factor(9223372036854775808), 0),
            ("a NaN is a factor", is_factor(9221120237041090561), 0),
        ],
    )
}

fn draws(rt: &impl Print) -> io::Result<()> {
    cases(
        rt,
        said,
        &[
            (
                "factor 0.0 admits 9007199254740991",
                admits(0.0, 9007199254740991),
                1,
            ),
            ("factor 1.0 admits 0", admits(1.0, 0), 0),
            (
                "factor 0.5 admits 4503599627370495",
                admits(0.5, 4503599627370495),
                1,
            ),
            (
                "factor 0.5 admits 4503599627370496",
                admits(0.5, 4503599627370496),
                0,
            ),
            (
                "factor 0.9999999999999999 admits 1",
                admits(0.9999999999999999, 1),
                0,
            ),
            (
                "factor 1.1102230246251565e-16 admits 9007199254740990",
                admits(1.1102230246251565e-16, 9007199254740990),
                1,
            ),
            (
                "factor 1.1102230246251565e-16 admits 9007199254740991",
                admits(1.1102230246251565e-16, 9007199254740991),
                0,
            ),
        ],
    )
}

fn shares(rt: &impl Print) -> io::Result<()> {
    cases(
        rt,
        same,
        &[
            ("5 * 3 / 7", mul_div(5, 3, 7), 2),
            (
                "9007199254740992 * 9007199254740992 / 9007199254740992",
                mul_div(9007199254740992, 9007199254740992, 9007199254740992),
                9007199254740992,
            ),
            (
                "9007199254740991 * 9007199254740990 / 9007199254740989",
                mul_div(9007199254740991, 9007199254740990, 9007199254740989),
                9007199254740992,
            ),
            (
                "9007199254740992 * 9007199254740992 / 1",
                mul_div(9007199254740992, 9007199254740992, 1),
                u64::MAX,
            ),
            ("7 * 3 / 0", mul_div(7, 3, 0), 0),
            (
                "18446744073709551615 * 18446744073709551615 / 18446744073709551615",
                mul_div(u64::MAX, u64::MAX, u64::MAX),
                u64::MAX,
            ),
            (
                "123456789012345 * 987654321 / 1000000007",
                mul_div(123456789012345, 987654321, 1000000007),
                121932630271299,
            ),
        ],
    )
}

fn main(rt: HostRuntime) -> io::Result<()> {
    println!(&rt; "# units")?;
    windows(&rt)?;
    buckets(&rt)?;
    cache_periods(&rt)?;
    rates(&rt)?;
    readings(&rt)?;
    println!(&rt; "# settings")?;
    defaults(&rt)?;
    settings(&rt)?;
    println!(&rt; "# comparator")?;
    comparator(&rt)?;
    println!(&rt; "# limits")?;
    limits(&rt)?;
    cuts(&rt)?;
    sound_limits(&rt)?;
    old_rates(&rt)?;
    println!(&rt; "# the factor and the draw")?;
    fresh_factors(&rt)?;
    factors(&rt)?;
    draws(&rt)?;
    println!(&rt; "# floor(a * b / c)")?;
    shares(&rt)
}
