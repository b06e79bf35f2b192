// An increment's decision, by where its forecast stands to the soft and the hard limit.
#![tactic(auto)]

ghost use Rattle.std.specs.Prelude.{◌≡◌, ◌+◌, ◌≤◌};
ghost use Rattle.layout.specs.Layout.{most_total};
ghost use Rattle.rules.specs.Suppressed.{reach_of, full_at, drawn, declined_by};
ghost use Rattle.settings.specs.Settings.{cache_in};
ghost use Rattle.factor_opened.specs.Opened.{InRoom};
ghost use Rattle.forecast_opened.specs.Forecast.{forecast_at, outcome_at};

use answers::RateLimitDecision;
use factor_opened::ask_by;
use opened::Slot;
use rules::{Asked, Outcome, Reach};
use settings::Settings;
use suppression::CachedFactor;

// What is admitted once the count is.
pub fn forecast(x: Slot, count: u64) -> u64
    requires { x.pass.live_total + count ≤ most_total }
    ensures { result ≡ forecast_at x count }
{
    x.pass.live_total.saturating_sub(x.pass.live_declined) + count
}

fn reach_of(forecast: u64, soft: u64, hard: u64) -> Reach
    ensures { result ≡ reach_of forecast soft hard }
{
    if forecast == hard {
        return Reach::Hard;
    }
    if forecast <= soft {
        return Reach::Soft;
    }
    if hard < forecast {
        return Reach::Over;
    }
    Reach::Between
}

// Factor 1 is cached.
fn full_at(reading: u64) -> Option<CachedFactor>
    ensures { result ≡ full_at reading }
{
    Some(CachedFactor {
        suppression_factor: 1.0,
        time: reading,
    })
}

fn declined_by(is_allowed: bool, count: u64) -> u64
    ensures { result ≡ declined_by is_allowed count }
{
    if is_allowed { 0 } else { count }
}

// The factor is held against the draw.
fn draw_by(a: Asked, count: u64, draw: u64) -> Outcome
    ensures { result ≡ drawn a count draw }
{
    let factor = a.factor;
    let caching = a.caching;
    let is_allowed = suppression::admits(factor, draw);
    Outcome {
        decision: RateLimitDecision::Suppressed {
            suppression_factor: factor,
            is_allowed,
        },
        declined: declined_by(is_allowed, count),
        caching,
    }
}

// The settings, built anew of their parts: they are copied only where a factor is asked for, as the slot is.
fn again(settings: Settings) -> Settings
    ensures { result ≡ settings }
{
    let clock = settings.clock_mode;
    settings.clock_mode(clock)
}

// The decision of a count whose forecast and limit are given, on a slot of the room `w`.
pub fn decide(
    settings: Settings,
    w: &[u64],
    x: Slot,
    limit: u64,
    forecast: u64,
    reading: u64,
    count: u64,
    draw: u64,
) -> Outcome
    requires { InRoom w.now x × (cache_in settings ≤ 4294967296) }
    ensures { result ≡ outcome_at settings w.now reading x limit forecast count draw }
{
    let soft = common::soft_limit(limit, settings.hard_limit_factor);
    let hard = common::cut_limit(limit);
    match reach_of(forecast, soft, hard) {
        Reach::Hard => Outcome {
            decision: RateLimitDecision::Allowed,
            declined: 0,
            caching: full_at(reading),
        },
        Reach::Soft => Outcome {
            decision: RateLimitDecision::Allowed,
            declined: 0,
            caching: None,
        },
        Reach::Over => Outcome {
            decision: RateLimitDecision::Suppressed {
                suppression_factor: 1.0,
                is_allowed: false,
            },
            declined: count,
            caching: full_at(reading),
        },
        Reach::Between => draw_by(
            ask_by(again(settings), w, opened::rebuilt(x), soft, hard, reading),
            count,
            draw,
        ),
    }
}
