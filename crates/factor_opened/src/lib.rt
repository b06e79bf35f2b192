// A key's suppression factor: the cached one while it may be used, else a fresh one, which is then cached.
#![tactic(auto)]

ghost use Rattle.std.specs.Prelude.{◌≡◌, ◌≤◌};
ghost use Rattle.settings.specs.Settings.{window_in, cache_in};
ghost use Rattle.settings.specs.Clock.{ticks_in, cache_ticks};
ghost use Rattle.rules.specs.Suppressed.{fresh_by};
ghost use Rattle.factor_opened.specs.Opened.{left, stays_at, usable_at, kept_at, rule_at, second_at, InRoom, worked_by, asked_by, asked_at};

use opened::Slot;
use rules::{Asked, FactorRule};
use settings::Settings;
use suppression::CachedFactor;

// How many buckets are live.
fn left(x: Slot) -> usize
    ensures { result ≡ left x }
{
    x.pass.buckets.saturating_sub(x.pass.expired)
}

// Whether the slot's cached factor outlives eviction.
pub fn stays(x: Slot) -> bool
    ensures { result ≡ stays_at x }
{
    x.cached && x.pass.expired == 0
}

// The cached factor that the slot's words hold.
fn kept(x: Slot) -> CachedFactor
    ensures { result ≡ kept_at x }
{
    CachedFactor {
        suppression_factor: common::double_of(x.factor),
        time: x.factor_time,
    }
}

// Whether the slot's cached factor is used: it stays, and its age is below the cache period.
fn is_usable(settings: Settings, x: Slot, reading: u64) -> bool
    requires { cache_in settings ≤ 4294967296 }
    ensures { result ≡ usable_at (cache_ticks settings) reading x }
{
    stays(x) && reading.saturating_sub(x.factor_time) < settings.cache_ticks()
}

// The rule of the fresh factor, by its clauses in order.
fn rule_of(x: Slot, soft: u64, hard: u64) -> FactorRule
    ensures { result ≡ rule_at soft hard x }
{
    let series = x.series;
    let pass = x.pass;
    let total = pass.live_total;
    if !series {
        return FactorRule::Nil;
    }
    if left(x) == 0 {
        return FactorRule::Nil;
    }
    if hard <= total {
        return FactorRule::One;
    }
    let accepted = total.saturating_sub(pass.live_declined);
    if accepted < soft {
        return FactorRule::Nil;
    }
    if accepted != soft {
        return FactorRule::Worked;
    }
    if soft == hard {
        return FactorRule::One;
    }
    FactorRule::Worked
}

// What the slot's buckets, without the expired ones, count in the last second.
fn second_of(settings: Settings, w: &[u64], x: Slot, reading: u64) -> u64
    requires { InRoom w.now x }
    ensures { result ≡ second_at (ticks_in settings) w.now reading x }
{
    let series = x.series;
    if !series {
        return 0;
    }
    let pass = x.pass;
    let r = w[layout::RING] as usize;
    let a = room::start(w, x.at);
    let e = a + (layout::FIXED + layout::CELL * r);
    let last = w[layout::LAST];
    second::last_second(
        &w[a..e],
        r,
        last,
        pass.expired,
        reading,
        settings.second_ticks(),
    )
}

// The last second is asked for by the one rule that works the factor out.
fn fresh_by(
    by: FactorRule,
    settings: Settings,
    w: &[u64],
    x: Slot,
    soft: u64,
    total: u64,
    reading: u64,
) -> f64
    requires { InRoom w.now x }
    ensures { result ≡ fresh_by by soft total (window_in settings) (second_at (ticks_in settings) w.now reading x) }
{
    match by {
        FactorRule::Nil => 0.0,
        FactorRule::One => 1.0,
        FactorRule::Worked => suppression::fresh_factor(
            soft,
            total,
            settings.window_size,
            second_of(settings, w, x, reading),
        ),
    }
}

// The fresh factor of a slot, and that it is cached.
fn work_out(settings: Settings, w: &[u64], x: Slot, soft: u64, hard: u64, reading: u64) -> Asked
    requires { InRoom w.now x }
    ensures { result ≡ worked_by soft hard (window_in settings) (ticks_in settings) w.now reading x }
{
    let pass = x.pass;
    let total = pass.live_total;
    let by = rule_of(x, soft, hard);
    let factor = fresh_by(by, settings, w, x, soft, total, reading);
    Asked {
        factor,
        caching: Some(CachedFactor {
            suppression_factor: factor,
            time: reading,
        }),
    }
}

// The factor of a slot of the room `w`, by its soft and its hard limit: the cached one while it may be used, else a fresh one.
pub fn ask_by(settings: Settings, w: &[u64], x: Slot, soft: u64, hard: u64, reading: u64) -> Asked
    requires { InRoom w.now x × (cache_in settings ≤ 4294967296) }
    ensures { result ≡ asked_by settings soft hard w.now reading x }
{
    if is_usable(settings, x, reading) {
        let cached = kept(x);
        return Asked {
            factor: cached.suppression_factor,
            caching: None,
        };
    }
    work_out(settings, w, x, soft, hard, reading)
}

// The same by its limit.
pub fn ask(settings: Settings, w: &[u64], x: Slot, limit: u64, reading: u64) -> Asked
    requires { InRoom w.now x × (cache_in settings ≤ 4294967296) }
    ensures { result ≡ asked_at settings w.now reading x limit }
{
    let soft = common::soft_limit(limit, settings.hard_limit_factor);
    ask_by(settings, w, x, soft, common::cut_limit(limit), reading)
}
