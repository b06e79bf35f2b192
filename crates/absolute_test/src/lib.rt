// The absolute limiter's test on a key's slot as a value: who is allowed, and what a rejection says.
#![tactic(auto)]

ghost use Rattle.std.specs.Prelude.{◌≡◌, ◌≤◌};
ghost use Rattle.settings.specs.Settings.{window_in};
ghost use Rattle.settings.specs.Clock.{ticks_in};
ghost use Rattle.rules.specs.Absolute.{below};
ghost use Rattle.opened.specs.Slot.{first_look};
ghost use Rattle.absolute_test.specs.Test.{gone_if, total_if, evicts, allowed_at, rejected_at, decided_at};

use answers::RateLimitDecision;
use opened::Slot;
use settings::Settings;

// How many buckets are gone, where the expired ones are out or not.
pub fn gone_if(out: bool, x: Slot) -> usize
    ensures { result ≡ gone_if out x }
{
    if out { x.pass.expired } else { 0 }
}

// The total of those that stay.
pub fn total_if(out: bool, x: Slot) -> u64
    ensures { result ≡ total_if out x }
{
    if out { x.pass.live_total } else { x.total }
}

fn is_below(limit: u64, total: u64) -> bool
    ensures { result ≡ below limit total }
{
    total < limit
}

// Whether the test is made again, with the expired buckets out.
pub fn evicts(limit: u64, x: Slot) -> bool
    ensures { result ≡ evicts limit x }
{
    !is_below(limit, x.total)
}

pub fn allows(limit: u64, x: Slot) -> bool
    ensures { result ≡ allowed_at limit x }
{
    !x.series || is_below(limit, total_if(evicts(limit, x), x))
}

// Whether the slot is allowed as a first look leaves it; no look is taken where the stored total is below the limit.
pub fn allows_first(limit: u64, look: u64, reading: u64, x: Slot) -> bool
    ensures { result ≡ allowed_at limit (first_look look reading x) }
{
    is_below(limit, x.total) || allows(limit, opened::first_look(look, reading, x))
}

// A rejection, with the wait for the oldest bucket that is left and its count; the wait is in milliseconds.
fn rejected(settings: Settings, reading: u64, x: Slot) -> RateLimitDecision
    requires { window_in settings ≤ 33554432 }
    ensures { result ≡ rejected_at (ticks_in settings) settings.window_size reading x }
{
    let window = settings.window_size;
    let clock = settings.clock_mode;
    let pass = x.pass;
    let buckets = pass.buckets;
    let expired = pass.expired;
    let oldest = pass.oldest;
    if buckets <= expired {
        return RateLimitDecision::Rejected {
            window_size: window,
            retry_after: 0,
            remaining_after_waiting: 0,
        };
    }
    RateLimitDecision::Rejected {
        window_size: window,
        retry_after: (settings::MILLISECONDS_PER_SECOND * window.0).saturating_sub(
            reading.saturating_sub(oldest.time) / clock.ticks_per_millisecond(),
        ),
        remaining_after_waiting: oldest.count,
    }
}

// The decision of a key that may or may not.
pub fn decided(settings: Settings, reading: u64, may: bool, x: Slot) -> RateLimitDecision
    requires { window_in settings ≤ 33554432 }
    ensures { result ≡ decided_at (ticks_in settings) settings.window_size reading may x }
{
    if may {
        return RateLimitDecision::Allowed;
    }
    rejected(settings, reading, x)
}
