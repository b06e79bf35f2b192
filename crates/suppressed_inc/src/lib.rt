// The suppressed limiter's increment. Everything that is refused is settled before the first word is written.
#![tactic(auto)]

ghost use Rattle.std.specs.Prelude.{◌≡◌};
ghost use Rattle.answers.specs.Decision.{decision_of};
ghost use Rattle.parties.specs.Parties.{sent};
ghost use Rattle.judge.specs.Verdict.{Told};
ghost use Rattle.rules.specs.declared.RoomKind.TheVariants.{Suppressed};
ghost use Rattle.suppressed_verdicts.specs.Calls.{inc};
ghost use Rattle.suppressed_verdicts.specs.Opened.{limit_at};

use answers::RateLimitDecision;
use common::{RateLimit, Refusal};
use opened::Slot;
use parties::Caller;
use rules::RoomKind;
use settings::Settings;
use suppressed_refusals::inc_late;

const KIND: RoomKind = RoomKind::Suppressed;

// A series' own limit, or that of the rate.
#[tactic(auto, unfolding(suppressed_verdicts::specs::Opened::limit_at))]
fn limit_for(settings: Settings, x: Slot, rate: RateLimit) -> u64
    ensures { result ≡ limit_at settings x rate }
{
    if x.series {
        return x.limit;
    }
    common::hard_limit(rate, settings.hard_limit_factor, settings.window_size)
}

// An increment whose refusal is handed on. It takes the steps of `judge::judge` itself, which would copy the slot.
#[tactic(auto, using(judge::proofs::Laws::room_there, judge::proofs::Laws::window_fits, judge::proofs::Laws::bucket_fits))]
fn try_inc(
    settings: Settings,
    room: &mut [u64],
    reading: u64,
    caller: Caller,
    key: &[u8],
    rate: RateLimit,
    count: u64,
    draw: u64,
) -> Result<RateLimitDecision, Refusal>
    ensures { Told (inc settings room.old reading (sent caller key.now) rate count draw) (decision_of result) room.new }
{
    judge::fault(settings, room)?;
    let standing = parties::standing_of(room, caller);
    let window = settings.window_ticks();
    let look = settings.look_ticks();
    let addressed = judge::address(room, caller, key);
    let x = opened::open_at(room, addressed, reading, window, look);
    judge::misfit(KIND, settings, room, reading, caller, key, x, standing)?;
    let at = plan::place(room, x);
    let lacks = plan::lacks_slot(standing.none, x);
    let ring = suppressed_refusals::ring_of(room);
    inc_late(settings, x, lacks, ring, reading, rate, count, draw)?;
    let limit = limit_for(settings, x, rate);
    let forecast = forecast_opened::forecast(x, count);
    let outcome = forecast_opened::decide(settings, room, x, limit, forecast, reading, count, draw);
    let caching = outcome.caching;
    let change = suppressed_edits::inc_change(x, limit, count, outcome.declined, caching);
    let join = settings.join_ticks();
    change::apply(room, at, caller, key, join, reading, change);
    Ok(outcome.decision)
}

// Counts, and decides by the forecast and the draw.
pub fn inc(
    settings: Settings,
    room: &mut [u64],
    reading: u64,
    caller: Caller,
    key: &[u8],
    rate: RateLimit,
    count: u64,
    draw: u64,
) -> RateLimitDecision
    ensures { Told (inc settings room.old reading (sent caller key.now) rate count draw) result room.new }
{
    match try_inc(settings, room, reading, caller, key, rate, count, draw) {
        Ok(decision) => decision,
        Err(r) => RateLimitDecision::Refused(r.number()),
    }
}
