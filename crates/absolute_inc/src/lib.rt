// The absolute limiter's increment: counts for a key where it is allowed.
#![tactic(auto)]

ghost use Rattle.judge.specs.Verdict.{Told};
ghost use Rattle.rules.specs.declared.RoomKind.TheVariants.{Absolute};
ghost use Rattle.parties.specs.Parties.{sent};
ghost use Rattle.answers.specs.Decision.{decision_of};
ghost use Rattle.absolute_verdicts.specs.Calls as Calls;

use absolute_opened::{clears, inc_change, late};
use absolute_test::{allows_first, decided};
use answers::RateLimitDecision;
use common::{RateLimit, Refusal};
use parties::Caller;
use rules::RoomKind;
use settings::Settings;

const KIND: RoomKind = RoomKind::Absolute;

// An increment whose refusal is handed on. It takes the steps of `judge::judge` itself, which would copy the slot.
#[tactic(auto, using(judge::proofs::Laws::room_there, judge::proofs::Laws::window_fits, judge::proofs::Laws::bucket_fits))]
fn try_inc(
    settings: Settings,
    room: &mut [u64],
    reading: u64,
    caller: Caller,
    key: &[u8],
    rate: RateLimit,
    count: u64,
) -> Result<RateLimitDecision, Refusal>
    ensures { Told (Calls.inc settings room.old reading (sent caller key.now) rate count) (decision_of result) room.new }
{
    judge::fault(settings, room)?;
    let standing = parties::standing_of(room, caller);
    let window = settings.window_ticks();
    let address = judge::address(room, caller, key);
    let x = opened::open_at(room, address, reading, window, window);
    judge::misfit(KIND, settings, room, reading, caller, key, x, standing)?;
    let at = plan::place(room, x);
    let limit = common::cut_limit(x.limit);
    let look = settings.look_ticks();
    let may = allows_first(limit, look, reading, x);
    let join = settings.join_ticks();
    let out = clears(room, limit, join, reading, count, x);
    late(room, join, reading, rate, count, standing.none, may, out, x)?;
    let looked = opened::looked_unless(may, look, reading, x);
    let answer = decided(settings, reading, may, looked);
    let change = inc_change(rate, settings.window_size, count, may, out, x, looked);
    change::apply(room, at, caller, key, join, reading, change);
    Ok(answer)
}

// Counts `count` for a key, where it is allowed.
pub fn inc(
    settings: Settings,
    room: &mut [u64],
    reading: u64,
    caller: Caller,
    key: &[u8],
    rate: RateLimit,
    count: u64,
) -> RateLimitDecision
    ensures { Told (Calls.inc settings room.old reading (sent caller key.now) rate count) result room.new }
{
    match try_inc(settings, room, reading, caller, key, rate, count) {
        Ok(decision) => decision,
        Err(r) => RateLimitDecision::Refused(r.number()),
    }
}
