// The calls with a key that both limiters share: delete, setting a rate and setting a total. The room's kind says whose limit is meant.
#![tactic(auto)]

ghost use Rattle.parties.specs.Parties.{sent};
ghost use Rattle.judge.specs.Verdict.{Told};
ghost use Rattle.calls.specs.Delete.{delete};
ghost use Rattle.calls.specs.Rate.{set_rate_limit};
ghost use Rattle.calls.specs.Set.{set};

use answers::{ConditionalSetOutcome, HistoryUpdateMode};
use common::{RateLimit, RateLimitComparator, Refusal};
use parties::Caller;
use rules::RoomKind;
use sets_opened::{check_set, idle, lacks_unless, outcome, setting};
use settings::Settings;
use shared_opened::{check_rate, deleted, deleting, limit_of, limiting, old_rate};

pub fn delete(
    kind: RoomKind,
    settings: Settings,
    room: &mut [u64],
    reading: u64,
    caller: Caller,
    key: &[u8],
) -> Result<Option<u64>, Refusal>
    ensures { Told (delete kind settings room.old reading (sent caller key.now)) result room.new }
{
    let j = judge::judge(kind, settings, room, reading, caller, key, judge::NO_LOOK)?;
    let x = j.slot;
    let join = settings.join_ticks();
    change::apply(room, x.at, caller, key, join, reading, deleting(x));
    Ok(deleted(x))
}

pub fn set_rate_limit(
    kind: RoomKind,
    settings: Settings,
    room: &mut [u64],
    reading: u64,
    caller: Caller,
    key: &[u8],
    rate: RateLimit,
) -> Result<Option<RateLimit>, Refusal>
    ensures { Told (set_rate_limit kind settings room.old reading (sent caller key.now) rate) result room.new }
{
    let j = judge::judge(kind, settings, room, reading, caller, key, judge::NO_LOOK)?;
    check_rate(rate)?;
    let x = j.slot;
    let change = limiting(x, limit_of(kind, settings, rate));
    change::apply(
        room,
        x.at,
        caller,
        key,
        settings.join_ticks(),
        reading,
        change,
    );
    Ok(old_rate(kind, settings, x))
}

pub fn set(
    kind: RoomKind,
    settings: Settings,
    room: &mut [u64],
    reading: u64,
    caller: Caller,
    key: &[u8],
    rate: RateLimit,
    comparator: RateLimitComparator,
    count: u64,
    mode: HistoryUpdateMode,
) -> Result<ConditionalSetOutcome, Refusal>
    ensures { Told (set kind settings room.old reading (sent caller key.now) rate comparator count mode) result room.new }
{
    let j = judge::judge(kind, settings, room, reading, caller, key, judge::NO_LOOK)?;
    let x = j.slot;
    let limit = limit_of(kind, settings, rate);
    let still = idle(x, limit, comparator, count, mode);
    let at = plan::place(room, x);
    let none = lacks_unless(still, plan::lacks_slot(j.none, x));
    check_set(rate, count, none)?;
    let change = setting(x, still, limit, count, mode);
    let join = settings.join_ticks();
    change::apply(room, at, caller, key, join, reading, change);
    Ok(outcome(x, still, comparator, count))
}
