// What the absolute limiter says of a key without counting: its live total, and whether it is allowed.
#![tactic(auto)]

ghost use Rattle.judge.specs.Verdict.{Told};
ghost use Rattle.rules.specs.declared.RoomKind.TheVariants.{Absolute};
ghost use Rattle.parties.specs.Parties.{sent};
ghost use Rattle.absolute_verdicts.specs.Calls as Calls;

use absolute_opened::{ask_change, get_change};
use absolute_test::{allows, decided, evicts};
use answers::RateLimitDecision;
use common::Refusal;
use parties::Caller;
use rules::RoomKind;
use settings::Settings;

// A key's live total.
pub fn get(
    settings: Settings,
    room: &mut [u64],
    reading: u64,
    caller: Caller,
    key: &[u8],
) -> Result<u64, Refusal>
    ensures { Told (Calls.get settings room.old reading (sent caller key.now)) result room.new }
{
    let j = judge::judge(
        RoomKind::Absolute,
        settings,
        room,
        reading,
        caller,
        key,
        judge::NO_LOOK,
    )?;
    let x = j.slot;
    let pass = x.pass;
    let join = settings.join_ticks();
    change::apply(room, x.at, caller, key, join, reading, get_change(x));
    Ok(pass.live_total)
}

// Whether a key is allowed, without counting.
pub fn is_allowed(
    settings: Settings,
    room: &mut [u64],
    reading: u64,
    caller: Caller,
    key: &[u8],
) -> RateLimitDecision
    ensures { Told (Calls.is_allowed settings room.old reading (sent caller key.now)) result room.new }
{
    let judged = judge::judge(
        RoomKind::Absolute,
        settings,
        room,
        reading,
        caller,
        key,
        judge::FIRST_LOOK,
    );
    let x = match judged {
        Ok(j) => j.slot,
        Err(r) => return RateLimitDecision::Refused(r.number()),
    };
    let limit = common::cut_limit(x.limit);
    let answer = decided(settings, reading, allows(limit, x), x);
    let again = evicts(limit, x);
    let join = settings.join_ticks();
    change::apply(room, x.at, caller, key, join, reading, ask_change(again, x));
    answer
}
