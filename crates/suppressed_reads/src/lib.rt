// What the suppressed limiter says of a key without counting: its live totals with its factor, and the factor alone, which takes a slot.
#![tactic(auto)]

ghost use Rattle.std.specs.Prelude.{◌≡◌};
ghost use Rattle.parties.specs.Parties.{sent};
ghost use Rattle.judge.specs.Verdict.{Told};
ghost use Rattle.rules.specs.declared.RoomKind.TheVariants.{Suppressed};
ghost use Rattle.suppressed_verdicts.specs.Calls.{get, get_factor};
ghost use Rattle.suppressed_verdicts.specs.Opened.{snapshot_at};

use answers::SuppressedRateLimitSnapshot;
use common::Refusal;
use opened::Slot;
use parties::Caller;
use rules::RoomKind;
use settings::Settings;

// Live total, live declined and the factor; zeros for an unknown key.
fn snapshot_of(x: Slot, factor: f64) -> SuppressedRateLimitSnapshot
    ensures { result ≡ snapshot_at x factor }
{
    let pass = x.pass;
    if !x.series {
        return SuppressedRateLimitSnapshot::default();
    }
    SuppressedRateLimitSnapshot {
        total: pass.live_total,
        total_declined: pass.live_declined,
        suppression_factor: factor,
    }
}

// A key's live totals and its factor.
pub fn get(
    settings: Settings,
    room: &mut [u64],
    reading: u64,
    caller: Caller,
    key: &[u8],
) -> Result<SuppressedRateLimitSnapshot, Refusal>
    ensures { Told (get settings room.old reading (sent caller key.now)) result room.new }
{
    let judged = judge::judge(
        RoomKind::Suppressed,
        settings,
        room,
        reading,
        caller,
        key,
        judge::NO_LOOK,
    )?;
    let x = judged.slot;
    let asked = factor_opened::ask(settings, room, x, x.limit, reading);
    let caching = asked.caching;
    let snapshot = snapshot_of(x, asked.factor);
    change::apply(
        room,
        x.at,
        caller,
        key,
        settings.join_ticks(),
        reading,
        suppressed_edits::get_change(x, caching),
    );
    Ok(snapshot)
}

// A key's factor, which is cached.
pub fn get_suppression_factor(
    settings: Settings,
    room: &mut [u64],
    reading: u64,
    caller: Caller,
    key: &[u8],
) -> Result<f64, Refusal>
    ensures { Told (get_factor settings room.old reading (sent caller key.now)) result room.new }
{
    let judged = judge::judge(
        RoomKind::Suppressed,
        settings,
        room,
        reading,
        caller,
        key,
        judge::FIRST_LOOK,
    )?;
    let x = judged.slot;
    let at = plan::place(room, x);
    if plan::lacks_slot(judged.none, x) {
        return Err(Refusal::NO_FREE_SLOT);
    }
    let asked = factor_opened::ask(settings, room, x, x.limit, reading);
    let caching = asked.caching;
    let change = suppressed_edits::factor_change(x, caching, reading);
    let join = settings.join_ticks();
    change::apply(room, at, caller, key, join, reading, change);
    Ok(asked.factor)
}
