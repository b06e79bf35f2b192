// Clear, for either limiter: every slot of the caller's party is freed. Slots are not judged but for whose they are.
#![tactic(auto)]

ghost use Rattle.std.specs.Prelude.{◌≡◌};
ghost use Rattle.common.specs.Refusals.{ruled};
ghost use Rattle.judge.specs.Verdict.{Told};
ghost use Rattle.clearing.specs.Clear.{clear_refusal, clear};

use common::Refusal;
use parties::Caller;
use settings::Settings;

// Turned away with the first of refusals 1 to 6, 15 and 16 that applies: what slots hold is not judged.
fn judge(settings: Settings, w: &[u64], reading: u64, caller: Caller) -> Result<(), Refusal>
    ensures { result ≡ ruled (clear_refusal settings w.now reading caller) }
{
    settings.check()?;
    if !room::sized(w) {
        return Err(Refusal::BAD_ROOM);
    }
    let held = parties::census(w);
    if !held.ours {
        return Err(Refusal::BAD_ROOM);
    }
    if reading < w[layout::LAST] {
        return Err(Refusal::CLOCK_WENT_BACK);
    }
    parties::check(w, caller, held)
}

pub fn clear(
    settings: Settings,
    room: &mut [u64],
    reading: u64,
    caller: Caller,
) -> Result<(), Refusal>
    ensures { Told (clear settings room.old reading caller) result room.new }
{
    judge(settings, room, reading, caller)?;
    room::clear(room, parties::mark(caller.party));
    room::store_reading(room, reading);
    Ok(())
}
