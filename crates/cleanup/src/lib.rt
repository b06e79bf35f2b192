// Cleanup of a room, for both parties: every slot in use is judged before the first write; then each keeps what is not stale. Only uses, who holds a slot
// and the last reading change.
#![tactic(auto)]

ghost use Rattle.std.specs.Prelude.{◌≡◌, ◌+◌, ◌<◌, ◌≤◌, true};
ghost use Rattle.settings.specs.Settings.{window_in, Proper};
ghost use Rattle.room.specs.Room.{Room, slots_of};
ghost use Rattle.common.specs.Refusals.{ruled};
ghost use Rattle.judge.specs.Verdict.{Told};
ghost use Rattle.cleanup.specs.Cleanup.{slot_passes, all_pass, refusal, cleanup};

use common::Refusal;
use parties::Caller;
use rules::RoomKind;
use settings::Settings;

// Whether slot `i` is free or sound: the one pass over its buckets is made here.
fn slot_passes(kind: RoomKind, settings: Settings, w: &[u64], i: usize, reading: u64) -> bool
    requires { Room w.now × (i < slots_of w.now) × (window_in settings ≤ 33554432) }
    ensures { result ≡ slot_passes kind settings w.now i }
{
    if room::holder_of(w, i) == layout::NOBODY {
        return true;
    }
    if !room::key_fits(w, i) {
        return false;
    }
    let window = settings.window_ticks();
    let x = opened::open_at(w, i, reading, window, window);
    opened::slot_right(kind, settings, w[layout::LAST], room::use_of(w, i), x)
}

fn all_pass(kind: RoomKind, settings: Settings, w: &[u64], reading: u64) -> bool
    requires { Room w.now × (window_in settings ≤ 33554432) }
    ensures { result ≡ all_pass kind settings w.now }
{
    let n = w[layout::SLOTS] as usize;
    for i in 0..n {
        if !slot_passes(kind, settings, w, i, reading) {
            return false;
        }
    }
    true
}

// Turned away with refusal 5, 6, 15 or 16, of a room whose lengths are right.
fn judge_room(
    kind: RoomKind,
    settings: Settings,
    w: &[u64],
    reading: u64,
    caller: Caller,
) -> Result<(), Refusal>
    requires { Room w.now × Proper settings }
    ensures { result ≡ ruled (refusal kind settings w.now reading caller) }
{
    let held = parties::census(w);
    if !held.ours {
        return Err(Refusal::BAD_ROOM);
    }
    if !all_pass(kind, settings, w, reading) {
        return Err(Refusal::BAD_ROOM);
    }
    if reading < w[layout::LAST] {
        return Err(Refusal::CLOCK_WENT_BACK);
    }
    parties::check(w, caller, held)
}

// Turned away with the lowest refusal of a cleanup.
pub fn judge_all(
    kind: RoomKind,
    settings: Settings,
    w: &[u64],
    reading: u64,
    caller: Caller,
) -> Result<(), Refusal>
    ensures { result ≡ ruled (refusal kind settings w.now reading caller) }
{
    settings.check()?;
    if !room::sized(w) {
        return Err(Refusal::BAD_ROOM);
    }
    judge_room(kind, settings, w, reading, caller)
}

pub fn cleanup(
    kind: RoomKind,
    settings: Settings,
    room: &mut [u64],
    reading: u64,
    caller: Caller,
    stale: u64,
) -> Result<(), Refusal>
    ensures { Told (cleanup kind settings room.old reading caller stale) result room.new }
{
    judge_all(kind, settings, room, reading, caller)?;
    let clock = settings.clock_mode;
    stale::clean(room, reading, clock.ticks_per_millisecond(), stale);
    Ok(())
}
