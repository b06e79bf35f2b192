// What every call with a key judges before it does anything: refusals 1 to 7, 15 and 16, and the key's slot opened into a value.
#![tactic(auto)]

ghost use Rattle.std.specs.Prelude.{◌≡◌, false, ◌<◌, ◌≤◌};
ghost use Rattle.common.specs.Refusals.{ruled};
ghost use Rattle.settings.specs.Settings.{Proper, window_in};
ghost use Rattle.room.specs.Room.{Room};
ghost use Rattle.opened.specs.Sound.{addressed, sound_at};
ghost use Rattle.opened.specs.Right.{Addresses};
ghost use Rattle.parties.specs.Parties.{sent, standing_of};
ghost use Rattle.judge.specs.Judge.{fault_of, early, look_by, judged_by};

use common::Refusal;
use opened::Slot;
use parties::{Caller, Standing};
use rules::RoomKind;
use settings::Settings;

const LONGEST_KEY: usize = layout::LONGEST_KEY as usize;

// Whether a call takes a first look, before it asks what is expired.
pub const FIRST_LOOK: bool = true;

pub const NO_LOOK: bool = false;

// Of a call that passes: the key's slot, and whether the caller's party already holds all slots that it is promised. With the slot behind that, every call
// that takes it out of here costs some 10 ns more.
#[derive(Clone, Copy)]
pub struct Judged {
    pub slot: Slot,
    pub none: bool,
}

// The lowest slot with the caller's key, or the number of slots.
pub fn address(w: &[u64], caller: Caller, key: &[u8]) -> usize
    requires { Room w.now }
    ensures { result ≡ addressed w.now (sent caller key.now) }
{
    if LONGEST_KEY < key.len() {
        return w[layout::SLOTS] as usize;
    }
    room::find(w, keys::key_of(parties::mark(caller.party), key))
}

// Whether the slot addressed is sound, if there is one; its key is the one that was looked for.
fn sound_at(
    kind: RoomKind,
    settings: Settings,
    w: &[u64],
    caller: Caller,
    key: &[u8],
    x: Slot,
) -> bool
    requires { Addresses w.now (sent caller key.now) settings x }
    ensures { result ≡ sound_at kind settings w.now (addressed w.now (sent caller key.now)) }
{
    let slots = w[layout::SLOTS] as usize;
    let at = x.at;
    if slots <= at {
        return true;
    }
    opened::slot_right(kind, settings, w[layout::LAST], room::use_of(w, at), x)
}

// Turned away with the first of refusals 1 to 5 that the settings and the room's lengths meet.
pub fn fault(settings: Settings, w: &[u64]) -> Result<(), Refusal>
    ensures { result ≡ ruled (fault_of settings w.now) }
{
    settings.check()?;
    if !room::sized(w) {
        return Err(Refusal::BAD_ROOM);
    }
    Ok(())
}

// Turned away with the first of refusals 5 to 7, 15 and 16 that the slots, the key's slot, the reading, the key or the caller meets.
pub fn misfit(
    kind: RoomKind,
    settings: Settings,
    w: &[u64],
    reading: u64,
    caller: Caller,
    key: &[u8],
    x: Slot,
    standing: Standing,
) -> Result<(), Refusal>
    requires { Addresses w.now (sent caller key.now) settings x × Proper settings × (standing ≡ standing_of w.now caller) }
    ensures { result ≡ ruled (early kind settings w.now reading (sent caller key.now)) }
{
    if !standing.ours {
        return Err(Refusal::BAD_ROOM);
    }
    if !sound_at(kind, settings, w, caller, key, x) {
        return Err(Refusal::BAD_ROOM);
    }
    if reading < w[layout::LAST] {
        return Err(Refusal::CLOCK_WENT_BACK);
    }
    if LONGEST_KEY < key.len() {
        return Err(Refusal::LONG_KEY);
    }
    standing.turned
}

fn look_of(settings: Settings, first: bool) -> u64
    requires { window_in settings ≤ 33554432 }
    ensures { result ≡ look_by first settings }
{
    if first {
        return settings.look_ticks();
    }
    settings.window_ticks()
}

// All at once: the key's slot, as a first look leaves it or not. An increment takes these steps itself, so that its slot is not copied.
#[tactic(auto, using(crate::proofs::Laws::room_there, crate::proofs::Laws::window_fits))]
pub fn judge(
    kind: RoomKind,
    settings: Settings,
    w: &[u64],
    reading: u64,
    caller: Caller,
    key: &[u8],
    first: bool,
) -> Result<Judged, Refusal>
    ensures { result ≡ judged_by first kind settings w.now reading (sent caller key.now) }
{
    fault(settings, w)?;
    let standing = parties::standing_of(w, caller);
    let window = settings.window_ticks();
    let look = look_of(settings, first);
    let x = opened::open_at(w, address(w, caller, key), reading, window, look);
    misfit(kind, settings, w, reading, caller, key, x, standing)?;
    Ok(Judged {
        slot: x,
        none: standing.none,
    })
}
