// An increment's own refusals 8 to 12.
#![tactic(auto)]

ghost use Rattle.std.specs.Prelude.{◌≡◌, ◌≤◌};
ghost use Rattle.common.specs.Refusals.{first, ruled};
ghost use Rattle.settings.specs.Settings.{bucket_in};
ghost use Rattle.room.specs.Room.{Room, ring_of};
ghost use Rattle.suppressed_refusals.specs.Refusals.{inc_late};

use common::{RateLimit, Refusal};
use opened::Slot;
use settings::Settings;

const MOST_DRAW: u64 = 9007199254740991;

pub fn ring_of(w: &[u64]) -> usize
    requires { Room w.now }
    ensures { result ≡ ring_of w.now }
{
    w[layout::RING] as usize
}

// The first of refusals 8 to 12 that an increment meets.
#[tactic(auto, unfolding(common::specs::Refusals::first))]
pub fn inc_late(
    settings: Settings,
    x: Slot,
    lacks: bool,
    ring: usize,
    reading: u64,
    rate: RateLimit,
    count: u64,
    draw: u64,
) -> Result<(), Refusal>
    requires { bucket_in settings ≤ 4294967296 }
    ensures { result ≡ ruled (first (inc_late settings x lacks ring reading rate count draw)) }
{
    let pass = x.pass;
    if !rate.is_in_range() {
        return Err(Refusal::BAD_RATE);
    }
    if MOST_DRAW < draw {
        return Err(Refusal::BAD_DRAW);
    }
    if plan::passes(count, pass.live_total) {
        return Err(Refusal::TOTAL_TOO_LARGE);
    }
    if lacks {
        return Err(Refusal::NO_FREE_SLOT);
    }
    if plan::is_ring_full(ring, settings.join_ticks(), reading, pass.expired, x) {
        return Err(Refusal::RING_FULL);
    }
    Ok(())
}
