// What the read-out finds before it writes: the refusal, the key's slot, and its buckets one by one.
#![tactic(auto)]

ghost use Rattle.std.specs.Prelude.{◌≡◌, get_or};
ghost use Rattle.ring.specs.Ring.{no_bucket, buckets};
ghost use Rattle.room.specs.Room.{ring_of, last_of, body_of};
ghost use Rattle.finding.specs.Finding.{Readable, asked, as_held, found};

use common::Refusal;
use parties::Caller;
use ring::Bucket;
use rules::RoomKind;
use settings::Settings;

// Of a call that is not refused: the key's slot, and how many buckets there are to read.
#[derive(Clone, Copy)]
pub struct Found {
    pub slot: usize,
    pub count: usize,
}

// The room's last reading, or 0 where the words are too few to have one.
fn last_reading(room: &[u64]) -> u64
    ensures { result ≡ last_of room.now }
{
    if room.len() <= layout::LAST {
        return 0;
    }
    room[layout::LAST]
}

// Who reads, with each party promised just the slots that it holds.
fn as_held(room: &[u64], party: u64) -> Caller
    ensures { result ≡ as_held room.now party }
{
    if !room::sized(room) {
        return Caller {
            party,
            first: 0,
            second: 0,
        };
    }
    let held = parties::census(room);
    Caller {
        party,
        first: held.first,
        second: held.second,
    }
}

// The read-out has no reading and no promises: it judges at the room's own last reading and for what is held, so that refusals 6 and 16 are never met.
pub fn find_series(
    kind: RoomKind,
    settings: Settings,
    room: &[u64],
    party: u64,
    key: &[u8],
) -> Result<Found, Refusal>
    ensures { result ≡ found kind settings room.now (asked party key.now) }
{
    let judged = judge::judge(
        kind,
        settings,
        room,
        last_reading(room),
        as_held(room, party),
        key,
        judge::NO_LOOK,
    )?;
    let slot = judged.slot;
    let pass = slot.pass;
    Ok(Found {
        slot: slot.at,
        count: pass.buckets,
    })
}

// Bucket `i` of a slot, from the oldest.
pub fn bucket_at(room: &[u64], slot: usize, i: usize) -> Bucket
    requires { Readable room.now slot }
    ensures { result ≡ get_or (buckets (ring_of room.now) (body_of room.now slot)) i no_bucket }
{
    let ring = room[layout::RING] as usize;
    let start = room::start(room, slot);
    let end = start + (layout::FIXED + layout::CELL * ring);
    ring::nth_or_none(&room[start..end], ring, i)
}
