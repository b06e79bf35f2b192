// Two parties share a room, each promised a number of its slots: whose a slot is, how many each holds, and what that refuses.
#![tactic(auto)]

ghost use Rattle.std.specs.Prelude.{◌≡◌, true, ◌%◌, ◌^◌, ◌≤◌};
ghost use Rattle.common.specs.Refusals.{first, ruled};
ghost use Rattle.room.specs.Room.{Room, slots_of};
ghost use Rattle.parties.specs.Parties.{is_party, mark_of, none_left, turns, standing_of};
ghost use Rattle.parties.specs.Census.{census_of, overdrawn_by, Counts};

use common::Refusal;

// Who calls: a party, 1 or 2, and how many slots each of the two is promised. Any number may be handed over, and 15 turns others away.
#[derive(Clone, Copy)]
pub struct Caller {
    pub party: u64,
    pub first: u64,
    pub second: u64,
}

// Whether every slot in use is a party's, and how many slots each holds, one that both hold for each.
#[derive(Clone, Copy)]
pub struct Holdings {
    pub ours: bool,
    pub first: u64,
    pub second: u64,
}

// Whether every slot in use is a party's; where it is, what 15 and 16 say, and whether the caller's party already holds all slots that it is promised.
#[derive(Clone, Copy)]
pub struct Standing {
    pub ours: bool,
    pub turned: Result<(), Refusal>,
    pub none: bool,
}

// Who holds the party's slots, as a slot's bits say it: the party's number; a party other than 1 and 2 holds none.
pub fn mark(party: u64) -> u64
    ensures { result ≡ mark_of party }
{
    if 2 < party { layout::NOBODY } else { party }
}

pub fn is_party(party: u64) -> bool
    ensures { result ≡ is_party party }
{
    party == 1 || party == 2
}

// The bits of a word that are of the room's own slots.
fn own_bits(slots: u64, x: u64) -> u64
    requires { (1 ≤ slots) × (slots ≤ 64) }
    ensures { result ≡ x % 2 ^ slots }
{
    x & (u64::MAX >> (64 - slots))
}

// Two words tell it of all slots: no slot is both parties', and each word's bits are counted.
pub fn census(w: &[u64]) -> Holdings
    requires { Room w.now }
    ensures { result ≡ census_of w.now }
{
    let slots = w[layout::SLOTS];
    let firsts = own_bits(slots, w[layout::FIRSTS]);
    let seconds = own_bits(slots, w[layout::SECONDS]);
    Holdings {
        ours: firsts & seconds == 0,
        first: u64::count_ones(firsts) as u64,
        second: u64::count_ones(seconds) as u64,
    }
}

// Whether the promises together pass `slots`, or a party holds more than its own. No sum wraps.
fn is_overdrawn(slots: u64, caller: Caller, held: Holdings) -> bool
    ensures { result ≡ overdrawn_by slots caller held }
{
    slots < caller.first
        || slots - caller.first < caller.second
        || caller.first < held.first
        || caller.second < held.second
}

// Turned away with the first of 15 and 16 that applies.
pub fn check(w: &[u64], caller: Caller, held: Holdings) -> Result<(), Refusal>
    requires { Room w.now × Counts w.now held }
    ensures { result ≡ ruled (first (turns w.now caller)) }
{
    if !is_party(caller.party) {
        return Err(Refusal::BAD_PARTY);
    }
    if is_overdrawn(w[layout::SLOTS], caller, held) {
        return Err(Refusal::BAD_PROMISE);
    }
    Ok(())
}

// Whether the caller's party already holds its promised number of slots.
pub fn none_left(w: &[u64], caller: Caller, held: Holdings) -> bool
    requires { Counts w.now held }
    ensures { result ≡ none_left w.now caller }
{
    if caller.party == 1 {
        caller.first <= held.first
    } else {
        caller.second <= held.second
    }
}

// All at once, of a call with a key.
pub fn standing_of(w: &[u64], caller: Caller) -> Standing
    requires { Room w.now }
    ensures { result ≡ standing_of w.now caller }
{
    let held = census(w);
    if !held.ours {
        return Standing {
            ours: false,
            turned: Ok(()),
            none: false,
        };
    }
    Standing {
        ours: true,
        turned: check(w, caller, held),
        none: none_left(w, caller, held),
    }
}
