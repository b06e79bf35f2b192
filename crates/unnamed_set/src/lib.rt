// A set whose comparator or mode is not named: it is judged as far as it can be without them.
#![tactic(auto)]

ghost use Rattle.std.specs.Prelude.{◌≡◌};
ghost use Rattle.parties.specs.Parties.{sent};
ghost use Rattle.unnamed_set.specs.Unnamed.{refusal};

use common::{RateLimit, Refusal};
use parties::Caller;
use rules::RoomKind;
use settings::Settings;

// The first refusal that needs neither of the two, or 14.
pub fn refusal(
    kind: RoomKind,
    settings: Settings,
    room: &[u64],
    reading: u64,
    caller: Caller,
    key: &[u8],
    rate: RateLimit,
    count: u64,
) -> Refusal
    ensures { result.0 ≡ refusal kind settings room.now reading (sent caller key.now) rate count }
{
    if let Err(early) = judge::judge(kind, settings, room, reading, caller, key, judge::NO_LOOK) {
        return early;
    }
    if let Err(own) = sets_opened::check_set(rate, count, false) {
        return own;
    }
    Refusal::NO_CALL
}
