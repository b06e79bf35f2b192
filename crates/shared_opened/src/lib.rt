// The decisions of the calls that both limiters have, on a key's slot that is opened: delete and setting a rate. The room's kind says whose
// limit is meant. The sets have `sets_opened`; the calls stand above, in `calls`.
#![tactic(auto)]

ghost use Rattle.std.specs.Prelude.{◌≡◌};
ghost use Rattle.common.specs.Refusals.{first, ruled};
ghost use Rattle.rules.specs.Both.{limit_in};
ghost use Rattle.rules.specs.Sets.{rate_turns};
ghost use Rattle.shared_opened.specs.Opened.{deleted_at, deleting, old_rate_at, used_with, limiting};

use change::Change;
use common::{RateLimit, Refusal};
use edit::Then;
use opened::Slot;
use rules::RoomKind;
use settings::Settings;

pub fn deleted(x: Slot) -> Option<u64>
    ensures { result ≡ deleted_at x }
{
    let series = x.series;
    let cached = x.cached;
    let pass = x.pass;
    if series {
        return Some(ring::less(pass.live_total, pass.live_declined));
    }
    if cached {
        return Some(0);
    }
    None
}

pub fn deleting(x: Slot) -> Change
    ensures { result ≡ deleting x }
{
    if opened::has_slot(x) {
        return Change::Free;
    }
    Change::Keep
}

// The word that is stored of a rate.
pub fn limit_of(kind: RoomKind, settings: Settings, rate: RateLimit) -> u64
    ensures { result ≡ limit_in kind settings rate }
{
    let window = settings.window_size;
    let factor = settings.hard_limit_factor;
    match kind {
        RoomKind::Absolute => common::absolute_limit(rate, window),
        RoomKind::Suppressed => common::hard_limit(rate, factor, window),
    }
}

pub fn old_rate(kind: RoomKind, settings: Settings, x: Slot) -> Option<RateLimit>
    ensures { result ≡ old_rate_at kind settings x }
{
    let series = x.series;
    let window = settings.window_size;
    let factor = settings.hard_limit_factor;
    if series {
        let rate = RateLimit::from_stored_window_limit(
            x.limit,
            window,
            opened::divisor(kind, factor),
        );
        return Some(rate);
    }
    None
}

// The use after a limit is stored: a new one forgets the cached factor.
fn used_with(x: Slot, limit: u64) -> u64
    ensures { result ≡ used_with x limit }
{
    let old = x.limit;
    let used = x.used;
    if limit == old {
        return used;
    }
    if used == layout::BOTH {
        return layout::SERIES;
    }
    used
}

pub fn limiting(x: Slot, limit: u64) -> Change
    ensures { result ≡ limiting x limit }
{
    let series = x.series;
    if series {
        let used = used_with(x, limit);
        return Change::Update(plan::relimited(plan::keeping(x, Then::Nothing), limit, used));
    }
    Change::Keep
}

#[tactic(auto, unfolding(common::specs::Refusals::first, rules::specs::Sets::rate_turns))]
pub fn check_rate(rate: RateLimit) -> Result<(), Refusal>
    ensures { result ≡ ruled (first (rate_turns rate)) }
{
    if !rate.is_in_range() {
        return Err(Refusal::BAD_RATE);
    }
    Ok(())
}
