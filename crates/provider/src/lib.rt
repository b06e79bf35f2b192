// What the provider does with both rooms at once: its cleanup, which judges both before it writes in either.
#![tactic(auto)]

ghost use Rattle.std.specs.Prelude.{◌≡◌};
ghost use Rattle.common.specs.Refusals.{ruled};
ghost use Rattle.provider.specs.Provider.{lower, refusal_of_both, cleanup, Told};

use common::Refusal;
use parties::Caller;
use rules::RoomKind;
use settings::Settings;

// The lower of two refusals, where there are two.
#[tactic(auto, unfolding(crate::specs::Provider::lower))]
fn lower(a: Result<(), Refusal>, b: Result<(), Refusal>) -> Result<(), Refusal>
    ensures { result ≡ lower a b }
{
    let Err(m) = a else {
        return b;
    };
    let Err(n) = b else {
        return a;
    };
    if m.0 < n.0 {
        return a;
    }
    b
}

// Turned away with the lowest refusal over both rooms.
fn judge_both(
    settings: Settings,
    absolute: &[u64],
    suppressed: &[u64],
    reading: u64,
    absolutes: Caller,
    suppresseds: Caller,
) -> Result<(), Refusal>
    ensures { result ≡ ruled (refusal_of_both settings absolute.now suppressed.now reading absolutes suppresseds) }
{
    let m = cleanup::judge_all(RoomKind::Absolute, settings, absolute, reading, absolutes);
    let n = cleanup::judge_all(
        RoomKind::Suppressed,
        settings,
        suppressed,
        reading,
        suppresseds,
    );
    lower(m, n)
}

// Cleans both rooms or neither. Each room has a caller of its own: its promises are those of that room.
pub fn cleanup(
    settings: Settings,
    absolute: &mut [u64],
    suppressed: &mut [u64],
    reading: u64,
    absolutes: Caller,
    suppresseds: Caller,
    stale: u64,
) -> Result<(), Refusal>
    ensures { Told (cleanup settings absolute.old suppressed.old reading absolutes suppresseds stale) result
        absolute.new suppressed.new }
{
    judge_both(
        settings,
        absolute,
        suppressed,
        reading,
        absolutes,
        suppresseds,
    )?;
    let ticks = settings.clock_mode.ticks_per_millisecond();
    stale::clean(absolute, reading, ticks, stale);
    stale::clean(suppressed, reading, ticks, stale);
    Ok(())
}
