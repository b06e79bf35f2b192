// A set on a key's slot as a value: whether it changes nothing, its outcome, its edit, its own refusals.
#![tactic(auto)]

ghost use Rattle.std.specs.Prelude.{◌≡◌, not, ◌&&◌};
ghost use Rattle.common.specs.Refusals.{first, ruled};
ghost use Rattle.rules.specs.Sets.{preserves};
ghost use Rattle.plan.specs.Plan.{relimited};
ghost use Rattle.sets_opened.specs.Sets.{set_own, already_at, vain, idle_at, total_after, outcome_at, reset, begins, stored, setting};

use answers::{ConditionalSetOutcome, HistoryUpdateMode};
use change::Change;
use common::{RateLimit, RateLimitComparator, Refusal};
use edit::{Edit, Then};
use opened::Slot;

fn preserves(mode: HistoryUpdateMode) -> bool
    ensures { result ≡ preserves mode }
{
    matches!(mode, HistoryUpdateMode::Preserve(_))
}

// Whether a history that is preserved is already what is asked for.
fn already(x: Slot, limit: u64, count: u64, mode: HistoryUpdateMode) -> bool
    ensures { result ≡ already_at x limit count mode }
{
    preserves(mode)
        && count != 0
        && x.pass.live_total == count
        && x.pass.expired == 0
        && x.limit == limit
}

// Whether a key is unknown and stays so.
fn vain(series: bool, count: u64) -> bool
    ensures { result ≡ vain series count }
{
    !series && count == 0
}

// Whether nothing changes.
pub fn idle(
    x: Slot,
    limit: u64,
    comparator: RateLimitComparator,
    count: u64,
    mode: HistoryUpdateMode,
) -> bool
    ensures { result ≡ idle_at x limit comparator count mode }
{
    !comparator.matches(x.pass.live_total)
        || vain(x.series, count)
        || already(x, limit, count, mode)
}

// The total after: the live one where nothing changes.
fn total_after(still: bool, live: u64, count: u64) -> u64
    ensures { result ≡ total_after still live count }
{
    if still { live } else { count }
}

pub fn outcome(
    x: Slot,
    still: bool,
    comparator: RateLimitComparator,
    count: u64,
) -> ConditionalSetOutcome
    ensures { result ≡ outcome_at x still comparator count }
{
    let pass = x.pass;
    let live = pass.live_total;
    ConditionalSetOutcome {
        matched: comparator.matches(live),
        previous_total: live,
        current_total: total_after(still, live, count),
    }
}

fn reset(x: Slot, limit: u64, count: u64, mode: HistoryUpdateMode) -> Edit
    ensures { result ≡ reset x limit count mode }
{
    match mode {
        HistoryUpdateMode::Replace => plan::relimited(
            plan::keeping(x, Then::Replace { count }),
            limit,
            layout::SERIES,
        ),
        HistoryUpdateMode::Preserve(preservation) => {
            let then = Then::Preserve {
                preservation,
                count,
            };
            plan::relimited(plan::evicting(x, then), limit, layout::SERIES)
        }
    }
}

// A series that begins with one bucket, and no cached factor.
fn begins(limit: u64, count: u64, factor: u64, factor_time: u64) -> Edit
    ensures { result ≡ begins limit count factor factor_time }
{
    let then = Then::Increment { count, declined: 0 };
    plan::opening(limit, then, factor, factor_time, layout::SERIES)
}

fn stored(x: Slot, limit: u64, count: u64, mode: HistoryUpdateMode) -> Change
    ensures { result ≡ stored x limit count mode }
{
    let series = x.series;
    let cached = x.cached;
    if series {
        return Change::Update(reset(x, limit, count, mode));
    }
    if cached {
        return Change::Update(begins(limit, count, x.factor, x.factor_time));
    }
    Change::Take(begins(limit, count, 0, 0))
}

pub fn setting(x: Slot, still: bool, limit: u64, count: u64, mode: HistoryUpdateMode) -> Change
    ensures { result ≡ setting x still limit count mode }
{
    if still {
        return Change::Keep;
    }
    if count == 0 {
        return Change::Free;
    }
    stored(x, limit, count, mode)
}

// Turned away with the first of 8, 10 and 11: `none` says whether a slot is lacking.
#[tactic(auto, unfolding(common::specs::Refusals::first, crate::specs::Sets::set_own))]
pub fn check_set(rate: RateLimit, count: u64, none: bool) -> Result<(), Refusal>
    ensures { result ≡ ruled (first (set_own rate count none)) }
{
    if !rate.is_in_range() {
        return Err(Refusal::BAD_RATE);
    }
    if count > layout::MOST_TOTAL {
        return Err(Refusal::TOTAL_TOO_LARGE);
    }
    if none {
        return Err(Refusal::NO_FREE_SLOT);
    }
    Ok(())
}

// A slot is lacking only where something changes.
pub fn lacks_unless(still: bool, lacks: bool) -> bool
    ensures { result ≡ (not still && lacks) }
{
    !still && lacks
}
