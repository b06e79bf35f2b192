// The absolute limiter's decisions on a key's slot that is opened: which refusals an increment meets, and what each call changes.
// `limit` is the key's limit, cut to a whole number once by the caller. The test stands below, in `absolute_test`; the calls above, in
// `absolute_reads` and `absolute_inc`.
#![tactic(auto)]

ghost use Rattle.std.specs.Prelude.{◌≡◌};
ghost use Rattle.common.specs.Limits.{absolute_word};
ghost use Rattle.common.specs.Ranges.{rate_ok};
ghost use Rattle.common.specs.Refusals.{first, ruled};
ghost use Rattle.room.specs.Room.{Room, ring_of};
ghost use Rattle.plan.specs.Plan.{lacks_at};
ghost use Rattle.absolute_opened.specs.Opened.{leaving, crowds_at, clears_at, inc_refusals, get_change, ask_change, inc_change};
ghost use Rattle.absolute_test.specs.Test.{evicts};

use absolute_test::{evicts, gone_if, total_if};
use change::Change;
use common::{RateLimit, Refusal, WindowSize};
use edit::{Edit, Then};
use opened::Slot;

fn leaving(out: bool, x: Slot, then: Then) -> Edit
    ensures { result ≡ leaving out x then }
{
    if out {
        plan::evicting(x, then)
    } else {
        plan::keeping(x, then)
    }
}

// Whether an increment of the buckets as they are stored would meet 10 or 12.
fn is_crowded(r: usize, size: u64, reading: u64, count: u64, x: Slot) -> bool
    ensures { result ≡ crowds_at r size reading count x }
{
    plan::passes(count, x.total) || plan::is_ring_full(r, size, reading, 0, x)
}

// Whether an allowed increment takes the expired buckets out.
#[tactic(auto, unfolding(crate::specs::Opened::clears_at))]
pub fn clears(w: &[u64], limit: u64, size: u64, reading: u64, count: u64, x: Slot) -> bool
    requires { Room w.now }
    ensures { result ≡ clears_at (ring_of w.now) size reading count limit x }
{
    let r = w[layout::RING] as usize;
    evicts(limit, x) || is_crowded(r, size, reading, count, x)
}

// An increment's own refusals: `none` says whether the party has no slot left, `may` whether the key is allowed, `out` whether the expired
// buckets are out.
#[tactic(auto, unfolding(common::specs::Refusals::first, crate::specs::Opened::inc_refusals))]
pub fn late(
    w: &[u64],
    size: u64,
    reading: u64,
    rate: RateLimit,
    count: u64,
    none: bool,
    may: bool,
    out: bool,
    x: Slot,
) -> Result<(), Refusal>
    requires { Room w.now }
    ensures { result ≡ ruled (first (inc_refusals (ring_of w.now) size reading count (rate_ok rate.0) may (lacks_at none x) out x)) }
{
    let r = w[layout::RING] as usize;
    if !rate.is_in_range() {
        return Err(Refusal::BAD_RATE);
    }
    if may && plan::passes(count, total_if(out, x)) {
        return Err(Refusal::TOTAL_TOO_LARGE);
    }
    if plan::lacks_slot(none, x) {
        return Err(Refusal::NO_FREE_SLOT);
    }
    if may && plan::is_ring_full(r, size, reading, gone_if(out, x), x) {
        return Err(Refusal::RING_FULL);
    }
    Ok(())
}

// What `get` changes: expired buckets go.
#[tactic(auto, unfolding(crate::specs::Opened::get_change))]
pub fn get_change(x: Slot) -> Change
    ensures { result ≡ get_change x }
{
    if !x.series {
        return Change::Keep;
    }
    Change::Update(plan::evicting(x, Then::Nothing))
}

// What `is_allowed` changes: expired buckets go where it tests again.
pub fn ask_change(again: bool, x: Slot) -> Change
    ensures { result ≡ ask_change again x }
{
    if !again {
        return Change::Keep;
    }
    get_change(x)
}

// What `inc` changes: a series begins, or counts, or loses to a rejection what the first look finds expired; `looked` is the slot as it leaves it.
#[tactic(auto, unfolding(crate::specs::Opened::inc_change))]
pub fn inc_change(
    rate: RateLimit,
    window: WindowSize,
    count: u64,
    may: bool,
    out: bool,
    x: Slot,
    looked: Slot,
) -> Change
    ensures { result ≡ inc_change (absolute_word rate.0 window.0) count may out x looked }
{
    let then = Then::Increment { count, declined: 0 };
    if !x.series {
        let limit = common::absolute_limit(rate, window);
        return Change::Take(plan::opening(limit, then, 0, 0, layout::SERIES));
    }
    if !may {
        return Change::Update(plan::evicting(looked, Then::Nothing));
    }
    Change::Update(leaving(out, x, then))
}
