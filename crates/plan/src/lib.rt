// What the limiters plan on a key's slot: where it stands, whether an increment fits, and the edits, of the slot as it is, without its expired
// buckets, or with a series that begins.
#![tactic(auto)]

ghost use Rattle.std.specs.Prelude.{◌≡◌, ◌-◌};
ghost use Rattle.rules.specs.Both.{passes};
ghost use Rattle.room.specs.Room.{Room};
ghost use Rattle.plan.specs.Plan.{place_of, lacks_at, joins_after, full_after, keeping, evicting, opening, restored, relimited};

use edit::{Edit, Then};
use opened::Slot;

// ---- where

// The key's slot, or the lowest free one, or the number of slots where none is free.
#[tactic(auto, unfolding(crate::specs::Plan::place_of))]
pub fn place(w: &[u64], x: Slot) -> usize
    requires { Room w.now }
    ensures { result ≡ place_of w.now x }
{
    if opened::has_slot(x) {
        x.at
    } else {
        room::vacant(w)
    }
}

// Whether a slot is needed and the party has none left.
#[tactic(auto, unfolding(crate::specs::Plan::lacks_at))]
pub fn lacks_slot(none: bool, x: Slot) -> bool
    ensures { result ≡ lacks_at none x }
{
    !opened::has_slot(x) && none
}

// ---- whether an increment fits

// Whether a total with the count passes 2^53; no sum wraps.
#[tactic(auto, unfolding(rules::specs::Both::passes))]
pub fn passes(count: u64, total: u64) -> bool
    ensures { result ≡ passes count total }
{
    layout::MOST_TOTAL < total.saturating_add(count)
}

// Whether an increment joins the newest bucket, once `gone` of the oldest are out.
#[tactic(auto, unfolding(crate::specs::Plan::joins_after))]
fn joins_after(size: u64, reading: u64, gone: usize, x: Slot) -> bool
    ensures { result ≡ joins_after size reading gone x }
{
    gone < x.pass.buckets && ring::less(reading, x.pass.newest_time) <= size
}

// Whether a bucket must be added to a full ring of `r`, once `gone` of the oldest are out.
#[tactic(auto, unfolding(crate::specs::Plan::full_after))]
pub fn is_ring_full(r: usize, size: u64, reading: u64, gone: usize, x: Slot) -> bool
    ensures { result ≡ full_after r size reading gone x }
{
    !joins_after(size, reading, gone, x) && r <= x.pass.buckets.saturating_sub(gone)
}

// ---- edits

// The slot with its buckets, and `then` done to them.
pub fn keeping(x: Slot, then: Then) -> Edit
    ensures { result ≡ keeping x then }
{
    Edit {
        begins: false,
        gone: 0,
        total: x.total,
        declined: x.declined,
        then,
        limit: x.limit,
        factor: x.factor,
        factor_time: x.factor_time,
        used: x.used,
    }
}

// The slot without its expired buckets, and `then` done to the others.
pub fn evicting(x: Slot, then: Then) -> Edit
    ensures { result ≡ evicting x then }
{
    let pass = x.pass;
    Edit {
        begins: false,
        gone: pass.expired,
        total: pass.live_total,
        declined: pass.live_declined,
        then,
        limit: x.limit,
        factor: x.factor,
        factor_time: x.factor_time,
        used: x.used,
    }
}

// A series that begins with `limit`, in a slot whose cached factor's words and use are given.
pub fn opening(limit: u64, then: Then, factor: u64, factor_time: u64, used: u64) -> Edit
    ensures { result ≡ opening limit then factor factor_time used }
{
    Edit {
        begins: true,
        gone: 0,
        total: 0,
        declined: 0,
        then,
        limit,
        factor,
        factor_time,
        used,
    }
}

// An edit with another limit, cached factor and use.
pub fn restored(e: Edit, limit: u64, factor: u64, factor_time: u64, used: u64) -> Edit
    ensures { result ≡ restored e limit factor factor_time used }
{
    let then = e.then;
    Edit {
        begins: e.begins,
        gone: e.gone,
        total: e.total,
        declined: e.declined,
        then,
        limit,
        factor,
        factor_time,
        used,
    }
}

// An edit with another limit and use.
pub fn relimited(e: Edit, limit: u64, used: u64) -> Edit
    ensures { result ≡ relimited e limit used }
{
    restored(e, limit, e.factor, e.factor_time, used)
}
