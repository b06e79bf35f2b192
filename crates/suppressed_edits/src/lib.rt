// What the calls change of a key's slot, once its factor is known.
#![tactic(auto)]

ghost use Rattle.std.specs.Prelude.{◌≡◌};
ghost use Rattle.suppressed_edits.specs.Edits.{use_left, recached, get_change, lone_by, lone_change, factor_change, inc_edit, inc_change};

use change::Change;
use edit::{Edit, Then};
use factor_opened::stays;
use opened::Slot;
use suppression::CachedFactor;

// A series' use, by whether its cached factor stays.
fn use_left(stays_on: bool) -> u64
    ensures { result ≡ use_left stays_on }
{
    if stays_on {
        layout::BOTH
    } else {
        layout::SERIES
    }
}

// An edit of a series, with what becomes of the cached factor.
fn recached(x: Slot, caching: Option<CachedFactor>, e: Edit) -> Edit
    ensures { result ≡ recached x caching e }
{
    match caching {
        None => plan::restored(e, e.limit, e.factor, e.factor_time, use_left(stays(x))),
        Some(cached) => plan::restored(
            e,
            e.limit,
            common::word_of(cached.suppression_factor),
            cached.time,
            layout::BOTH,
        ),
    }
}

// A known key is rid of its expired buckets.
pub fn get_change(x: Slot, caching: Option<CachedFactor>) -> Change
    ensures { result ≡ get_change x caching }
{
    let series = x.series;
    if !series {
        return Change::Keep;
    }
    Change::Update(recached(x, caching, plan::evicting(x, Then::Nothing)))
}

// Factor 0 alone, in a slot that is there or is taken.
fn lone_by(there: bool, reading: u64) -> Change
    ensures { result ≡ lone_by there reading }
{
    let e = plan::opening(0, Then::Nothing, 0, reading, layout::CACHED);
    if there {
        Change::Update(e)
    } else {
        Change::Take(e)
    }
}

fn lone_change(there: bool, caching: Option<CachedFactor>, reading: u64) -> Change
    ensures { result ≡ lone_change there caching reading }
{
    match caching {
        None => Change::Keep,
        Some(_) => lone_by(there, reading),
    }
}

pub fn factor_change(x: Slot, caching: Option<CachedFactor>, reading: u64) -> Change
    ensures { result ≡ factor_change x caching reading }
{
    let series = x.series;
    if series {
        return get_change(x, caching);
    }
    lone_change(x.cached, caching, reading)
}

// The count goes to the live buckets, or to a series that begins.
fn inc_edit(x: Slot, limit: u64, count: u64, declined: u64) -> Edit
    ensures { result ≡ inc_edit x limit count declined }
{
    let series = x.series;
    if series {
        return plan::evicting(x, Then::Increment { count, declined });
    }
    plan::opening(
        limit,
        Then::Increment { count, declined },
        x.factor,
        x.factor_time,
        x.used,
    )
}

pub fn inc_change(
    x: Slot,
    limit: u64,
    count: u64,
    declined: u64,
    caching: Option<CachedFactor>,
) -> Change
    ensures { result ≡ inc_change x limit count declined caching }
{
    let e = recached(x, caching, inc_edit(x, limit, count, declined));
    if opened::has_slot(x) {
        Change::Update(e)
    } else {
        Change::Take(e)
    }
}
