// A slot opened into a value by one pass over its buckets, and whether its words are right.
#![tactic(auto)]

ghost use Rattle.std.specs.Prelude.{◌≡◌, ◌≤◌, length};
ghost use Rattle.sweep.specs.Sweep.{pass_of, looked_pass};
ghost use Rattle.layout.specs.Layout.{fixed_words};
ghost use Rattle.room.specs.Room.{Room};
ghost use Rattle.opened.specs.Sound.{has_series, has_cached, right_use, declined_right};
ghost use Rattle.rules.specs.Both.{divisor};
ghost use Rattle.opened.specs.Slot.{no_slot, pick_pass, opened, pick_slot, slot_of, has_slot, passing, all_stay, leaves_expired, first_look};
ghost use Rattle.opened.specs.Right.{series_right, cached_right, slot_right};

use rules::RoomKind;
use settings::Settings;
use sweep::{Mark, Pass};

// A key's slot: where it is (the number of slots where there is none), its use, what it holds, and its words.
#[derive(Clone, Copy)]
pub struct Slot {
    pub at: usize,
    pub used: u64,
    pub series: bool,
    pub cached: bool,
    pub limit: u64,
    pub total: u64,
    pub declined: u64,
    pub factor: u64,
    pub factor_time: u64,
    pub pass: Pass,
}

pub fn no_slot(at: usize) -> Slot
    ensures { result ≡ no_slot at }
{
    Slot {
        at,
        used: 0,
        series: false,
        cached: false,
        limit: 0,
        total: 0,
        declined: 0,
        factor: 0,
        factor_time: 0,
        pass: sweep::no_pass(),
    }
}

// Whether the key has a slot: for a series, or for a lone cached factor.
pub fn has_slot(x: Slot) -> bool
    ensures { result ≡ has_slot x }
{
    x.series || x.cached
}

pub fn has_series(u: u64) -> bool
    ensures { result ≡ has_series u }
{
    u == layout::SERIES || u == layout::BOTH
}

fn has_cached(u: u64) -> bool
    ensures { result ≡ has_cached u }
{
    u == layout::CACHED || u == layout::BOTH
}

fn series_pass(
    b: &[u64],
    r: usize,
    last: u64,
    reading: u64,
    window: u64,
    look: u64,
    series: bool,
) -> Pass
    ensures { result ≡ pick_pass series (looked_pass look reading b.now (pass_of r b.now last reading window)) }
{
    if series {
        sweep::pass(b, r, last, reading, window, look)
    } else {
        sweep::no_pass()
    }
}

// The body of slot `at`, of use `u`, opened: the one pass over its buckets is made here.
fn open_body(
    b: &[u64],
    r: usize,
    last: u64,
    reading: u64,
    window: u64,
    look: u64,
    at: usize,
    u: u64,
) -> Slot
    requires { fixed_words ≤ length b.now }
    ensures { result ≡ first_look look reading (opened window r last reading at u b.now) }
{
    let series = has_series(u);
    let pass = series_pass(b, r, last, reading, window, look, series);
    Slot {
        at,
        used: u,
        series,
        cached: has_cached(u),
        limit: b[layout::LIMIT],
        total: b[layout::TOTAL],
        declined: b[layout::DECLINED],
        factor: b[layout::FACTOR],
        factor_time: b[layout::FACTOR_TIME],
        pass,
    }
}

// Slot `at`, or none where there are fewer, as a look leaves it; a look at `window` itself leaves nothing that is expired. Both are in ticks.
pub fn open_at(w: &[u64], at: usize, reading: u64, window: u64, look: u64) -> Slot
    requires { Room w.now }
    ensures { result ≡ first_look look reading (slot_of window w.now reading at) }
{
    let slots = w[layout::SLOTS] as usize;
    let r = w[layout::RING] as usize;
    let last = w[layout::LAST];
    if slots <= at {
        return no_slot(slots);
    }
    let u = room::use_of(w, at);
    let a = room::start(w, at);
    let e = a + (layout::FIXED + layout::CELL * r);
    open_body(&w[a..e], r, last, reading, window, look, at, u)
}

// The slot with another pass over its buckets.
fn with_pass(x: Slot, pass: Pass) -> Slot
    ensures { result ≡ passing pass x }
{
    Slot { pass, ..x }
}

// The same, built anew.
fn again(x: Mark) -> Mark
    ensures { result ≡ x }
{
    Mark {
        count: x.count,
        time: x.time,
    }
}

// The slot with all its buckets.
fn all_stay(x: Slot) -> Slot
    ensures { result ≡ all_stay x }
{
    let pass = Pass {
        expired: 0,
        live_total: x.total,
        live_declined: x.declined,
        oldest: x.pass.eldest,
        ..x.pass
    };
    with_pass(x, pass)
}

// The slot, built anew of its parts: where only a call that is seldom made takes it as a whole, its parts are copied there and nowhere else.
pub fn rebuilt(x: Slot) -> Slot
    ensures { result ≡ x }
{
    let pass = x.pass;
    let pass = Pass {
        sound: pass.sound,
        buckets: pass.buckets,
        expired: pass.expired,
        live_total: pass.live_total,
        live_declined: pass.live_declined,
        newest_time: pass.newest_time,
        oldest: again(pass.oldest),
        eldest: again(pass.eldest),
    };
    with_pass(x, pass)
}

// Whether a first look leaves buckets that are expired: the oldest bucket's age is not over `look`.
fn leaves_expired(look: u64, reading: u64, x: Slot) -> bool
    ensures { result ≡ leaves_expired look reading x }
{
    x.pass.expired != 0 && reading.saturating_sub(x.pass.eldest.time) <= look
}

// The slot as a first look leaves it.
pub fn first_look(look: u64, reading: u64, x: Slot) -> Slot
    ensures { result ≡ first_look look reading x }
{
    if leaves_expired(look, reading, x) {
        all_stay(x)
    } else {
        x
    }
}

// The slot as a first look leaves it, unless a call goes on without one.
pub fn looked_unless(without: bool, look: u64, reading: u64, x: Slot) -> Slot
    ensures { result ≡ pick_slot without x (first_look look reading x) }
{
    if without {
        x
    } else {
        first_look(look, reading, x)
    }
}

pub fn divisor(kind: RoomKind, factor: f64) -> f64
    ensures { result ≡ divisor kind factor }
{
    match kind {
        RoomKind::Absolute => 1.0,
        RoomKind::Suppressed => factor,
    }
}

fn declined_right(kind: RoomKind, declined: u64) -> bool
    ensures { result ≡ declined_right kind declined }
{
    match kind {
        RoomKind::Absolute => declined == 0,
        RoomKind::Suppressed => true,
    }
}

fn use_right(kind: RoomKind, u: u64) -> bool
    ensures { result ≡ right_use kind u }
{
    match kind {
        RoomKind::Absolute => u == layout::SERIES,
        RoomKind::Suppressed => has_series(u) || has_cached(u),
    }
}

fn series_right(kind: RoomKind, settings: Settings, x: Slot) -> bool
    ensures { result ≡ series_right kind settings x }
{
    let divisor = divisor(kind, settings.hard_limit_factor);
    !x.series
        || (x.pass.sound
            && declined_right(kind, x.declined)
            && common::is_limit(x.limit, settings.window_size, divisor))
}

fn cached_right(last: u64, x: Slot) -> bool
    ensures { result ≡ cached_right last x }
{
    !x.cached || (suppression::is_factor(x.factor) && x.factor_time <= last)
}

// Whether an opened slot is sound; its key is judged elsewhere.
pub fn slot_right(kind: RoomKind, settings: Settings, last: u64, u: u64, x: Slot) -> bool
    ensures { result ≡ slot_right kind settings last u x }
{
    use_right(kind, u) && series_right(kind, settings, x) && cached_right(last, x)
}
