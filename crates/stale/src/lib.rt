// Freeing what a cleanup finds stale: series by their newest bucket, cached factors by their time.
#![tactic(auto)]

ghost use Rattle.std.specs.Prelude.{◌≡◌, ◌≤◌, ◌<◌};
ghost use Rattle.settings.specs.Clock.{age_in_milliseconds};
ghost use Rattle.ring.specs.Ring.{buckets, Shape};
ghost use Rattle.room.specs.Room.{Directory, slots_of};
ghost use Rattle.stale.specs.Uses.{series_use, factor_use, use_after, use_next, settled, swept, cleaned, Opens, Readable, Ready};

// An age, cut to whole milliseconds.
fn milliseconds(reading: u64, time: u64, ticks: u64) -> u64
    requires { 1 ≤ ticks }
    ensures { result ≡ age_in_milliseconds ticks reading time }
{
    reading.saturating_sub(time) / ticks
}

// What a series adds to the use afterwards: only its newest bucket is read.
fn series_use(b: &[u64], r: usize, reading: u64, ticks: u64, stale: u64) -> u64
    requires { Shape r b.now × (1 ≤ ticks) }
    ensures { result ≡ series_use (buckets r b.now) reading ticks stale }
{
    let n = ring::len(b, r);
    if n == 0 {
        return 0;
    }
    let newest = ring::nth_or_none(b, r, n - 1);
    if stale < milliseconds(reading, newest.time, ticks) {
        0
    } else {
        layout::SERIES
    }
}

// What a cached factor adds.
fn factor_use(time: u64, reading: u64, ticks: u64, stale: u64) -> u64
    requires { 1 ≤ ticks }
    ensures { result ≡ factor_use time reading ticks stale }
{
    if milliseconds(reading, time, ticks) < stale {
        layout::CACHED
    } else {
        0
    }
}

// The use afterwards of a slot of use `u`.
fn use_after(b: &[u64], r: usize, u: u64, reading: u64, ticks: u64, stale: u64) -> u64
    requires { Opens r u b.now × (1 ≤ ticks) }
    ensures { result ≡ use_after r u b.now reading ticks stale }
{
    match u {
        1 => series_use(b, r, reading, ticks, stale),
        2 => factor_use(b[layout::FACTOR_TIME], reading, ticks, stale),
        3 => series_use(b, r, reading, ticks, stale)
            + factor_use(b[layout::FACTOR_TIME], reading, ticks, stale),
        _ => 0,
    }
}

// The use afterwards of slot `i`.
fn use_next(w: &[u64], i: usize, reading: u64, ticks: u64, stale: u64) -> u64
    requires { Readable w.now i × (1 ≤ ticks) }
    ensures { result ≡ use_next w.now reading ticks stale i }
{
    let r = w[layout::RING] as usize;
    let u = room::used_at(w, i);
    let a = room::start(w, i);
    let e = a + (layout::FIXED + layout::CELL * r);
    use_after(&w[a..e], r, u, reading, ticks, stale)
}

// Slot `at` with this use afterwards, and free where that is none.
fn settle(w: &mut [u64], at: usize, u: u64)
    requires { Directory w.old × (at < slots_of w.old) }
    ensures { w.new ≡ settled w.old at u }
{
    if u == 0 {
        room::release(w, at);
    } else {
        room::set_use(w, at, u);
    }
}

fn sweep(w: &mut [u64], reading: u64, ticks: u64, stale: u64)
    requires { Ready w.old × (1 ≤ ticks) }
    ensures { w.new ≡ swept w.old reading ticks stale (slots_of w.old) }
{
    let n = w[layout::SLOTS] as usize;
    for at in 0..n {
        let u = use_next(w, at, reading, ticks, stale);
        settle(w, at, u);
    }
}

// Cleans a room that was judged. `ticks` are those of a millisecond, `stale` is in milliseconds.
pub fn clean(w: &mut [u64], reading: u64, ticks: u64, stale: u64)
    requires { Ready w.old × (1 ≤ ticks) }
    ensures { w.new ≡ cleaned w.old reading ticks stale }
{
    sweep(w, reading, ticks, stale);
    room::store_reading(w, reading);
}
