// A key's buckets judged and measured, for both limiters.
#![tactic(auto)]

ghost use Rattle.std.specs.Prelude.{◌≡◌, ◌-◌, ltb, get_or};
ghost use Rattle.ring.specs.Ring.{Shape, no_bucket, buckets};
ghost use Rattle.rules.specs.Buckets as Rules;
ghost use Rattle.ring.specs.Sound.{sound_buckets, Sound};
ghost use Rattle.sweep.specs.Sweep.{good_of, step_of, ended_of, sweep_of, gone_of, gone_at, unsound, pass_of, looked_pass};

use ring::Bucket;

mod tally;

use tally::{Gone, Tally};
pub use tally::{Mark, Pass};

// Whether an age is over `w`.
fn older(w: u64, reading: u64, time: u64) -> bool
    ensures { result ≡ ltb w (reading - time) }
{
    w < reading.saturating_sub(time)
}

// Whether the next bucket keeps all in order and within the totals.
fn good(a: Tally, x: Bucket) -> bool
    ensures { result ≡ good_of a x }
{
    a.lo <= x.time && x.declined <= x.count && x.count <= a.left && x.declined <= a.spare
}

// One bucket further.
fn step(a: Tally, x: Bucket) -> Tally
    ensures { result ≡ step_of a x }
{
    Tally {
        lo: x.time,
        left: a.left.saturating_sub(x.count),
        spare: a.spare.saturating_sub(x.declined),
    }
}

// Whether no time is past `last`, and the totals are spent.
fn ended(a: Tally, last: u64) -> bool
    ensures { result ≡ ended_of last a }
{
    a.lo <= last && a.left == 0 && a.spare == 0
}

// The buckets one by one, up to one that is not in order.
fn sweep(b: &[u64], r: usize, last: u64) -> bool
    requires { Shape r b.now }
    ensures { result ≡ sweep_of r b.now last }
{
    let n = ring::len(b, r);
    let total = b[layout::TOTAL];
    let declined = b[layout::DECLINED];
    let mut a = Tally {
        lo: 0,
        left: total,
        spare: declined,
    };
    for k in 0..n {
        let x = ring::nth(b, r, k);
        if !good(a, x) {
            return false;
        }
        a = step(a, x);
    }
    ended(a, last)
}

// Whether the buckets are sound: by the quick pass where it shows it, else one by one.
fn is_sound(b: &[u64], r: usize, last: u64) -> bool
    requires { Shape r b.now }
    ensures { result ≡ sound_buckets r b.now last }
{
    quick::shows_sound(b, r, last) || (b[layout::TOTAL] <= layout::MOST_TOTAL && sweep(b, r, last))
}

// The oldest buckets that are over `window`, one by one; only these are read, and the next.
fn expire(b: &[u64], r: usize, reading: u64, window: u64) -> Gone
    requires { Shape r b.now }
    ensures { result ≡ gone_of r b.now reading window }
{
    let n = ring::len(b, r);
    let mut j = b[layout::HEAD] as usize;
    let mut total = b[layout::TOTAL];
    let mut declined = b[layout::DECLINED];
    for k in 0..n {
        let x = ring::at(b, r, j);
        if !older(window, reading, x.time) {
            return Gone {
                buckets: k,
                total,
                declined,
            };
        }
        total = total.saturating_sub(x.count);
        declined = declined.saturating_sub(x.declined);
        j = quick::next(r, j);
    }
    Gone {
        buckets: n,
        total,
        declined,
    }
}

// What goes of sound buckets at a look: nothing where the age of the oldest, of time `oldest`, is not over `look`. Where the newest, of
// time `newest`, is over `window` all are, since times do not fall: nothing is walked. `last` is the reading that the buckets are sound at.
fn gone(
    b: &[u64],
    r: usize,
    last: u64,
    oldest: u64,
    newest: u64,
    reading: u64,
    window: u64,
    look: u64,
) -> Gone
    requires { Sound r b.now last × (oldest ≡ (get_or (buckets r b.now) 0 no_bucket).time) × (newest ≡ (Rules.newest (buckets r b.now)).time) }
    ensures { result ≡ gone_at look r b.now reading window }
{
    if !older(look, reading, oldest) {
        return Gone {
            buckets: 0,
            total: b[layout::TOTAL],
            declined: b[layout::DECLINED],
        };
    }
    if older(window, reading, newest) {
        return Gone {
            buckets: ring::len(b, r),
            total: 0,
            declined: 0,
        };
    }
    expire(b, r, reading, window)
}

// Where the buckets are not sound, or there are none to look for.
pub fn no_pass() -> Pass
    ensures { result ≡ unsound }
{
    let none = Mark { count: 0, time: 0 };
    Pass {
        sound: false,
        buckets: 0,
        expired: 0,
        live_total: 0,
        live_declined: 0,
        newest_time: 0,
        oldest: none,
        eldest: none,
    }
}

// The pass over words that fit.
fn pass_fit(b: &[u64], r: usize, last: u64, reading: u64, window: u64, look: u64) -> Pass
    requires { Shape r b.now }
    ensures { result ≡ looked_pass look reading b.now (pass_of r b.now last reading window) }
{
    if !is_sound(b, r, last) {
        return no_pass();
    }
    let n = ring::len(b, r);
    let end = n.saturating_sub(1);
    let newest = ring::nth_or_none(b, r, end);
    let eldest = ring::nth_or_none(b, r, 0);
    let g = gone(b, r, last, eldest.time, newest.time, reading, window, look);
    let expired = g.buckets;
    let oldest = ring::nth_or_none(b, r, expired);
    Pass {
        sound: true,
        buckets: n,
        expired,
        live_total: g.total,
        live_declined: g.declined,
        newest_time: newest.time,
        oldest: Mark {
            count: oldest.count,
            time: oldest.time,
        },
        eldest: Mark {
            count: eldest.count,
            time: eldest.time,
        },
    }
}

// Judges and measures a key's buckets in one pass, whatever the words: those over `window` are expired, where the oldest of all is over
// `look`. Both are in ticks.
pub fn pass(b: &[u64], r: usize, last: u64, reading: u64, window: u64, look: u64) -> Pass
    ensures { result ≡ looked_pass look reading b.now (pass_of r b.now last reading window) }
{
    if !ring::fit(b, r) {
        return no_pass();
    }
    pass_fit(b, r, last, reading, window, look)
}
