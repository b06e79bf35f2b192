// A key's history, for both limiters: what increments and replacing sets make of the buckets.
#![tactic(auto)]

ghost use Rattle.std.specs.Prelude.{◌≡◌, ◌-◌, ◌<◌};
ghost use Rattle.ring.specs.Ring.{Shape, buckets};
ghost use Rattle.rules.specs.Buckets.{joins};
ghost use Rattle.history.specs.Words.{Raises, raised_words, Takes, incremented, Sets, replaced_words};

// Bucket `i` counts more.
pub fn raise(b: &mut [u64], r: usize, i: usize, count: u64, declined: u64)
    requires { Raises r b.old i count declined }
    ensures { b.new ≡ raised_words r b.old i count declined }
{
    let x = ring::nth(b, r, i);
    ring::rewrite(b, r, i, x.count + count, x.declined + declined);
}

// Whether an increment joins the newest bucket, by the bucket size.
fn is_joined(b: &[u64], r: usize, size: u64, reading: u64) -> bool
    requires { Shape r b.now }
    ensures { result ≡ joins size reading (buckets r b.now) }
{
    let n = ring::len(b, r);
    n != 0 && reading.saturating_sub(ring::nth(b, r, n - 1).time) <= size
}

// Counts `count`, `declined` of it declined: with the newest bucket, or in a new one.
pub fn increment(b: &mut [u64], r: usize, size: u64, reading: u64, count: u64, declined: u64)
    requires { Takes r b.old size reading count declined }
    ensures { b.new ≡ incremented r b.old size reading count declined }
{
    if is_joined(b, r, size, reading) {
        let n = ring::len(b, r);
        raise(b, r, n - 1, count, declined);
    } else {
        ring::push(b, r, count, declined, reading);
    }
}

// One bucket in place of all.
pub fn replace(b: &mut [u64], r: usize, reading: u64, n: u64)
    requires { Sets r b.old reading n }
    ensures { b.new ≡ replaced_words r b.old reading n }
{
    let k = ring::len(b, r);
    ring::evict(b, r, k, 0, 0);
    ring::push(b, r, n, 0, reading);
}
