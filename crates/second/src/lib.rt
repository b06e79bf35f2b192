// What a key's buckets count in the last second, from the newest back: the suppressed limiter's fresh factor asks for it.
#![tactic(auto)]

ghost use Rattle.std.specs.Prelude.{◌≡◌, ◌≤◌, drop};
ghost use Rattle.ring.specs.Ring.{counts, len_of, buckets};
ghost use Rattle.ring.specs.Sound.{Sound};
ghost use Rattle.rules.specs.Buckets.{recent};

// The counts at an age of at most `most` ticks, of the buckets without the oldest `gone`. `last` is the reading that they are sound at.
pub fn last_second(b: &[u64], r: usize, last: u64, gone: usize, reading: u64, most: u64) -> u64
    requires { Sound r b.now last × (gone ≤ len_of b.now) }
    ensures { result ≡ counts (recent most reading (drop gone (buckets r b.now))) }
{
    let mut sum = 0;
    for k in (gone..ring::len(b, r)).rev() {
        let x = ring::nth(b, r, k);
        if most < reading.saturating_sub(x.time) {
            return sum;
        }
        sum += x.count;
    }
    sum
}
