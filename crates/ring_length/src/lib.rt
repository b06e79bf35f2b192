// How long a ring must be for its room never to meet refusal 12. That so many buckets suffice, and that one less does not, stands in the crate `rings`.
#![tactic(auto)]

ghost use Rattle.std.specs.Prelude.{◌≡◌};
ghost use Rattle.ring_length.specs.RingLength.{ring_for};

use common::Refusal;
use settings::{MILLISECONDS_PER_SECOND, Settings};

// The least number of buckets that is always enough, which may be more than a ring can have; settings outside their ranges are refused.
pub fn sufficient_ring(settings: Settings) -> Result<u64, Refusal>
    ensures { result ≡ ring_for settings }
{
    settings.check()?;
    let window = settings.window_size;
    let bucket = settings.bucket_size;
    Ok(MILLISECONDS_PER_SECOND * window.0 / (bucket.0 + 1) + 1)
}
