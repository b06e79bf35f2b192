// Limits as words: what a call stores of its rate, and what is worked out from the stored word.
ghost use Rattle.std.specs.Prelude.{◌≡◌};
ghost use Rattle.std.specs.Float.Ieee as Ieee;
ghost use Rattle.common.specs.Limits.{absolute_word, hard_word, cut_word, soft_word, limit_ok, rate_back};

use crate::units::{RateLimit, WindowSize};
use crate::words::{double_of, word_of};

// Rust's `x as u64`: the fraction is dropped, a NaN and a negative give 0, and 2^64 and more gives 2^64 - 1.
pub fn cut(x: f64) -> u64
    ensures { result ≡ Ieee.to_unsigned 64 x }
{
    std::num::saturating_f64_to_u64(x)
}

// rate * W
pub fn absolute_limit(rate: RateLimit, window: WindowSize) -> u64
    ensures { result ≡ absolute_word rate.0 window.0 }
{
    word_of(rate.0 * std::num::nearest_u64_to_f64(window.0))
}

// rate * F * W, in that order
pub fn hard_limit(rate: RateLimit, factor: f64, window: WindowSize) -> u64
    ensures { result ≡ hard_word rate.0 factor window.0 }
{
    word_of(rate.0 * factor * std::num::nearest_u64_to_f64(window.0))
}

// A stored limit cut to a whole number.
pub fn cut_limit(limit: u64) -> u64
    ensures { result ≡ cut_word limit }
{
    cut(double_of(limit))
}

// The soft limit of a stored hard one: hard / F, cut.
pub fn soft_limit(limit: u64, factor: f64) -> u64
    ensures { result ≡ soft_word factor limit }
{
    cut(double_of(limit) / factor)
}

// Whether a word is a sound limit: above zero when it is divided by W and by F.
pub fn is_limit(limit: u64, window: WindowSize, factor: f64) -> bool
    ensures { result ≡ limit_ok window.0 factor limit }
{
    double_of(limit) / std::num::nearest_u64_to_f64(window.0) / factor > 0.0
}

impl RateLimit {
    // The rate that a stored limit was made from, as well as a double tells.
    pub fn from_stored_window_limit(limit: u64, window: WindowSize, factor: f64) -> RateLimit
        ensures { result.0 ≡ rate_back window.0 factor limit }
    {
        let x = double_of(limit);
        if x == f64::MAX || x == f64::INFINITY {
            return RateLimit::max();
        }
        RateLimit(x / std::num::nearest_u64_to_f64(window.0) / factor)
    }
}
