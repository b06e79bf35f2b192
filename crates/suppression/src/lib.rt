// The suppression factor: worked out, judged as a word of the room, and held against a draw.
#![tactic(auto)]

ghost use Rattle.std.specs.Prelude.{◌≡◌};
ghost use Rattle.suppression.specs.Factor.{larger, fresh_factor, factor_word_ok, admitted};

use common::{WindowSize, double_of};

// A factor and the reading at which it was cached.
#[derive(Clone, Copy, Debug, PartialEq)]
pub struct CachedFactor {
    pub suppression_factor: f64,
    pub time: u64,
}

// The larger of two rates, as Rust's `f64::max` of two numbers, whose contract leaves open which of two zeros it is.
fn larger(a: f64, b: f64) -> f64
    ensures { result ≡ larger a b }
{
    if a < b { b } else { a }
}

// 0 at a zero perceived rate, else 1 - (S / W / perceived), where the perceived rate is the larger of total / W and the counts of the last second.
pub fn fresh_factor(soft: u64, total: u64, window: WindowSize, last_second: u64) -> f64
    ensures { result ≡ fresh_factor soft total window.0 last_second }
{
    let seconds = std::num::nearest_u64_to_f64(window.0);
    let average = std::num::nearest_u64_to_f64(total) / seconds;
    let last = std::num::nearest_u64_to_f64(last_second);
    let perceived = larger(average, last);
    if perceived == 0.0 {
        return 0.0;
    }
    1.0 - std::num::nearest_u64_to_f64(soft) / seconds / perceived
}

// Whether a word is a factor: from 0 to 1, with its sign clear.
pub fn is_factor(word: u64) -> bool
    ensures { result ≡ factor_word_ok word }
{
    let x = double_of(word);
    word < 1 << 63 && x >= 0.0 && x <= 1.0
}

// Whether a factor lets a draw through: of the 2^53 draws as many as (1 - factor) * 2^53, all at 0 and none at 1. The rule's three cases, one by one.
pub fn admits(factor: f64, draw: u64) -> bool
    ensures { result ≡ admitted factor draw }
{
    if factor == 0.0 {
        return true;
    }
    if factor == 1.0 {
        return false;
    }
    std::num::nearest_u64_to_f64(draw) < (1.0 - factor) * 9007199254740992.0
}
