// What the calls answer, and how a set treats a key's buckets. A call answers a `Result` with a `Refusal`; `specs/Rows.antt`
// gives the number and values of each.
#![tactic(auto)]

ghost use Rattle.std.specs.Prelude.{◌≡◌};
ghost use Rattle.answers.specs.HistoryMode.{no_snapshot};

use common::{RateLimit, WindowSize};

// Which end of the buckets stays when a set changes the total.
#[derive(Clone, Copy)]
pub enum HistoryPreservation {
    PreserveNewest,
    PreserveOldest,
}

#[derive(Clone, Copy)]
pub enum HistoryUpdateMode {
    Replace,
    Preserve(HistoryPreservation),
}

// Whether the comparator was met, and the live totals before and after.
#[derive(Clone, Copy)]
pub struct ConditionalSetOutcome {
    pub matched: bool,
    pub previous_total: u64,
    pub current_total: u64,
}

#[derive(Clone, Copy)]
pub struct SuppressedRateLimitSnapshot {
    pub total: u64,
    pub total_declined: u64,
    pub suppression_factor: f64,
}

impl Default for SuppressedRateLimitSnapshot {
    ghost is_default = { λ s. s ≡ no_snapshot };

    fn default() -> Self {
        SuppressedRateLimitSnapshot {
            total: 0,
            total_declined: 0,
            suppression_factor: 0.0,
        }
    }
}

// An increment, and whether a key is allowed: its refusal is a case of the decision (docs/DECISIONS.md, forms). `retry_after` is in milliseconds.
#[derive(Clone, Copy)]
pub enum RateLimitDecision {
    Allowed,
    Rejected {
        window_size: WindowSize,
        retry_after: u64,
        remaining_after_waiting: u64,
    },
    Suppressed {
        suppression_factor: f64,
        is_allowed: bool,
    },
    Refused(u64),
}

// A shot by its number: the gateway has it already, or what the limiter decided.
#[derive(Clone, Copy)]
pub enum ShotOutcome {
    Held,
    Decided(RateLimitDecision),
}
