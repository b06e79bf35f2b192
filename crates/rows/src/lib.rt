// The answer row: five words, as `answers`' specs/Rows.antt gives them for each answer; and of a line that was read back, seven, as `told`'s does.
#![tactic(auto)]

ghost use Rattle.std.specs.Prelude.{◌≡◌};
ghost use Rattle.answers.specs.Rows.{refused_row, said, decision_row, total_row, snapshot_row, factor_row, old_rate_row, delete_row, set_row, done_row};
ghost use Rattle.answers.specs.Rows.{ring_row, shot_row};
ghost use Rattle.told.specs.Rows.{told_row, line_row};
ghost use Rattle.rows.specs.Plain.{Given};

use answers::{ConditionalSetOutcome, RateLimitDecision, ShotOutcome, SuppressedRateLimitSnapshot};
use common::{RateLimit, Refusal};
use told::{Told, ToldLine};

// A refusal: its number, with zeros elsewhere.
pub fn refused_row(number: u64) -> [u64; 5]
    ensures { result ≡ refused_row number }
{
    [number, 0, 0, 0, 0]
}

// 1 for yes.
fn said(yes: bool) -> u64
    ensures { result ≡ said yes }
{
    if yes { 1 } else { 0 }
}

#[tactic(auto, unfolding(answers::specs::Rows::decision_row))]
pub fn decision_row(a: RateLimitDecision) -> [u64; 5]
    ensures { result ≡ decision_row a }
{
    match a {
        RateLimitDecision::Allowed => [0, 1, 0, 0, 0],
        RateLimitDecision::Rejected {
            window_size,
            retry_after,
            remaining_after_waiting,
        } => [0, 2, window_size.0, retry_after, remaining_after_waiting],
        RateLimitDecision::Suppressed {
            suppression_factor,
            is_allowed,
        } => [
            0,
            3,
            common::word_of(suppression_factor),
            said(is_allowed),
            0,
        ],
        RateLimitDecision::Refused(n) => refused_row(n),
    }
}

#[tactic(auto, unfolding(answers::specs::Rows::total_row))]
pub fn total_row(a: Result<u64, Refusal>) -> [u64; 5]
    ensures { result ≡ total_row a }
{
    match a {
        Ok(n) => [0, 1, n, 0, 0],
        Err(Refusal(n)) => refused_row(n),
    }
}

#[tactic(auto, unfolding(answers::specs::Rows::snapshot_row))]
pub fn snapshot_row(a: Result<SuppressedRateLimitSnapshot, Refusal>) -> [u64; 5]
    ensures { result ≡ snapshot_row a }
{
    match a {
        Ok(s) => [
            0,
            1,
            s.total,
            s.total_declined,
            common::word_of(s.suppression_factor),
        ],
        Err(Refusal(n)) => refused_row(n),
    }
}

#[tactic(auto, unfolding(answers::specs::Rows::factor_row))]
pub fn factor_row(a: Result<f64, Refusal>) -> [u64; 5]
    ensures { result ≡ factor_row a }
{
    match a {
        Ok(f) => [0, 1, common::word_of(f), 0, 0],
        Err(Refusal(n)) => refused_row(n),
    }
}

#[tactic(auto, unfolding(answers::specs::Rows::old_rate_row))]
pub fn old_rate_row(a: Result<Option<RateLimit>, Refusal>) -> [u64; 5]
    ensures { result ≡ old_rate_row a }
{
    match a {
        Ok(Some(rate)) => [0, 1, common::word_of(rate.0), 0, 0],
        Ok(None) => [0, 2, 0, 0, 0],
        Err(Refusal(n)) => refused_row(n),
    }
}

#[tactic(auto, unfolding(answers::specs::Rows::delete_row))]
pub fn delete_row(a: Result<Option<u64>, Refusal>) -> [u64; 5]
    ensures { result ≡ delete_row a }
{
    match a {
        Ok(Some(n)) => [0, 1, n, 0, 0],
        Ok(None) => [0, 2, 0, 0, 0],
        Err(Refusal(n)) => refused_row(n),
    }
}

#[tactic(auto, unfolding(answers::specs::Rows::set_row))]
pub fn set_row(a: Result<ConditionalSetOutcome, Refusal>) -> [u64; 5]
    ensures { result ≡ set_row a }
{
    match a {
        Ok(o) => [0, 1, said(o.matched), o.previous_total, o.current_total],
        Err(Refusal(n)) => refused_row(n),
    }
}

#[tactic(auto, unfolding(answers::specs::Rows::done_row))]
pub fn done_row(a: Result<(), Refusal>) -> [u64; 5]
    ensures { result ≡ done_row a }
{
    match a {
        Ok(()) => [0, 1, 0, 0, 0],
        Err(Refusal(n)) => refused_row(n),
    }
}

#[tactic(auto, unfolding(answers::specs::Rows::ring_row))]
pub fn ring_row(a: Result<u64, Refusal>) -> [u64; 5]
    ensures { result ≡ ring_row a }
{
    match a {
        Ok(n) => [0, 1, n, 0, 0],
        Err(Refusal(n)) => refused_row(n),
    }
}

#[tactic(auto, unfolding(answers::specs::Rows::shot_row))]
pub fn shot_row(a: Result<ShotOutcome, Refusal>) -> [u64; 5]
    ensures { result ≡ shot_row a }
{
    match a {
        Ok(ShotOutcome::Held) => [0, 4, 0, 0, 0],
        Ok(ShotOutcome::Decided(decision)) => decision_row(decision),
        Err(Refusal(n)) => refused_row(n),
    }
}

// Hands a row over, and gives its number.
pub fn give(row: [u64; 5], out: &mut [u64; 5]) -> u64
    ensures { Given row result out.new }
{
    *out = row;
    row[0]
}

// ---- a line that was read back

#[tactic(auto, unfolding(told::specs::Rows::told_row))]
fn told_row(t: u64, told: Told) -> [u64; 7]
    ensures { result ≡ told_row t told }
{
    match told {
        Told::Allowed(x) => [0, 1, t, 0, 0, x.total, x.declined],
        Told::Rejected { wait, left, stored } => {
            [0, 2, t, wait, left, stored.total, stored.declined]
        }
        Told::Suppressed {
            factor,
            is_allowed,
            stored,
        } => [
            0,
            3,
            t,
            common::word_of(factor),
            said(is_allowed),
            stored.total,
            stored.declined,
        ],
        Told::Value { factor, stored } => [
            0,
            5,
            t,
            common::word_of(factor),
            0,
            stored.total,
            stored.declined,
        ],
        Told::Refused(code) => [0, 6, t, code, 0, 0, 0],
    }
}

#[tactic(auto, unfolding(told::specs::Rows::line_row))]
pub fn line_row(a: Result<ToldLine, Refusal>) -> [u64; 7]
    ensures { result ≡ line_row a }
{
    match a {
        Ok(l) => told_row(l.t, l.told),
        Err(e) => [e.number(), 0, 0, 0, 0, 0, 0],
    }
}

pub fn give_line(row: [u64; 7], out: &mut [u64; 7]) -> u64
    ensures { Given row result out.new }
{
    *out = row;
    row[0]
}
