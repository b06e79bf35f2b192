// What `desk` and `shots` print of an answer: the line's fields, with the key's totals as stored. One party calls, and is promised every slot.
#![tactic(auto)]

ghost use Rattle.std.specs.Prelude.{◌≡◌};
ghost use Rattle.room.specs.Room.{slots_of};
ghost use Rattle.told.specs.Told.{no_stored};
ghost use Rattle.desk_lines.specs.Lines.{stored_of, decision_line, shot_line};
ghost use Rattle.desk_lines.specs.Lines.{alone, total_line, snapshot_line, per_minute};

use answers::{RateLimitDecision, ShotOutcome, SuppressedRateLimitSnapshot};
use common::{RateLimit, Refusal};
use parties::Caller;
use printing::{Answer, AnswerLine};
use told::{Stored, ToldLine, line_of};

const SECONDS_PER_MINUTE: u64 = 60;

// A room's slots, 0 where there is not a word.
fn slots_of(w: &[u64]) -> u64
    ensures { result ≡ slots_of w.now }
{
    if w.len() <= layout::SLOTS {
        return 0;
    }
    w[layout::SLOTS]
}

// The one party, promised every slot of the room.
pub fn alone(w: &[u64]) -> Caller
    ensures { result ≡ alone w.now }
{
    Caller {
        party: 1,
        first: slots_of(w),
        second: 0,
    }
}

fn none_stored() -> Stored
    ensures { result ≡ no_stored }
{
    Stored {
        total: 0,
        declined: 0,
    }
}

// The key's totals, zeros where it has no series.
pub fn stored_of(w: &[u64], key: &[u8]) -> Stored
    ensures { result ≡ stored_of w.now key.now }
{
    if !room::sized(w) {
        return none_stored();
    }
    let slots = w[layout::SLOTS] as usize;
    let at = room::find(w, keys::key_of(layout::FIRST, key));
    if slots <= at {
        return none_stored();
    }
    if !opened::has_series(room::use_of(w, at)) {
        return none_stored();
    }
    let start = room::start(w, at);
    Stored {
        total: w[start + layout::TOTAL],
        declined: w[start + layout::DECLINED],
    }
}

// The line of an increment; `x` is what is stored after it.
pub fn decision_line(t: u64, d: RateLimitDecision, x: Stored) -> AnswerLine
    ensures { result ≡ decision_line t d x }
{
    line_of(ToldLine {
        t,
        told: told::decided(d, x),
    })
}

// The line of a shot; `x` is what is stored after it.
#[tactic(auto, unfolding(crate::specs::Lines::shot_line))]
pub fn shot_line(t: u64, a: Result<ShotOutcome, Refusal>, x: Stored) -> AnswerLine
    ensures { result ≡ shot_line t a x }
{
    match a {
        Ok(ShotOutcome::Held) => told::said(t, Answer::Held, 0, 0, 0, x),
        Ok(ShotOutcome::Decided(d)) => decision_line(t, d, x),
        Err(Refusal(code)) => told::refused(t, code),
    }
}

// The line of an absolute `get`: the live total.
pub fn total_line(t: u64, a: Result<u64, Refusal>) -> AnswerLine
    ensures { result ≡ total_line t a }
{
    line_of(ToldLine {
        t,
        told: told::live(a),
    })
}

// The line of a suppressed `get`; `x` is what is stored after it.
pub fn snapshot_line(
    t: u64,
    a: Result<SuppressedRateLimitSnapshot, Refusal>,
    x: Stored,
) -> AnswerLine
    ensures { result ≡ snapshot_line t a x }
{
    line_of(ToldLine {
        t,
        told: told::snapped(a, x),
    })
}

// A whole number per minute as a rate.
pub fn per_minute(rate: u64) -> RateLimit
    ensures { result ≡ per_minute rate }
{
    RateLimit(std::num::nearest_u64_to_f64(rate) / std::num::nearest_u64_to_f64(SECONDS_PER_MINUTE))
}
