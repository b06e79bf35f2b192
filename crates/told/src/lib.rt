// What a line of `desk` tells, in the words of `answers`, and the line that tells it. `readback` reads it back.
#![tactic(auto)]

ghost use Rattle.std.specs.Prelude.{◌≡◌};
ghost use Rattle.told.specs.Told.{bad_line, said, yes_or_no, refused_line, decided, live, snapped, decision_of, line_of};

use answers::{RateLimitDecision, SuppressedRateLimitSnapshot};
use common::{Refusal, WindowSize};
use printing::{Answer, AnswerLine};

// The number that a line tells of what is no call: printed as it stands, so no `Refusal`.
pub const BAD_LINE: u64 = 14;

// A key's totals.
#[derive(Clone, Copy)]
pub struct Stored {
    pub total: u64,
    pub declined: u64,
}

// What is told of a call. `wait` is in milliseconds.
#[derive(Clone, Copy)]
pub enum Told {
    Allowed(Stored),
    Rejected {
        wait: u64,
        left: u64,
        stored: Stored,
    },
    Suppressed {
        factor: f64,
        is_allowed: bool,
        stored: Stored,
    },
    Value {
        factor: f64,
        stored: Stored,
    },
    // As it was printed: any number that a line can hold.
    Refused(u64),
}

// A line of `desk`: a reading, and what is told of the call made at it.
#[derive(Clone, Copy)]
pub struct ToldLine {
    pub t: u64,
    pub told: Told,
}

// ---- what is told of each answer

// Of an increment; `x` is what is stored after it.
#[tactic(auto, unfolding(crate::specs::Told::decided))]
pub fn decided(d: RateLimitDecision, x: Stored) -> Told
    ensures { result ≡ decided d x }
{
    match d {
        RateLimitDecision::Allowed => Told::Allowed(x),
        RateLimitDecision::Rejected {
            window_size: _,
            retry_after,
            remaining_after_waiting,
        } => Told::Rejected {
            wait: retry_after,
            left: remaining_after_waiting,
            stored: x,
        },
        RateLimitDecision::Suppressed {
            suppression_factor,
            is_allowed,
        } => Told::Suppressed {
            factor: suppression_factor,
            is_allowed,
            stored: x,
        },
        RateLimitDecision::Refused(code) => Told::Refused(code),
    }
}

// Of an absolute `get`: the live total.
pub fn live(a: Result<u64, Refusal>) -> Told
    ensures { result ≡ live a }
{
    match a {
        Ok(total) => Told::Value {
            factor: 0.0,
            stored: Stored { total, declined: 0 },
        },
        Err(Refusal(code)) => Told::Refused(code),
    }
}

// Of a suppressed `get`; `x` is what is stored after it.
pub fn snapped(a: Result<SuppressedRateLimitSnapshot, Refusal>, x: Stored) -> Told
    ensures { result ≡ snapped a x }
{
    match a {
        Ok(s) => Told::Value {
            factor: s.suppression_factor,
            stored: x,
        },
        Err(Refusal(code)) => Told::Refused(code),
    }
}

// The decision that is told, if it is one. A line does not hold a rejection's window: `window` is put in its place.
#[tactic(auto, unfolding(crate::specs::Told::decision_of))]
pub fn decision_of(told: Told, window: WindowSize) -> Option<RateLimitDecision>
    ensures { result ≡ decision_of told window }
{
    match told {
        Told::Allowed(_) => Some(RateLimitDecision::Allowed),
        Told::Rejected { wait, left, .. } => Some(RateLimitDecision::Rejected {
            window_size: window,
            retry_after: wait,
            remaining_after_waiting: left,
        }),
        Told::Suppressed {
            factor,
            is_allowed,
            ..
        } => Some(RateLimitDecision::Suppressed {
            suppression_factor: factor,
            is_allowed,
        }),
        Told::Value { .. } => None,
        Told::Refused(code) => Some(RateLimitDecision::Refused(code)),
    }
}

// ---- the line

pub fn refused(t: u64, code: u64) -> AnswerLine
    ensures { result ≡ refused_line t code }
{
    AnswerLine {
        t,
        code,
        answer: Answer::Refused,
        factor: 0,
        wait: 0,
        left: 0,
        total: 0,
        declined: 0,
    }
}

// The line of what is no call: it has no reading.
pub fn bad_line() -> AnswerLine
    ensures { result ≡ refused_line 0 bad_line }
{
    refused(0, BAD_LINE)
}

pub fn said(t: u64, answer: Answer, factor: u64, wait: u64, left: u64, x: Stored) -> AnswerLine
    ensures { result ≡ said t answer factor wait left x }
{
    AnswerLine {
        t,
        code: 0,
        answer,
        factor,
        wait,
        left,
        total: x.total,
        declined: x.declined,
    }
}

fn yes_or_no(admitted: bool) -> Answer
    ensures { result ≡ yes_or_no admitted }
{
    if admitted { Answer::Yes } else { Answer::No }
}

// The line of all that `desk` tells.
#[tactic(auto, unfolding(crate::specs::Told::line_of))]
pub fn line_of(l: ToldLine) -> AnswerLine
    ensures { result ≡ line_of l }
{
    let t = l.t;
    match l.told {
        Told::Allowed(stored) => said(t, Answer::Allowed, 0, 0, 0, stored),
        Told::Rejected { wait, left, stored } => said(t, Answer::Rejected, 0, wait, left, stored),
        Told::Suppressed {
            factor,
            is_allowed,
            stored,
        } => said(
            t,
            yes_or_no(is_allowed),
            common::word_of(factor),
            0,
            0,
            stored,
        ),
        Told::Value { factor, stored } => {
            said(t, Answer::Value, common::word_of(factor), 0, 0, stored)
        }
        Told::Refused(code) => refused(t, code),
    }
}
