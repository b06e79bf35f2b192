// Reading a line of `desk` back: what it tells, or refusal 14. A line stands here without its newline.
#![tactic(auto)]

ghost use Rattle.std.specs.Prelude.{◌≡◌};
ghost use Rattle.told.specs.Range.{timeless, Reads};
ghost use Rattle.readback.specs.Meaning.{told_by, totals_fit, factor_fits, refusal_fits, is_fit, meaning_of};

use answer_lines::read_answer;
use common::Refusal;
use printing::{Answer, AnswerLine};
use told::{BAD_LINE, Stored, Told, ToldLine, line_of};

const MOST_TOTAL: u64 = 9007199254740992;

// ---- what is in range

fn totals_fit(x: Stored) -> bool
    ensures { result ≡ totals_fit x }
{
    x.total <= MOST_TOTAL && x.declined <= x.total
}

fn factor_fits(factor: f64) -> bool
    ensures { result ≡ factor_fits factor }
{
    suppression::is_factor(common::word_of(factor))
}

// Settings outside their ranges and a bad line have no reading.
fn is_timeless(code: u64) -> bool
    ensures { result ≡ timeless code }
{
    code <= 4 || code == BAD_LINE
}

fn refusal_fits(t: u64, code: u64) -> bool
    ensures { result ≡ refusal_fits t code }
{
    1 <= code && code <= BAD_LINE && (!is_timeless(code) || t == 0)
}

#[tactic(auto, unfolding(crate::specs::Meaning::is_fit))]
fn is_fit(t: u64, told: Told) -> bool
    ensures { result ≡ is_fit t told }
{
    match told {
        Told::Allowed(stored) | Told::Rejected { stored, .. } => totals_fit(stored),
        Told::Suppressed { factor, stored, .. } | Told::Value { factor, stored } => {
            factor_fits(factor) && totals_fit(stored)
        }
        Told::Refused(code) => refusal_fits(t, code),
    }
}

// ---- what a line tells

// By its word alone. `held` is no answer of `desk`, and 0 no refusal.
#[tactic(auto, unfolding(crate::specs::Meaning::told_by))]
fn told_by(l: AnswerLine) -> Told
    ensures { result ≡ told_by l }
{
    let stored = Stored {
        total: l.total,
        declined: l.declined,
    };
    let factor = common::double_of(l.factor);
    match l.answer {
        Answer::Allowed => Told::Allowed(stored),
        Answer::Rejected => Told::Rejected {
            wait: l.wait,
            left: l.left,
            stored,
        },
        Answer::Yes => Told::Suppressed {
            factor,
            is_allowed: true,
            stored,
        },
        Answer::No => Told::Suppressed {
            factor,
            is_allowed: false,
            stored,
        },
        Answer::Value => Told::Value { factor, stored },
        Answer::Held => Told::Refused(0),
        Answer::Refused => Told::Refused(l.code),
    }
}

// What its word says, where that is in range and prints as the same line.
fn meaning_of(l: AnswerLine) -> Result<ToldLine, Refusal>
    ensures { result ≡ meaning_of l }
{
    let line = ToldLine {
        t: l.t,
        told: told_by(l),
    };
    if is_fit(line.t, line.told) && line_of(line) == l {
        Ok(line)
    } else {
        Err(Refusal::NO_CALL)
    }
}

pub fn read_line(line: &[u8]) -> Result<ToldLine, Refusal>
    ensures { Reads line.now result }
{
    meaning_of(read_answer(line).ok_or(Refusal::NO_CALL)?)
}
