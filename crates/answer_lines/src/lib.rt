// The lines that `desk` and `shots` print, read by the parts of the lines that they take. A line stands here without its newline.
#![tactic(auto)]

ghost use Rattle.std.specs.Prelude.{◌≡◌, None};
ghost use Rattle.answer_lines.specs.Reading.{hex_value, hex_at, word_if, any_word, word_at, verdict_at, read_answer};

use fields::{field_at, text_at};
use lines::numbers_at;
use printing::{Answer, AnswerLine};

// ---- parts

// What a hex digit counts.
fn hex_value(b: u8) -> Option<u64>
    ensures { result ≡ hex_value b }
{
    match b {
        b'0'..=b'9' => Some((b - b'0') as u64),
        b'a'..=b'f' => Some((b - b'a') as u64 + 10),
        _ => None,
    }
}

const HEX_DIGITS: usize = 16;

// The word whose 16 hex digits start at `at`, and the place past them.
fn hex_at(line: &[u8], at: usize) -> Option<(u64, usize)>
    ensures { result ≡ hex_at line.now at }
{
    let digits = line.get(at..)?.get(..HEX_DIGITS)?;
    let mut value: u64 = 0;
    for &b in digits {
        value = value * 16 + hex_value(b)?;
    }
    Some((value, at + HEX_DIGITS))
}

// The answer whose word is `text`, and the place past it, if that stands at `at`.
#[tactic(auto, unfolding(crate::specs::Reading::word_if))]
fn word_if(line: &[u8], at: usize, text: &[u8], answer: Answer) -> Option<(Answer, usize)>
    ensures { result ≡ word_if line.now at text.now answer None }
{
    Some((answer, text_at(line, at, text)?))
}

// No word starts as another one does, so that their order does not matter.
#[tactic(auto, unfolding(crate::specs::Reading::any_word, crate::specs::Reading::word_if))]
fn any_word(line: &[u8], at: usize) -> Option<(Answer, usize)>
    ensures { result ≡ any_word line.now at }
{
    word_if(line, at, b"allowed", Answer::Allowed)
        .or(word_if(line, at, b"rejected", Answer::Rejected))
        .or(word_if(line, at, b"yes", Answer::Yes))
        .or(word_if(line, at, b"no", Answer::No))
        .or(word_if(line, at, b"value", Answer::Value))
        .or(word_if(line, at, b"held", Answer::Held))
        .or(word_if(line, at, b"refused", Answer::Refused))
}

#[tactic(auto, unfolding(crate::specs::Reading::word_at))]
fn word_at(line: &[u8], at: usize) -> Option<(Answer, usize)>
    ensures { result ≡ word_at line.now at }
{
    any_word(line, text_at(line, at, b" answer=")?)
}

// ---- a line

// The first four fields, and the place past them.
#[derive(Clone, Copy)]
pub struct Verdict {
    pub t: u64,
    pub code: u64,
    pub answer: Answer,
    pub factor: u64,
    pub next: usize,
}

#[tactic(auto, unfolding(crate::specs::Reading::verdict_at))]
fn verdict_at(line: &[u8]) -> Option<Verdict>
    ensures { result ≡ verdict_at line.now }
{
    let (t, a) = field_at(line, 0, b"t=")?;
    let (code, b) = field_at(line, a, b" code=")?;
    let (answer, c) = word_at(line, b)?;
    let (factor, next) = hex_at(line, text_at(line, c, b" factor=")?)?;
    Some(Verdict {
        t,
        code,
        answer,
        factor,
        next,
    })
}

// What is printed as a line, whatever its numbers are.
#[tactic(auto, unfolding(crate::specs::Reading::read_answer))]
pub fn read_answer(line: &[u8]) -> Option<AnswerLine>
    ensures { result ≡ read_answer line.now }
{
    let verdict = verdict_at(line)?;
    let (wait, a) = field_at(line, verdict.next, b" wait=")?;
    let (left, total, declined) = numbers_at(line, a, b" left=", b" total=", b" declined=")?;
    Some(AnswerLine {
        t: verdict.t,
        code: verdict.code,
        answer: verdict.answer,
        factor: verdict.factor,
        wait,
        left,
        total,
        declined,
    })
}
