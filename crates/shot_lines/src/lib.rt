// The shot lines of the program `shots`, read by the parts of `desk`'s lines. A line stands here without its newline.
#![tactic(auto)]

ghost use Rattle.std.specs.Prelude.{◌≡◌};
ghost use Rattle.shot_lines.specs.Reading.{read_shot};

use fields::field_at;
use lines::{is_exact, tail_at};

// A shot line: `t=0 ctl=a shot=17 rate=60 draw=0`. The controller's key is the part of the line from `start` up to `end`.
#[derive(Clone, Copy)]
pub struct ShotLine {
    pub t: u64,
    pub start: usize,
    pub end: usize,
    pub number: u64,
    pub rate: u64,
    pub draw: u64,
}

#[tactic(auto, unfolding(crate::specs::Reading::read_shot))]
pub fn read_shot(line: &[u8]) -> Option<ShotLine>
    ensures { result ≡ read_shot line.now }
{
    let (t, a) = field_at(line, 0, b"t=")?;
    let tail = tail_at(line, a, b" ctl=", b" shot=", b" rate=", b" draw=")?;
    let (number, rate, draw) = tail.numbers;
    if !is_exact(rate) {
        return None;
    }
    Some(ShotLine {
        t,
        start: tail.start,
        end: tail.end,
        number,
        rate,
        draw,
    })
}
