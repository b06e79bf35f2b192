// The lines of the program `desk`, as functions on bytes: reading a settings line and a call line, by parts that serve the lines of `shots` too.
// A line stands here without its newline.
#![tactic(auto)]

ghost use Rattle.std.specs.Prelude.{◌≡◌};
ghost use Rattle.lines.specs.Reading.{op_at, numbers_at, tail_at, is_exact, read_settings, read_call};

use fields::{field_at, key_at, text_at};

// ---- the lines that are read

// The operations: an increment or a get, of the absolute or the suppressed limiter.
#[derive(Clone, Copy)]
pub enum Op {
    AbsoluteInc,
    AbsoluteGet,
    SuppressedInc,
    SuppressedGet,
}

// An operation, and the place past it.
#[tactic(auto, unfolding(crate::specs::Reading::op_at))]
fn op_at(line: &[u8], at: usize) -> Option<(Op, usize)>
    ensures { result ≡ op_at line.now at }
{
    if let Some(next) = text_at(line, at, b" op=ainc") {
        return Some((Op::AbsoluteInc, next));
    }
    if let Some(next) = text_at(line, at, b" op=aget") {
        return Some((Op::AbsoluteGet, next));
    }
    if let Some(next) = text_at(line, at, b" op=sinc") {
        return Some((Op::SuppressedInc, next));
    }
    if let Some(next) = text_at(line, at, b" op=sget") {
        return Some((Op::SuppressedGet, next));
    }
    None
}

// The three numbers that end a line: those at `at`, each after its text.
#[tactic(auto, unfolding(crate::specs::Reading::numbers_at))]
pub fn numbers_at(
    line: &[u8],
    at: usize,
    first: &[u8],
    second: &[u8],
    third: &[u8],
) -> Option<(u64, u64, u64)>
    ensures { result ≡ numbers_at line.now at first.now second.now third.now }
{
    let (x, a) = field_at(line, at, first)?;
    let (y, b) = field_at(line, a, second)?;
    let (z, c) = field_at(line, b, third)?;
    if c == line.len() {
        Some((x, y, z))
    } else {
        None
    }
}

// A key and the three numbers that end its line. The key is the part of the line from `start` up to `end`.
#[derive(Clone, Copy)]
pub struct Tail {
    pub start: usize,
    pub end: usize,
    pub numbers: (u64, u64, u64),
}

// Those at `at`, each after its text.
#[tactic(auto, unfolding(crate::specs::Reading::tail_at))]
pub fn tail_at(
    line: &[u8],
    at: usize,
    key: &[u8],
    first: &[u8],
    second: &[u8],
    third: &[u8],
) -> Option<Tail>
    ensures { result ≡ tail_at line.now at key.now first.now second.now third.now }
{
    let start = text_at(line, at, key)?;
    let end = key_at(line, start)?;
    let numbers = numbers_at(line, end, first, second, third)?;
    Some(Tail {
        start,
        end,
        numbers,
    })
}

// Whether a rate or factor is at most 2^53.
#[tactic(auto, unfolding(crate::specs::Reading::is_exact))]
pub fn is_exact(n: u64) -> bool
    ensures { result ≡ is_exact n }
{
    n <= 9007199254740992
}

// A settings line: `window=10 bucket=100 factor=2 cache=100`.
#[derive(Clone, Copy)]
pub struct SettingsLine {
    pub window: u64,
    pub bucket: u64,
    pub factor: u64,
    pub cache: u64,
}

#[tactic(auto, unfolding(crate::specs::Reading::read_settings))]
pub fn read_settings(line: &[u8]) -> Option<SettingsLine>
    ensures { result ≡ read_settings line.now }
{
    let (window, a) = field_at(line, 0, b"window=")?;
    let (bucket, factor, cache) = numbers_at(line, a, b" bucket=", b" factor=", b" cache=")?;
    if !is_exact(factor) {
        return None;
    }
    Some(SettingsLine {
        window,
        bucket,
        factor,
        cache,
    })
}

// A call line: `t=0 op=sinc key=a rate=60 n=8 draw=0`. The key is the part of the line from `start` up to `end`.
#[derive(Clone, Copy)]
pub struct CallLine {
    pub t: u64,
    pub op: Op,
    pub start: usize,
    pub end: usize,
    pub rate: u64,
    pub n: u64,
    pub draw: u64,
}

#[tactic(auto, unfolding(crate::specs::Reading::read_call))]
pub fn read_call(line: &[u8]) -> Option<CallLine>
    ensures { result ≡ read_call line.now }
{
    let (t, a) = field_at(line, 0, b"t=")?;
    let (op, b) = op_at(line, a)?;
    let tail = tail_at(line, b, b" key=", b" rate=", b" n=", b" draw=")?;
    let (rate, n, draw) = tail.numbers;
    if !is_exact(rate) {
        return None;
    }
    Some(CallLine {
        t,
        op,
        start: tail.start,
        end: tail.end,
        rate,
        n,
        draw,
    })
}
