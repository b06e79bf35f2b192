// What the program `desk` makes of a line: the settings of the first one; of each other one a call of a limiter, by its one party, and the line to print.
#![tactic(auto)]

ghost use Rattle.std.specs.Prelude.{◌≡◌};
ghost use Rattle.judge.specs.Verdict.{Told};
ghost use Rattle.told.specs.Told.{refused_line};
ghost use Rattle.desk_lines.specs.Step.{Answered};
ghost use Rattle.desk_step.specs.Desk.{absolute_inc, absolute_get, suppressed_inc, suppressed_get, call_of, stepped};
ghost use Rattle.desk_step.specs.Desk.{settings_of, open_with, opening_of};

use common::{BucketSize, Refusal, SuppressionFactorCachePeriod, WindowSize};
use desk_lines::{alone, decision_line, per_minute, snapshot_line, stored_of, total_line};
use lines::{CallLine, Op, SettingsLine};
use printing::AnswerLine;
use settings::{ClockMode, Settings};
use told::{bad_line, refused};

// ---- the calls

fn absolute_inc(
    settings: Settings,
    room: &mut [u64],
    t: u64,
    key: &[u8],
    rate: u64,
    n: u64,
) -> AnswerLine
    ensures { Told (absolute_inc settings room.old t key.now rate n) result room.new }
{
    let caller = alone(room);
    let d = absolute_inc::inc(settings, room, t, caller, key, per_minute(rate), n);
    decision_line(t, d, stored_of(room, key))
}

fn absolute_get(settings: Settings, room: &mut [u64], t: u64, key: &[u8]) -> AnswerLine
    ensures { Told (absolute_get settings room.old t key.now) result room.new }
{
    let caller = alone(room);
    total_line(t, absolute_reads::get(settings, room, t, caller, key))
}

fn suppressed_inc(
    settings: Settings,
    room: &mut [u64],
    t: u64,
    key: &[u8],
    rate: u64,
    n: u64,
    draw: u64,
) -> AnswerLine
    ensures { Told (suppressed_inc settings room.old t key.now rate n draw) result room.new }
{
    let caller = alone(room);
    let d = suppressed_inc::inc(settings, room, t, caller, key, per_minute(rate), n, draw);
    decision_line(t, d, stored_of(room, key))
}

fn suppressed_get(settings: Settings, room: &mut [u64], t: u64, key: &[u8]) -> AnswerLine
    ensures { Told (suppressed_get settings room.old t key.now) result room.new }
{
    let caller = alone(room);
    let a = suppressed_reads::get(settings, room, t, caller, key);
    snapshot_line(t, a, stored_of(room, key))
}

// `key` is the part of the line that names it.
#[tactic(auto, unfolding(crate::specs::Desk::call_of))]
fn call(
    settings: Settings,
    absolute: &mut [u64],
    suppressed: &mut [u64],
    c: CallLine,
    key: &[u8],
) -> AnswerLine
    ensures { Answered (call_of settings absolute.old suppressed.old c.t c.op key.now c.rate c.n c.draw) result
        absolute.new suppressed.new }
{
    match c.op {
        Op::AbsoluteInc => absolute_inc(settings, absolute, c.t, key, c.rate, c.n),
        Op::AbsoluteGet => absolute_get(settings, absolute, c.t, key),
        Op::SuppressedInc => suppressed_inc(settings, suppressed, c.t, key, c.rate, c.n, c.draw),
        Op::SuppressedGet => suppressed_get(settings, suppressed, c.t, key),
    }
}

// A call line: the line to print, and the rooms after it. A bad one leaves both rooms.
pub fn step(
    settings: Settings,
    absolute: &mut [u64],
    suppressed: &mut [u64],
    line: &[u8],
) -> AnswerLine
    ensures { Answered (stepped settings absolute.old suppressed.old line.now) result absolute.new
        suppressed.new }
{
    let Some(c) = lines::read_call(line) else {
        return bad_line();
    };
    call(settings, absolute, suppressed, c, &line[c.start..c.end])
}

// ---- the settings line

fn settings_of(l: SettingsLine) -> Settings
    ensures { result ≡ settings_of l.window l.bucket l.factor l.cache }
{
    Settings {
        window_size: WindowSize(l.window),
        bucket_size: BucketSize(l.bucket),
        hard_limit_factor: std::num::nearest_u64_to_f64(l.factor),
        suppression_factor_cache_period: SuppressionFactorCachePeriod(l.cache),
        clock_mode: ClockMode::Milliseconds,
    }
}

#[tactic(auto, unfolding(crate::specs::Desk::open_with))]
fn open_with(settings: Settings) -> Result<Settings, Refusal>
    ensures { result ≡ open_with settings }
{
    settings.check()?;
    Ok(settings)
}

// What a settings line opens.
#[tactic(auto, unfolding(crate::specs::Desk::opening_of))]
pub fn begin(line: &[u8]) -> Result<Settings, Refusal>
    ensures { result ≡ opening_of line.now }
{
    let Some(l) = lines::read_settings(line) else {
        return Err(Refusal::NO_CALL);
    };
    open_with(settings_of(l))
}

// The line that is printed where nothing is opened.
pub fn refusal(e: Refusal) -> AnswerLine
    ensures { result ≡ refused_line 0 e.0 }
{
    refused(0, e.number())
}
