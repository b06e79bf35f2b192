// A line taken whole, of `desk` or of `shots`: the settings of the first one, a call or a shot of each other one, and the line that it prints.
#![tactic(auto)]

ghost use Rattle.std.specs.Prelude.{◌+◌, ◌≤◌, length};
ghost use Rattle.printing.specs.Answers.{longest};
ghost use Rattle.printing.specs.Printing.{Put};
ghost use Rattle.desk_step.specs.Desk.{opening_of};
ghost use Rattle.desk_lines.specs.Step.{Answered};
ghost use Rattle.desk_turn.specs.Lines.{roomy, shown, stepped_by, turn};
ghost use Rattle.desk_turn.specs.Taking.{PutAnswer, Begins, Took};

use printing::AnswerLine;
use settings::Settings;

pub const NEWLINE: u8 = b'\n';

fn put_answer(line: AnswerLine, out: &mut [u8], at: usize) -> usize
    requires { at + longest ≤ length out.old }
    ensures { PutAnswer line out.old at out.new result }
{
    let end = at + printing::LONGEST;
    at + printing::print(line, &mut out[at..end])
}

// The line from `at` on, with its newline.
fn put_line(line: AnswerLine, out: &mut [u8], at: usize) -> usize
    requires { at + roomy ≤ length out.old }
    ensures { Put out.old at (shown line) out.new result }
{
    let next = put_answer(line, out, at);
    out[next] = NEWLINE;
    next + 1
}

// Whose lines these are. The two memories that are lent are the absolute and the suppressed room of `desk`, the table and the room of `shots`.
#[derive(Clone, Copy)]
pub enum Program {
    Desk,
    Shots,
}

// What the next line is: the settings, a call or a shot, or nothing any more.
#[derive(Clone, Copy)]
pub enum Phase {
    Waiting(Program),
    Open(Program, Settings),
    Ended,
}

// The phase after a line, and the place past what it printed.
#[derive(Clone, Copy)]
pub struct Turn {
    pub phase: Phase,
    pub next: usize,
}

// The first line opens the program, or prints its refusal and ends.
fn take_settings(program: Program, line: &[u8], out: &mut [u8], at: usize) -> Turn
    requires { at + roomy ≤ length out.old }
    ensures { Begins program (opening_of line.now) out.old at result out.new }
{
    match desk_step::begin(line) {
        Ok(settings) => Turn {
            phase: Phase::Open(program, settings),
            next: at,
        },
        Err(e) => Turn {
            phase: Phase::Ended,
            next: put_line(desk_step::refusal(e), out, at),
        },
    }
}

// Each program takes its lines by its own step.
fn step(
    program: Program,
    settings: Settings,
    first: &mut [u64],
    second: &mut [u64],
    line: &[u8],
) -> AnswerLine
    ensures { Answered (stepped_by program settings first.old second.old line.now) result first.new
        second.new }
{
    match program {
        Program::Desk => desk_step::step(settings, first, second, line),
        Program::Shots => shots_step::step(settings, first, second, line),
    }
}

// The line of a call or a shot.
fn put_step(
    program: Program,
    settings: Settings,
    first: &mut [u64],
    second: &mut [u64],
    line: &[u8],
    out: &mut [u8],
    at: usize,
) -> Turn
    requires { at + roomy ≤ length out.old }
    ensures { Took (turn (Phase.Open program settings) first.old second.old line.now) out.old at result
        first.new second.new out.new }
{
    let answer = step(program, settings, first, second, line);
    Turn {
        phase: Phase::Open(program, settings),
        next: put_line(answer, out, at),
    }
}

// What a line does and prints, by the phase.
pub fn take_line(
    phase: Phase,
    first: &mut [u64],
    second: &mut [u64],
    line: &[u8],
    out: &mut [u8],
    at: usize,
) -> Turn
    requires { at + roomy ≤ length out.old }
    ensures { Took (turn phase first.old second.old line.now) out.old at result first.new
        second.new out.new }
{
    match phase {
        Phase::Waiting(program) => take_settings(program, line, out, at),
        Phase::Open(program, settings) => {
            put_step(program, settings, first, second, line, out, at)
        }
        Phase::Ended => Turn { phase, next: at },
    }
}
