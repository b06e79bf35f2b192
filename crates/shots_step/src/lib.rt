// What the program `shots` makes of a line: a shot at the gateway, by its one party, and the line to print.
#![tactic(auto)]

ghost use Rattle.desk_lines.specs.Step.{Answered};
ghost use Rattle.shots_step.specs.Shots.{shot_of, stepped};

use desk_lines::{alone, per_minute, shot_line, stored_of};
use printing::AnswerLine;
use settings::Settings;
use shot_lines::ShotLine;
use told::bad_line;

// `key` is the part of the line that names the controller.
fn take(
    settings: Settings,
    table: &mut [u64],
    room: &mut [u64],
    l: ShotLine,
    key: &[u8],
) -> AnswerLine
    ensures { Answered (shot_of settings table.old room.old l.t key.now l.number l.rate l.draw) result table.new
        room.new }
{
    let caller = alone(room);
    let a = gateway::shot(
        settings,
        table,
        room,
        l.t,
        caller,
        key,
        l.number,
        per_minute(l.rate),
        l.draw,
    );
    shot_line(l.t, a, stored_of(room, key))
}

// A shot line: the line to print, and table and room after it. A bad one leaves both.
pub fn step(settings: Settings, table: &mut [u64], room: &mut [u64], line: &[u8]) -> AnswerLine
    ensures { Answered (stepped settings table.old room.old line.now) result table.new room.new }
{
    let Some(l) = shot_lines::read_shot(line) else {
        return bad_line();
    };
    take(settings, table, room, l, &line[l.start..l.end])
}
