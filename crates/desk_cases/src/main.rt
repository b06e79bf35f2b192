// `desk` on inputs that a file has each, the lessons' among them: after a heading, what it prints for it. `many-lines` (many-lines.awk printed it) has
// answers for five times what `desk` writes at once, and lines that the blocks cut.
#![tactic(auto)]

use std::fs::File;
use std::io;

fn run(rt: &HostRuntime, name: &str) -> io::Result<()> {
    println!(rt; "# {name}")?;
    match File::open(rt, name) {
        Ok(mut from) => desk_run::run(rt, &mut from),
        Err(why) => eprintln!(rt; "{name}: {why}")?,
    }
    Ok(())
}

const INPUTS: [&str; 33] = [
    "empty",
    "only-a-newline",
    "settings-alone",
    "settings-without-newline",
    "settings-bad",
    "settings-1",
    "settings-2",
    "settings-3",
    "settings-4",
    "largest-settings",
    "bad-lines",
    "long-lines",
    "many-lines",
    "two-rooms",
    "five-keys",
    "full-ring",
    "thirty-seconds",
    "refusals",
    "after-an-empty-call",
    "no-last-newline",
    "lesson-1",
    "lesson-2",
    "lesson-3",
    "lesson-3-hundred",
    "lesson-1-question-1",
    "lesson-1-question-2",
    "lesson-1-question-3",
    "lesson-2-question-1",
    "lesson-2-question-2",
    "lesson-2-question-3",
    "lesson-3-question-1",
    "lesson-3-question-2",
    "lesson-3-question-3",
];

fn main(rt: HostRuntime) -> io::Result<()> {
    for name in &INPUTS {
        run(&rt, name)?;
    }
    Ok(())
}
