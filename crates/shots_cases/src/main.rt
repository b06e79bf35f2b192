// `shots` on inputs that a file has each, lesson 4's among them: after a heading, what it prints for it.
#![tactic(auto)]

use std::fs::File;
use std::io;

fn run(rt: &HostRuntime, name: &str) -> io::Result<()> {
    println!(rt; "# {name}")?;
    match File::open(rt, name) {
        Ok(mut from) => desk_run::run_shots(rt, &mut from),
        Err(why) => eprintln!(rt; "{name}: {why}")?,
    }
    Ok(())
}

const INPUTS: [&str; 23] = [
    "empty",
    "settings-alone",
    "settings-bad",
    "settings-1",
    "bad-lines",
    "long-lines",
    "numbers",
    "lower",
    "sixty-five",
    "no-slot-free",
    "full-ring",
    "thirty-seconds",
    "held",
    "long-after",
    "turned-away",
    "two-controllers",
    "clock-back",
    "refusals",
    "no-last-newline",
    "lesson-4",
    "lesson-4-question-1",
    "lesson-4-question-2",
    "lesson-4-question-3",
];

fn main(rt: HostRuntime) -> io::Result<()> {
    for name in &INPUTS {
        run(&rt, name)?;
    }
    Ok(())
}
