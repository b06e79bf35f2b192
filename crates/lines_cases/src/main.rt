// Reads settings lines, call lines and shot lines, good and bad, and prints what was found; then prints answers; then reads printed lines back, and prints
// what each tells, or 14.
// A call that is read is told as an answer's line: t, the operation's number, the draw as 16 hex digits, the rate, n, and where its key lies.
// So is a shot, with its own number in n's place.
#![tactic(auto)]

use lines::Op;
use printing::{Answer, AnswerLine};
use std::io;

fn write(rt: &impl Print, out: &[u8], n: usize) -> io::Result<()> {
    if n <= out.len() {
        return rt.write_all(&out[..n]);
    }
    Ok(())
}

fn say(rt: &impl Print, line: AnswerLine) -> io::Result<()> {
    let mut out = [0u8; 256];
    let n = printing::print(line, &mut out);
    write(rt, &out, n)?;
    println!(rt)
}

fn number_of(op: Op) -> u64 {
    match op {
        Op::AbsoluteInc => 1,
        Op::AbsoluteGet => 2,
        Op::SuppressedInc => 3,
        Op::SuppressedGet => 4,
    }
}

fn call(rt: &impl Print, line: &[u8]) -> io::Result<()> {
    match lines::read_call(line) {
        Some(l) => {
            say(
                rt,
                AnswerLine {
                    t: l.t,
                    code: number_of(l.op),
                    answer: Answer::Value,
                    factor: l.draw,
                    wait: l.rate,
                    left: l.n,
                    total: l.start as u64,
                    declined: l.end as u64,
                },
            )
        }
        None => { println!(rt; "bad") }
    }
}

fn shot(rt: &impl Print, line: &[u8]) -> io::Result<()> {
    match shot_lines::read_shot(line) {
        Some(l) => {
            say(
                rt,
                AnswerLine {
                    t: l.t,
                    code: 0,
                    answer: Answer::Value,
                    factor: l.draw,
                    wait: l.rate,
                    left: l.number,
                    total: l.start as u64,
                    declined: l.end as u64,
                },
            )
        }
        None => { println!(rt; "bad") }
    }
}

fn settings(rt: &impl Print, line: &[u8]) -> io::Result<()> {
    match lines::read_settings(line) {
        Some(l) => {
            say(
                rt,
                AnswerLine {
                    t: l.window,
                    code: 0,
                    answer: Answer::Value,
                    factor: 0,
                    wait: l.bucket,
                    left: l.factor,
                    total: l.cache,
                    declined: 0,
                },
            )
        }
        None => { println!(rt; "bad") }
    }
}

fn all_settings(rt: &impl Print) -> io::Result<()> {
    settings(rt, b"window=10 bucket=100 factor=2 cache=100")?;
    settings(
        rt,
        b"window=0 bucket=0 factor=9007199254740992 cache=18446744073709551615",
    )?;
    settings(
        rt,
        b"window=10 bucket=100 factor=9007199254740993 cache=100",
    )?;
    settings(
        rt,
        b"window=10 bucket=100 factor=2 cache=18446744073709551616",
    )?;
    settings(rt, b"window=10 factor=2 bucket=100 cache=100")?;
    settings(rt, b"window=10 bucket=100 factor=2")?;
    settings(rt, b"")
}

fn good_calls(rt: &impl Print) -> io::Result<()> {
    call(rt, b"t=0 op=sinc key=a rate=60 n=8 draw=0")?;
    call(
        rt,
        b"t=1700 op=sinc key=a rate=60 n=5 draw=4503599627370496",
    )?;
    call(rt, b"t=11700 op=sget key=a rate=0 n=0 draw=0")?;
    call(
        rt,
        b"t=1 op=ainc key=zebra9 rate=9007199254740992 n=1 draw=18446744073709551615",
    )?;
    call(
        rt,
        b"t=2 op=aget key=abcdefghijklmnopqrstuvwxyz012345 rate=1 n=1 draw=1",
    )
}

fn bad_calls(rt: &impl Print) -> io::Result<()> {
    call(rt, b"")?;
    call(rt, b"t=0 op=sinc key=a rate=60 n=8 draw=0\r")?;
    call(rt, b"t=0 op=sinc key=a rate=60 n=8 draw=0 ")?;
    call(rt, b"t=0  op=sinc key=a rate=60 n=8 draw=0")?;
    call(rt, b"t=00 op=sinc key=a rate=60 n=8 draw=0")?;
    call(rt, b"t=0 op=sinc key=a rate=060 n=8 draw=0")?;
    call(
        rt,
        b"t=18446744073709551616 op=sinc key=a rate=60 n=8 draw=0",
    )?;
    call(rt, b"t=0 op=sinc key=a rate=9007199254740993 n=8 draw=0")?;
    call(rt, b"t=0 op=sinc key=A rate=60 n=8 draw=0")?;
    call(rt, b"t=0 op=sinc key= rate=60 n=8 draw=0")?;
    call(
        rt,
        b"t=0 op=sinc key=abcdefghijklmnopqrstuvwxyz0123456 rate=60 n=8 draw=0",
    )?;
    call(rt, b"t=0 op=inc key=a rate=60 n=8 draw=0")?;
    call(rt, b"t=0 op=sinc key=a n=8 rate=60 draw=0")?;
    call(rt, b"t=0 op=sinc key=a rate=60 n=8")?;
    call(rt, b"t= op=sinc key=a rate=60 n=8 draw=0")?;
    call(rt, b"t=-1 op=sinc key=a rate=60 n=8 draw=0")
}

fn good_shots(rt: &impl Print) -> io::Result<()> {
    shot(rt, b"t=0 ctl=a shot=17 rate=60 draw=0")?;
    shot(
        rt,
        b"t=1700 ctl=abcdefghijklmnopqrstuvwxyz012345 shot=0 rate=0 draw=4503599627370496",
    )?;
    shot(
        rt,
        b"t=18446744073709551615 ctl=9 shot=18446744073709551615 rate=9007199254740992 draw=1",
    )
}

fn bad_shots(rt: &impl Print) -> io::Result<()> {
    shot(rt, b"")?;
    shot(rt, b"t=0 op=sinc key=a rate=60 n=8 draw=0")?;
    shot(rt, b"t=0 ctl=a shot=17 rate=60 draw=0 ")?;
    shot(rt, b"t=0 ctl=a shot=17 rate=60")?;
    shot(rt, b"t=0 ctl=a rate=60 shot=17 draw=0")?;
    shot(rt, b"t=0 shot=17 ctl=a rate=60 draw=0")?;
    shot(rt, b"t=0 key=a shot=17 rate=60 draw=0")?;
    shot(rt, b"t=0 ctl=a shot=017 rate=60 draw=0")?;
    shot(rt, b"t=0 ctl=a shot=18446744073709551616 rate=60 draw=0")?;
    shot(rt, b"t=0 ctl=a shot=17 rate=9007199254740993 draw=0")?;
    shot(rt, b"t=0 ctl= shot=17 rate=60 draw=0")?;
    shot(
        rt,
        b"t=0 ctl=abcdefghijklmnopqrstuvwxyz0123456 shot=17 rate=60 draw=0",
    )
}

fn answer(rt: &impl Print, t: u64, answer: Answer, factor: u64, total: u64) -> io::Result<()> {
    say(
        rt,
        AnswerLine {
            t,
            code: 0,
            answer,
            factor,
            wait: 0,
            left: 0,
            total,
            declined: 5,
        },
    )
}

fn answers(rt: &impl Print) -> io::Result<()> {
    answer(rt, 0, Answer::Allowed, 0, 8)?;
    answer(rt, 1700, Answer::No, 4602678819172646912, 15)?;
    answer(rt, 11700, Answer::Value, 4599676419421066582, 15)?;
    answer(
        rt,
        1,
        Answer::Rejected,
        18446744073709551615,
        18446744073709551615,
    )?;
    answer(rt, 2, Answer::Yes, 11259375, 10)?;
    answer(rt, 3, Answer::Refused, 0, 9)?;
    answer(rt, 4, Answer::Held, 0, 7)
}

fn back(rt: &impl Print, line: &[u8]) -> io::Result<()> {
    match readback::read_line(line) {
        Ok(l) => { say(rt, told::line_of(l)) }
        Err(_) => { println!(rt; "14") }
    }
}

fn good_lines(rt: &impl Print) -> io::Result<()> {
    back(
        rt,
        b"t=0 code=0 answer=allowed factor=0000000000000000 wait=0 left=0 total=8 declined=5",
    )?;
    back(
        rt,
        b"t=3000 code=0 answer=rejected factor=0000000000000000 wait=7000 left=6 total=10 declined=0",
    )?;
    back(
        rt,
        b"t=1700 code=0 answer=no factor=3fe0000000000000 wait=0 left=0 total=15 declined=5",
    )?;
    back(
        rt,
        b"t=2 code=0 answer=yes factor=0000000000000001 wait=0 left=0 total=9007199254740992 declined=9007199254740992",
    )?;
    back(
        rt,
        b"t=18446744073709551615 code=0 answer=value factor=3ff0000000000000 wait=0 left=0 total=15 declined=5",
    )?;
    back(
        rt,
        b"t=0 code=0 answer=rejected factor=0000000000000000 wait=18446744073709551615 left=18446744073709551615 total=0 declined=0",
    )?;
    back(
        rt,
        b"t=0 code=1 answer=refused factor=0000000000000000 wait=0 left=0 total=0 declined=0",
    )?;
    back(
        rt,
        b"t=1699 code=6 answer=refused factor=0000000000000000 wait=0 left=0 total=0 declined=0",
    )?;
    back(
        rt,
        b"t=7 code=13 answer=refused factor=0000000000000000 wait=0 left=0 total=0 declined=0",
    )?;
    back(
        rt,
        b"t=0 code=14 answer=refused factor=0000000000000000 wait=0 left=0 total=0 declined=0",
    )
}

fn bad_forms(rt: &impl Print) -> io::Result<()> {
    back(rt, b"")?;
    back(
        rt,
        b"t=0 code=0 answer=allowed factor=0000000000000000 wait=0 left=0 total=8 declined=5\n",
    )?;
    back(
        rt,
        b"t=0 code=0 answer=allowed factor=0000000000000000 wait=0 left=0 total=8 declined=5\r",
    )?;
    back(
        rt,
        b"t=0 code=0 answer=allowed factor=0000000000000000 wait=0 left=0 total=8 declined=5 ",
    )?;
    back(
        rt,
        b"t=0  code=0 answer=allowed factor=0000000000000000 wait=0 left=0 total=8 declined=5",
    )?;
    back(
        rt,
        b"t=0code=0 answer=allowed factor=0000000000000000 wait=0 left=0 total=8 declined=5",
    )?;
    back(
        rt,
        b"t=00 code=0 answer=allowed factor=0000000000000000 wait=0 left=0 total=8 declined=5",
    )?;
    back(
        rt,
        b"t=18446744073709551616 code=0 answer=allowed factor=0000000000000000 wait=0 left=0 total=8 declined=5",
    )?;
    back(
        rt,
        b"t=1700 code=0 answer=no factor=3FE0000000000000 wait=0 left=0 total=15 declined=5",
    )?;
    back(
        rt,
        b"t=1700 code=0 answer=no factor=3fe000000000000 wait=0 left=0 total=15 declined=5",
    )?;
    back(
        rt,
        b"t=1700 code=0 answer=no factor=3fe00000000000000 wait=0 left=0 total=15 declined=5",
    )?;
    back(
        rt,
        b"t=0 code=0 answer=held factor=0000000000000000 wait=0 left=0 total=7 declined=5",
    )?;
    back(
        rt,
        b"t=0 code=0 answer=never factor=0000000000000000 wait=0 left=0 total=7 declined=5",
    )?;
    back(
        rt,
        b"t=0 code=0 answer=allowed factor=0000000000000000 wait=0 left=0 total=8",
    )
}

fn out_of_range(rt: &impl Print) -> io::Result<()> {
    back(
        rt,
        b"t=1700 code=0 answer=no factor=3ff0000000000001 wait=0 left=0 total=15 declined=5",
    )?;
    back(
        rt,
        b"t=1700 code=0 answer=no factor=8000000000000000 wait=0 left=0 total=15 declined=5",
    )?;
    back(
        rt,
        b"t=1700 code=0 answer=value factor=7ff8000000000000 wait=0 left=0 total=15 declined=5",
    )?;
    back(
        rt,
        b"t=0 code=0 answer=allowed factor=0000000000000000 wait=0 left=0 total=8 declined=9",
    )?;
    back(
        rt,
        b"t=0 code=0 answer=allowed factor=0000000000000000 wait=0 left=0 total=9007199254740993 declined=0",
    )?;
    back(
        rt,
        b"t=1 code=14 answer=refused factor=0000000000000000 wait=0 left=0 total=0 declined=0",
    )?;
    back(
        rt,
        b"t=1 code=4 answer=refused factor=0000000000000000 wait=0 left=0 total=0 declined=0",
    )?;
    back(
        rt,
        b"t=0 code=15 answer=refused factor=0000000000000000 wait=0 left=0 total=0 declined=0",
    )?;
    back(
        rt,
        b"t=0 code=0 answer=refused factor=0000000000000000 wait=0 left=0 total=0 declined=0",
    )?;
    back(
        rt,
        b"t=0 code=5 answer=allowed factor=0000000000000000 wait=0 left=0 total=8 declined=5",
    )?;
    back(
        rt,
        b"t=0 code=0 answer=allowed factor=0000000000000000 wait=1 left=0 total=8 declined=5",
    )?;
    back(
        rt,
        b"t=0 code=0 answer=allowed factor=3fe0000000000000 wait=0 left=0 total=8 declined=5",
    )?;
    back(
        rt,
        b"t=0 code=5 answer=refused factor=0000000000000000 wait=0 left=0 total=8 declined=5",
    )?;
    back(
        rt,
        b"t=0 code=0 answer=value factor=0000000000000000 wait=0 left=3 total=8 declined=5",
    )
}

fn main(rt: HostRuntime) -> io::Result<()> {
    all_settings(&rt)?;
    good_calls(&rt)?;
    bad_calls(&rt)?;
    good_shots(&rt)?;
    bad_shots(&rt)?;
    answers(&rt)?;
    good_lines(&rt)?;
    bad_forms(&rt)?;
    out_of_range(&rt)
}
