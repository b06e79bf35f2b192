// Reads the input of `desk` or `shots` and writes the answers, and says where either fails. What is printed is decided in `desk_feed`; here it goes in and
// out, all of it once. How many bytes went each way is counted, since no contract can say which.
#![tactic(auto)]

ghost use Rattle.std.specs.Prelude.{◌≡◌, ◌+◌, ◌≤◌, length};
ghost use Rattle.desk_turn.specs.Lines.{roomy};
ghost use Rattle.desk_feed.specs.Feed.{whole, fresh, finished};
ghost use Rattle.desk_feed.specs.Clauses.{new_first, new_second, Fitting};
ghost use Rattle.desk_run.specs.Run.{capped, heard_of, Pumping, Leaves, Closing, Serves};

use desk_feed::Desk;
use desk_turn::Program;
use std::io;
use std::io::{Read, Write};

// The words of a room of 4 slots with rings of 298.
const DESK_ROOM: usize = 3633;

// The words of a table, and of a room of 64 slots with rings of 298.
const TABLE: usize = 389;

const SHOTS_ROOM: usize = 58053;

// The bytes that are held of a line that a block cuts: more than any line has that is not bad.
const HOLD: usize = 200;

// The bytes that are read, and written, at a time.
const BLOCK: usize = 65536;

// A count with n more, or the largest number.
fn more(count: u64, n: usize) -> u64
    ensures { result ≡ capped (count + n) }
{
    count.saturating_add(n as u64)
}

// How a write went, and how many bytes were written with it.
#[derive(Clone, Copy)]
struct Sent {
    outcome: io::Result<()>,
    put: u64,
}

// The first `n` bytes of `out` go out.
fn write_put<W: Write>(to: &mut W, out: &[u8], n: usize, put: u64) -> Sent
    requires { n ≤ length out.now }
    ensures { result.put ≡ capped (put + n) }
{
    let part = &out[..n];
    Sent {
        outcome: to.write_all(part),
        put: more(put, part.len()),
    }
}

// The desk after a block, how many of its bytes were taken, how many bytes were written, and how the last write went.
#[derive(Clone, Copy)]
struct Pumped {
    desk: Desk,
    taken: usize,
    put: u64,
    outcome: io::Result<()>,
}

// Takes a block whole, and writes what it prints as often as `out` is full; or stops at a write that fails.
fn pump<W: Write>(
    desk: Desk,
    to: &mut W,
    first: &mut [u64],
    second: &mut [u64],
    hold: &mut [u8],
    block: &[u8],
    out: &mut [u8],
    put: u64,
) -> Pumped
    requires { roomy ≤ length out.old }
    ensures { Pumping (whole desk first.old second.old hold.old) block.now put result
        first.new second.new hold.new }
{
    let mut state = desk;
    let mut at = 0;
    let mut sent = Sent {
        outcome: Ok(()),
        put,
    };
    // A turn takes as many bytes as `out` has room to answer, so no iterator has its steps.
    while at < block.len() {
        let progress = desk_feed::feed(state, first, second, hold, &block[at..], out);
        state = progress.desk;
        at += progress.taken;
        sent = write_put(to, out, progress.put, sent.put);
        if sent.outcome.is_err() {
            return Pumped {
                desk: state,
                taken: at,
                put: sent.put,
                outcome: sent.outcome,
            };
        }
    }
    Pumped {
        desk: state,
        taken: at,
        put: sent.put,
        outcome: Ok(()),
    }
}

// The end of the input.
fn end<W: Write>(
    desk: Desk,
    to: &mut W,
    first: &mut [u64],
    second: &mut [u64],
    hold: &[u8],
    out: &mut [u8],
    put: u64,
) -> Sent
    ensures { Leaves (finished (length out.old) (whole desk first.old second.old hold.now)) put
        result.put first.new second.new }
{
    let turn = desk_feed::finish(desk, first, second, hold, out);
    write_put(to, out, turn.next, put)
}

// What a read gave: it failed, it gave nothing since the input has ended, or it gave bytes.
#[derive(Clone, Copy)]
enum Heard {
    Failed,
    Nothing,
    Bytes(usize),
}

// What the answer of a read into `block` says.
fn hear(got: io::Result<usize>, block: &[u8]) -> Heard
    ensures { result ≡ heard_of got (length block.now) }
{
    let Ok(count) = got else {
        return Heard::Failed;
    };
    let n = count.min(block.len());
    if n == 0 {
        return Heard::Nothing;
    }
    Heard::Bytes(n)
}

// How a run ends: all was read and written, a read failed, a write failed, or there was more to read than can be counted.
#[derive(Clone, Copy)]
enum Ending {
    Done,
    Unread,
    Unwritten,
    Endless,
}

// With what the last read gave, and how many bytes were read and written; and why a read or a write failed, beside the kind of which contracts speak.
#[derive(Clone, Copy)]
struct Served {
    ending: Ending,
    last: Heard,
    read: u64,
    put: u64,
    why: Option<io::Error>,
}

// After a read that gave no bytes: a read that failed is not the end of the input.
fn close<W: Write>(
    desk: Desk,
    to: &mut W,
    first: &mut [u64],
    second: &mut [u64],
    hold: &[u8],
    out: &mut [u8],
    last: Heard,
    why: Option<io::Error>,
    read: u64,
    put: u64,
) -> Served
    ensures { Closing (length out.old) (whole desk first.old second.old hold.now) last read put result
        first.new second.new }
{
    if let Heard::Failed = last {
        return Served {
            ending: Ending::Unread,
            last,
            read,
            put,
            why,
        };
    }
    let sent = end(desk, to, first, second, hold, out, put);
    if sent.outcome.is_err() {
        return Served {
            ending: Ending::Unwritten,
            last,
            read,
            put: sent.put,
            why: sent.outcome.err(),
        };
    }
    Served {
        ending: Ending::Done,
        last,
        read,
        put: sent.put,
        why: None,
    }
}

// All answers to what was read are written before the next read.
fn serve<R: Read, W: Write>(
    desk: Desk,
    from: &mut R,
    to: &mut W,
    first: &mut [u64],
    second: &mut [u64],
    hold: &mut [u8; HOLD],
    block: &mut [u8],
    out: &mut [u8; BLOCK],
) -> Served
    ensures { Serves 65536 (whole desk first.old second.old hold.old) result
        first.new second.new hold.new }
{
    let mut state = desk;
    let mut read = 0;
    let mut put = 0;
    let mut last = Heard::Nothing;
    // The count of bytes that were read ends the loop: an input need have no end.
    while read < u64::MAX {
        let got = from.read(block);
        last = hear(got, block);
        let Heard::Bytes(n) = last else {
            return close(
                state,
                to,
                first,
                second,
                hold,
                out,
                last,
                got.err(),
                read,
                put,
            );
        };
        let pumped = pump(state, to, first, second, hold, &block[..n], out, put);
        state = pumped.desk;
        put = pumped.put;
        read = more(read, n);
        if pumped.outcome.is_err() {
            return Served {
                ending: Ending::Unwritten,
                last,
                read,
                put,
                why: pumped.outcome.err(),
            };
        }
        if desk_feed::has_ended(state) {
            return Served {
                ending: Ending::Done,
                last,
                read,
                put,
                why: None,
            };
        }
    }
    Served {
        ending: Ending::Endless,
        last,
        read,
        put,
        why: None,
    }
}

// With both memories made anew.
fn serve_anew<R: Read, W: Write>(
    program: Program,
    from: &mut R,
    to: &mut W,
    first: &mut [u64],
    second: &mut [u64],
    hold: &mut [u8; HOLD],
    block: &mut [u8],
    out: &mut [u8; BLOCK],
) -> Served
    requires { Fitting program first.old second.old }
    ensures { Serves 65536 (whole (fresh program) (new_first program) (new_second program) hold.old) result
        first.new second.new hold.new }
{
    desk_feed::make_memories(program, first, second).unwrap();
    serve(
        desk_feed::start(program),
        from,
        to,
        first,
        second,
        hold,
        block,
        out,
    )
}

// What failed and the system's words for why, without the number that std puts behind them.
fn fail<P: Eprint>(rt: &P, what: &str, why: io::Error) -> io::Result<()> {
    let mut text = io::Cursor::new([0u8; 256]);
    write!(text, "{why}")?;
    let bytes = text.into_inner();
    let words = std::str::from_utf8(&bytes).unwrap_or("");
    match words.split_once(" (os error ") {
        Some((words, _)) => eprintln!(rt; "{what}: {words}"),
        None => eprintln!(rt; "{what}: {why}"),
    }
}

// Says what failed, in the program's words.
fn report<P: Eprint>(rt: &P, served: Served, unread: &str, unwritten: &str) -> io::Result<()> {
    let why = served.why.unwrap_or(io::Error::from(io::ErrorKind::Other));
    match served.ending {
        Ending::Done => Ok(()),
        Ending::Unread => fail(rt, unread, why),
        Ending::Unwritten => fail(rt, unwritten, why),
        Ending::Endless => eprintln!(rt; "{unread}: too much input"),
    }
}

// A program from a reader to standard output. What fails is said on standard error, and ends the run.
fn run_with<P: Print + Eprint, R: Read>(
    rt: &P,
    program: Program,
    from: &mut R,
    first: &mut [u64],
    second: &mut [u64],
    unread: &str,
    unwritten: &str,
)
    requires { Fitting program first.old second.old }
{
    let mut hold = [0u8; HOLD];
    let mut block = [0u8; BLOCK];
    let mut out = [0u8; BLOCK];
    let mut to = io::writer(rt);
    let served = serve_anew(
        program, from, &mut to, first, second, &mut hold, &mut block, &mut out,
    );
    let _ = report(rt, served, unread, unwritten);
}

// `desk`, with its two rooms.
pub fn run<P: Print + Eprint, R: Read>(rt: &P, from: &mut R) {
    let mut absolute = [0u64; DESK_ROOM];
    let mut suppressed = [0u64; DESK_ROOM];
    run_with(
        rt,
        Program::Desk,
        from,
        &mut absolute,
        &mut suppressed,
        "desk: cannot read",
        "desk: cannot write",
    );
}

// `shots`, with its table and its room.
pub fn run_shots<P: Print + Eprint, R: Read>(rt: &P, from: &mut R) {
    let mut table = [0u64; TABLE];
    let mut room = [0u64; SHOTS_ROOM];
    run_with(
        rt,
        Program::Shots,
        from,
        &mut table,
        &mut room,
        "shots: cannot read",
        "shots: cannot write",
    );
}
