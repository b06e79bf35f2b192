// The programs `desk` and `shots` on bytes: what was read goes in, in blocks cut anywhere, and what is to be written comes out. A program only
// reads and writes.
#![tactic(auto)]

ghost use Rattle.std.specs.Prelude.{◌≡◌, ◌+◌, ◌≤◌, length, take};
ghost use Rattle.desk_feed.specs.Feed.{fresh, rested, whole, byte, is_over, finishing, has_ended};
ghost use Rattle.desk_turn.specs.Lines.{roomy, turn};
ghost use Rattle.desk_feed.specs.Clauses.{Gone, Kept, Feeding, slots_of, FirstMade, BothMade};
ghost use Rattle.desk_turn.specs.Taking.{Took};

use common::Refusal;
use desk_turn::{Phase, Program, Turn, take_line};

// Room enough for a line with its newline.
pub const LONGEST_LINE: usize = 241;

// The slots of each room of `desk`, and of the room of `shots`: there each controller of a full table has one.
const DESK_SLOTS: u64 = 4;

const SHOTS_SLOTS: u64 = 64;

// They suffice for a window of 30 s and buckets of 100 ms.
const RING: u64 = 298;

// ---- bytes

// Where a program stands between two bytes, whichever it is: the phase, and how many bytes of a line are held.
#[derive(Clone, Copy)]
pub struct Desk {
    pub phase: Phase,
    pub held: usize,
}

// The desk after a byte, and the place past what it printed.
#[derive(Clone, Copy)]
pub struct Fed {
    pub desk: Desk,
    pub next: usize,
}

pub fn start(program: Program) -> Desk
    ensures { result ≡ fresh program }
{
    Desk {
        phase: Phase::Waiting(program),
        held: 0,
    }
}

fn slots(program: Program) -> u64
    ensures { result ≡ slots_of program }
{
    match program {
        Program::Desk => DESK_SLOTS,
        Program::Shots => SHOTS_SLOTS,
    }
}

fn make_first(program: Program, w: &mut [u64]) -> Result<(), Refusal>
    ensures { FirstMade program w.old result w.new }
{
    match program {
        Program::Desk => room::make(w, DESK_SLOTS, RING),
        Program::Shots => table::make(w),
    }
}

// Makes the program's two memories in lent words, or leaves words that do not fit.
pub fn make_memories(program: Program, first: &mut [u64], second: &mut [u64]) -> Result<(), Refusal>
    ensures { BothMade program first.old second.old result first.new second.new }
{
    let made = room::make(second, slots(program), RING);
    make_first(program, first)?;
    made
}

// The line that is held is whole.
fn end_line(
    desk: Desk,
    first: &mut [u64],
    second: &mut [u64],
    hold: &[u8],
    out: &mut [u8],
    at: usize,
) -> Turn
    requires { at + roomy ≤ length out.old }
    ensures { Took (turn desk.phase first.old second.old (take desk.held hold.now))
        out.old at result first.new second.new out.new }
{
    let n = desk.held.min(hold.len());
    take_line(desk.phase, first, second, &hold[..n], out, at)
}

// A byte of a line is kept while there is room: a line that fills it is bad, whatever follows.
fn keep(desk: Desk, hold: &mut [u8], b: u8) -> Desk
    ensures { Kept desk hold.old b result hold.new }
{
    if hold.len() <= desk.held {
        return desk;
    }
    hold[desk.held] = b;
    Desk {
        phase: desk.phase,
        held: desk.held + 1,
    }
}

fn rested(phase: Phase) -> Desk
    ensures { result ≡ rested phase }
{
    Desk { phase, held: 0 }
}

fn feed_byte(
    desk: Desk,
    first: &mut [u64],
    second: &mut [u64],
    hold: &mut [u8],
    b: u8,
    out: &mut [u8],
    at: usize,
) -> Fed
    requires { at + roomy ≤ length out.old }
    ensures { Gone (byte (whole desk first.old second.old hold.old) b) out.old at result
        first.new second.new hold.new out.new }
{
    if b == desk_turn::NEWLINE {
        let turn = end_line(desk, first, second, hold, out, at);
        return Fed {
            desk: rested(turn.phase),
            next: turn.next,
        };
    }
    Fed {
        desk: keep(desk, hold, b),
        next: at,
    }
}

// The desk after a block, how many of its bytes were taken, and how many bytes were put at the start of `out`.
#[derive(Clone, Copy)]
pub struct Progress {
    pub desk: Desk,
    pub taken: usize,
    pub put: usize,
}

// Takes bytes of a block, one after the other, while `out` has room for a line more.
pub fn feed(
    desk: Desk,
    first: &mut [u64],
    second: &mut [u64],
    hold: &mut [u8],
    block: &[u8],
    out: &mut [u8],
) -> Progress
    ensures { Feeding (whole desk first.old second.old hold.old) block.now out.old result
        first.new second.new hold.new out.new }
{
    let mut state = desk;
    let mut put = 0;
    for (taken, &b) in block.iter().enumerate() {
        if out.len() < LONGEST_LINE || out.len() - LONGEST_LINE < put {
            return Progress {
                desk: state,
                taken,
                put,
            };
        }
        let fed = feed_byte(state, first, second, hold, b, out, put);
        state = fed.desk;
        put = fed.next;
    }
    Progress {
        desk: state,
        taken: block.len(),
        put,
    }
}

// Whether nothing follows: no line is held that the end of the input ends.
#[tactic(auto, unfolding(crate::specs::Feed::is_over))]
fn is_over(desk: Desk) -> bool
    ensures { result ≡ is_over desk }
{
    match desk.phase {
        Phase::Waiting(_) => false,
        Phase::Open(_, _) => desk.held == 0,
        Phase::Ended => true,
    }
}

// The end of the input ends a line that is held, and is itself a bad settings line where none was read.
pub fn finish(
    desk: Desk,
    first: &mut [u64],
    second: &mut [u64],
    hold: &[u8],
    out: &mut [u8],
) -> Turn
    ensures { Took (finishing (length out.old) (whole desk first.old second.old hold.now))
        out.old 0 result first.new second.new out.new }
{
    if out.len() < LONGEST_LINE || is_over(desk) {
        return Turn {
            phase: desk.phase,
            next: 0,
        };
    }
    end_line(desk, first, second, hold, out, 0)
}

// Whether the desk reads no more.
#[tactic(auto, unfolding(crate::specs::Feed::has_ended))]
pub fn has_ended(desk: Desk) -> bool
    ensures { result ≡ has_ended desk }
{
    matches!(desk.phase, Phase::Ended)
}
