// An edit of a slot's body: buckets out, what is done to the rest, and the words beside them.
#![tactic(auto)]

ghost use Rattle.std.specs.Prelude.{◌≡◌, ◌≤◌, length};
ghost use Rattle.layout.specs.Layout.{fixed_words};
ghost use Rattle.edit.specs.Bodies.{begun, started, acted, fixed, edited, Starts, Acts, Edits};

use answers::HistoryPreservation;

// What becomes of the buckets that stay.
#[derive(Clone, Copy)]
pub enum Then {
    Nothing,
    Increment {
        count: u64,
        declined: u64,
    },
    Replace {
        count: u64,
    },
    Preserve {
        preservation: HistoryPreservation,
        count: u64,
    },
}

// A slot's new words: whether its series begins, how many of the oldest buckets go and the totals of those that stay, what is
// done then, and its limit, cached factor and use.
#[derive(Clone, Copy)]
pub struct Edit {
    pub begins: bool,
    pub gone: usize,
    pub total: u64,
    pub declined: u64,
    pub then: Then,
    pub limit: u64,
    pub factor: u64,
    pub factor_time: u64,
    pub used: u64,
}

// A series with no buckets.
fn begin(b: &mut [u64])
    requires { fixed_words ≤ length b.old }
    ensures { b.new ≡ begun b.old }
{
    b[layout::TOTAL] = 0;
    b[layout::DECLINED] = 0;
    b[layout::HEAD] = 0;
    b[layout::LEN] = 0;
}

// The buckets that stay.
fn start(b: &mut [u64], r: usize, e: Edit)
    requires { Starts r b.old e }
    ensures { b.new ≡ started r b.old e }
{
    let begins = e.begins;
    let gone = e.gone;
    if begins {
        begin(b);
    } else {
        ring::evict(b, r, gone, e.total, e.declined);
    }
}

fn act(b: &mut [u64], r: usize, size: u64, reading: u64, then: Then)
    requires { Acts r size reading b.old then }
    ensures { b.new ≡ acted r size reading then b.old }
{
    match then {
        Then::Nothing => {}
        Then::Increment { count, declined } => {
            history::increment(b, r, size, reading, count, declined);
        }
        Then::Replace { count } => {
            history::replace(b, r, reading, count);
        }
        Then::Preserve {
            preservation,
            count,
        } => {
            preserve::preserve(b, r, preservation, reading, count);
        }
    }
}

// The words that buckets do not use.
fn fix(b: &mut [u64], limit: u64, factor: u64, factor_time: u64)
    requires { fixed_words ≤ length b.old }
    ensures { b.new ≡ fixed b.old limit factor factor_time }
{
    b[layout::LIMIT] = limit;
    b[layout::FACTOR] = factor;
    b[layout::FACTOR_TIME] = factor_time;
}

pub fn edit_body(b: &mut [u64], r: usize, size: u64, reading: u64, e: Edit)
    requires { Edits r size reading b.old e }
    ensures { b.new ≡ edited r size reading b.old e }
{
    let then = e.then;
    start(b, r, e);
    act(b, r, size, reading, then);
    fix(b, e.limit, e.factor, e.factor_time);
}
