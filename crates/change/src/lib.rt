// What a call changes, as a value, and the one place where it is carried out: a slot's body is lent here, and nowhere else.
#![tactic(auto)]

ghost use Rattle.std.specs.Prelude.{◌≡◌, ◌+◌, ◌*◌};
ghost use Rattle.parties.specs.Parties.{sent};
ghost use Rattle.change.specs.Words.{with_edit, updated, taken, carried, applied, EditsAt, Applies};

use edit::Edit;
use parties::Caller;

// What a call that is not refused does, besides storing its reading.
#[derive(Clone, Copy)]
pub enum Change {
    Keep,
    Free,
    Update(Edit),
    Take(Edit),
}

// The edit of slot `at`'s body, which is lent.
fn edit_at(w: &mut [u64], at: usize, size: u64, reading: u64, e: Edit)
    requires { EditsAt w.old at size reading e }
    ensures { w.new ≡ with_edit w.old at size reading e }
{
    let r = w[layout::RING] as usize;
    let a = room::start(w, at);
    let z = a + (layout::FIXED + layout::CELL * r);
    edit::edit_body(&mut w[a..z], r, size, reading, e);
}

fn update(w: &mut [u64], at: usize, size: u64, reading: u64, e: Edit)
    requires { EditsAt w.old at size reading e }
    ensures { w.new ≡ updated w.old at size reading e }
{
    edit_at(w, at, size, reading, e);
    room::set_use(w, at, e.used);
}

fn take(w: &mut [u64], at: usize, caller: Caller, key: &[u8], size: u64, reading: u64, e: Edit)
    requires { EditsAt w.old at size reading e }
    ensures { w.new ≡ taken w.old at (sent caller key.now) size reading e }
{
    edit_at(w, at, size, reading, e);
    let k = keys::key_of(parties::mark(caller.party), key);
    room::enter(w, at, e.used, k);
}

fn carry(
    w: &mut [u64],
    at: usize,
    caller: Caller,
    key: &[u8],
    size: u64,
    reading: u64,
    change: Change,
)
    requires { Applies w.old at size reading change }
    ensures { w.new ≡ carried w.old at (sent caller key.now) size reading change }
{
    match change {
        Change::Keep => {}
        Change::Free => {
            room::release(w, at);
        }
        Change::Update(e) => {
            update(w, at, size, reading, e);
        }
        Change::Take(e) => {
            take(w, at, caller, key, size, reading, e);
        }
    }
}

// Carries a change of slot `at` out, and stores the reading. `size` is the bucket size.
pub fn apply(
    w: &mut [u64],
    at: usize,
    caller: Caller,
    key: &[u8],
    size: u64,
    reading: u64,
    change: Change,
)
    requires { Applies w.old at size reading change }
    ensures { w.new ≡ applied w.old at (sent caller key.now) size reading change }
{
    carry(w, at, caller, key, size, reading, change);
    room::store_reading(w, reading);
}
