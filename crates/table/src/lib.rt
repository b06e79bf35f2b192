// A gateway's table in lent words: judging it, finding a controller, and remembering a number. Header and entries stand as in a room; nobody
// holds an entry, since a controller is known by its bytes alone.
#![tactic(auto)]

ghost use Rattle.std.specs.Prelude.{◌≡◌, ◌+◌, ◌≤◌, ◌<◌, set};
ghost use Rattle.base.specs.Decides.{Decides};
ghost use Rattle.layout.specs.Layout.{slots_word};
ghost use Rattle.room.specs.Room.{entered};
ghost use Rattle.table.specs.Table.{Table, TableMade, Stands, most_controllers, known_of, entry_from, entry_for, numbered, once};
ghost use Rattle.table.specs.Table.{looked, remembered};

use common::Refusal;
use keys::Key;

pub const MOST_CONTROLLERS: usize = layout::MOST_SLOTS as usize;

const MOST_NUMBER: u64 = u32::MAX as u64;

const WORDS: usize = layout::HEADER + layout::ENTRY * MOST_CONTROLLERS;

const LONGEST_KEY: usize = layout::LONGEST_KEY as usize;

// A controller's entry and its last number: the number of entries and 0 where it is not known.
#[derive(Clone, Copy)]
pub struct Looked {
    pub at: usize,
    pub last: u64,
}

// Whether the words are a table.
pub fn sized(w: &[u64]) -> bool
    ensures { Decides result (Table w.now) }
{
    w.len() == WORDS
        && w[layout::SLOTS] <= layout::MOST_SLOTS
        && w[layout::RING] == 0
        && w[layout::LAST] == 0
}

// Makes an empty table of the lent words, or says that they do not fit and leaves them.
pub fn make(w: &mut [u64]) -> Result<(), Refusal>
    ensures { TableMade w.old result w.new }
{
    if w.len() != WORDS {
        return Err(Refusal::BAD_ROOM);
    }
    room::zero(w);
    Ok(())
}

// The lowest entry with key `k` from `from` on, or the number of entries.
fn entry_from(w: &[u64], k: Key, from: usize) -> usize
    requires { Table w.now × (from ≤ known_of w.now) }
    ensures { result ≡ entry_from w.now k from }
{
    let known = w[layout::SLOTS] as usize;
    for i in from..known {
        if room::is_key_at(w, k, i) {
            return i;
        }
    }
    known
}

// The controller's entry, or the number of entries.
fn entry_for(w: &[u64], key: &[u8]) -> usize
    requires { Table w.now }
    ensures { result ≡ entry_for w.now key.now }
{
    if LONGEST_KEY < key.len() {
        return w[layout::SLOTS] as usize;
    }
    entry_from(w, keys::key_of(layout::NOBODY, key), 0)
}

// Whether a shot can have this number.
pub fn is_number(number: u64) -> bool
    ensures { result ≡ numbered number }
{
    1 <= number && number <= MOST_NUMBER
}

// Whether entry `at`'s number is in range, and no entry behind it has its key.
fn once(w: &[u64], at: usize) -> bool
    requires { Table w.now × (at < known_of w.now) }
    ensures { result ≡ once w.now at }
{
    let known = w[layout::SLOTS] as usize;
    is_number(room::use_of(w, at)) && entry_from(w, room::key_at(w, at), at + 1) == known
}

// Judges the table, and looks the controller up: nothing where it is unsound. The key of an entry found is the one that was looked for, so it is not judged.
pub fn look(w: &[u64], key: &[u8]) -> Option<Looked>
    ensures { result ≡ looked w.now key.now }
{
    if !sized(w) {
        return None;
    }
    let at = entry_for(w, key);
    if w[layout::SLOTS] as usize <= at {
        return Some(Looked { at, last: 0 });
    }
    if !once(w, at) {
        return None;
    }
    Some(Looked {
        at,
        last: room::use_of(w, at),
    })
}

// Enters a controller behind the others.
fn enter(w: &mut [u64], k: Key, number: u64)
    requires { Table w.old × (known_of w.old < most_controllers) }
    ensures { w.new ≡ entered (set w.old slots_word (known_of w.old + 1)) (known_of w.old) number k }
{
    let known = w[layout::SLOTS];
    w[layout::SLOTS] = known + 1;
    room::enter(w, known as usize, number, k);
}

// Writes a controller's number; `at` is what `look` has found.
pub fn remember(w: &mut [u64], key: &[u8], at: usize, number: u64)
    requires { Stands w.old key.now at }
    ensures { w.new ≡ remembered w.old key.now number }
{
    if at < w[layout::SLOTS] as usize {
        room::set_use(w, at, number);
    } else {
        enter(w, keys::key_of(layout::NOBODY, key), number);
    }
}
