// A lent room: its lengths, its directory, and where a slot's body starts. What a body holds is not known here.
#![tactic(auto)]

ghost use Rattle.std.specs.Prelude.{◌≡◌, ◌+◌, ◌*◌, ◌<◌, ◌≤◌, length, replicate};
ghost use Rattle.base.specs.Decides.{Decides};
ghost use Rattle.base.specs.Bits.{bit_at, with_bit};
ghost use Rattle.keys.specs.Keys.{same_key};
ghost use Rattle.room.specs.Room.{Room, Directory, Lengths, length_of, Made, Starts, slots_of, use_of, holder_of, used_at, key_at};
ghost use Rattle.room.specs.Room.{key_sound, spells, has, find, vacant, held, entered, with_use, released, released_own};
ghost use Rattle.room.specs.Room.{with_reading, cleared};

use common::Refusal;
use keys::Key;

// How many words a room of so many slots and this ring has.
fn words(slots: usize, ring: usize) -> usize
    requires { (slots ≤ 64) × (ring ≤ 512) }
    ensures { result ≡ length_of slots ring }
{
    layout::HEADER + layout::ENTRY * slots + slots * (layout::FIXED + layout::CELL * ring)
}

// Whether a room of these slots and ring has `len` words.
fn fits(slots: u64, ring: u64, len: usize) -> bool
    ensures { Decides result (Lengths slots ring len) }
{
    1 <= slots
        && slots <= layout::MOST_SLOTS
        && 1 <= ring
        && ring <= layout::MOST_RING
        && len == words(slots as usize, ring as usize)
}

// Whether the words are as many as the header says.
pub fn sized(w: &[u64]) -> bool
    ensures { Decides result (Room w.now) }
{
    layout::HEADER <= w.len() && fits(w[layout::SLOTS], w[layout::RING], w.len())
}

// Sets every word to 0.
pub fn zero(w: &mut [u64])
    ensures { w.new ≡ replicate (length w.old) 0 }
{
    w.fill(0);
}

// Makes an empty room of the lent words, or says that they do not fit and leaves them.
pub fn make(w: &mut [u64], slots: u64, ring: u64) -> Result<(), Refusal>
    ensures { Made slots ring w.old result w.new }
{
    if !fits(slots, ring, w.len()) {
        return Err(Refusal::BAD_ROOM);
    }
    zero(w);
    w[layout::SLOTS] = slots;
    w[layout::RING] = ring;
    Ok(())
}

// Where slot `s`'s body starts.
pub fn start(w: &[u64], s: usize) -> usize
    requires { Room w.now × (s < slots_of w.now) }
    ensures { Starts w.now s result }
{
    let slots = w[layout::SLOTS] as usize;
    let r = w[layout::RING] as usize;
    layout::HEADER + layout::ENTRY * slots + s * (layout::FIXED + layout::CELL * r)
}

// Bit `s` of a word.
fn bit(x: u64, s: usize) -> u64
    requires { s < 64 }
    ensures { (result ≡ bit_at x s) × (result < 2) }
{
    (x >> s) % 2
}

// The word with `b` in the place of bit `s`.
fn with_bit(x: u64, s: usize, b: u64) -> u64
    requires { (s < 64) × (b < 2) }
    ensures { result ≡ with_bit x s b }
{
    x - (bit(x, s) << s) + (b << s)
}

// Who holds slot `slot`: nobody where it is free.
pub fn holder_of(w: &[u64], slot: usize) -> u64
    requires { Directory w.now × (slot < slots_of w.now) }
    ensures { result ≡ holder_of w.now slot }
{
    bit(w[layout::FIRSTS], slot) + 2 * bit(w[layout::SECONDS], slot)
}

// Writes who holds slot `s`.
fn hold(w: &mut [u64], s: usize, m: u64)
    requires { Directory w.old × (s < slots_of w.old) }
    ensures { w.new ≡ held w.old s m }
{
    let firsts = with_bit(w[layout::FIRSTS], s, m % 2);
    let seconds = with_bit(w[layout::SECONDS], s, m / 2 % 2);
    w[layout::FIRSTS] = firsts;
    w[layout::SECONDS] = seconds;
}

// The key in entry `s`.
pub fn key_at(w: &[u64], s: usize) -> Key
    requires { Directory w.now × (s < slots_of w.now) }
    ensures { result ≡ key_at w.now s }
{
    let e = layout::HEADER + layout::ENTRY * s;
    Key {
        holder: holder_of(w, s),
        len: w[e + layout::KEY_LEN],
        a: w[e + layout::KEY_A],
        b: w[e + layout::KEY_B],
        c: w[e + layout::KEY_C],
        d: w[e + layout::KEY_D],
    }
}

// Whether slot `s`'s key has at most 32 bytes and the rest of its words is 0.
pub fn key_fits(w: &[u64], s: usize) -> bool
    requires { Directory w.now × (s < slots_of w.now) }
    ensures { result ≡ key_sound w.now s }
{
    let k = key_at(w, s);
    k.len <= layout::LONGEST_KEY
        && keys::is_unused_zero(k.len, 0, k.a)
        && keys::is_unused_zero(k.len, 8, k.b)
        && keys::is_unused_zero(k.len, 16, k.c)
        && keys::is_unused_zero(k.len, 24, k.d)
}

// Slot `slot`'s use.
pub fn use_of(w: &[u64], slot: usize) -> u64
    requires { Directory w.now × (slot < slots_of w.now) }
    ensures { result ≡ use_of w.now slot }
{
    w[layout::HEADER + layout::ENTRY * slot]
}

// Slot `slot`'s use, 0 where it is free.
pub fn used_at(w: &[u64], slot: usize) -> u64
    requires { Directory w.now × (slot < slots_of w.now) }
    ensures { result ≡ used_at w.now slot }
{
    if holder_of(w, slot) == layout::NOBODY {
        0
    } else {
        use_of(w, slot)
    }
}

// Whether entry `s` has the bytes of key `k`, whoever holds it.
fn spells(w: &[u64], k: Key, s: usize) -> bool
    requires { Directory w.now × (s < slots_of w.now) }
    ensures { result ≡ spells w.now k s }
{
    let e = layout::HEADER + layout::ENTRY * s;
    w[e + layout::KEY_LEN] == k.len
        && w[e + layout::KEY_A] == k.a
        && w[e + layout::KEY_B] == k.b
        && w[e + layout::KEY_C] == k.c
        && w[e + layout::KEY_D] == k.d
}

// Whether entry `s` has key `k`. Who holds it is looked at last: few entries have the bytes.
pub fn is_key_at(w: &[u64], k: Key, s: usize) -> bool
    requires { Directory w.now × (s < slots_of w.now) }
    ensures { result ≡ same_key (key_at w.now s) k }
{
    spells(w, k, s) && holder_of(w, s) == k.holder
}

// Whether slot `s` is in use with key `k`.
fn holds(w: &[u64], k: Key, s: usize) -> bool
    requires { Directory w.now × (s < slots_of w.now) }
    ensures { result ≡ has w.now k s }
{
    is_key_at(w, k, s) && holder_of(w, s) != layout::NOBODY
}

// The lowest slot with key `k`, or the number of slots.
pub fn find(w: &[u64], k: Key) -> usize
    requires { Directory w.now }
    ensures { result ≡ find w.now k }
{
    let n = w[layout::SLOTS] as usize;
    for slot in 0..n {
        if holds(w, k, slot) {
            return slot;
        }
    }
    n
}

// The lowest free slot, or the number of slots.
pub fn vacant(w: &[u64]) -> usize
    requires { Directory w.now }
    ensures { result ≡ vacant w.now }
{
    let n = w[layout::SLOTS] as usize;
    for spare in 0..n {
        if holder_of(w, spare) == layout::NOBODY {
            return spare;
        }
    }
    n
}

// Writes slot `s`'s entry: its use and its key, with who holds it.
pub fn enter(w: &mut [u64], s: usize, u: u64, k: Key)
    requires { Directory w.old × (s < slots_of w.old) }
    ensures { w.new ≡ entered w.old s u k }
{
    hold(w, s, k.holder);
    let e = layout::HEADER + layout::ENTRY * s;
    w[e] = u;
    w[e + layout::KEY_LEN] = k.len;
    w[e + layout::KEY_A] = k.a;
    w[e + layout::KEY_B] = k.b;
    w[e + layout::KEY_C] = k.c;
    w[e + layout::KEY_D] = k.d;
}

// Writes slot `s`'s use alone.
pub fn set_use(w: &mut [u64], s: usize, u: u64)
    requires { Directory w.old × (s < slots_of w.old) }
    ensures { w.new ≡ with_use w.old s u }
{
    w[layout::HEADER + layout::ENTRY * s] = u;
}

// Frees slot `s`: nobody holds it.
pub fn release(w: &mut [u64], s: usize)
    requires { Directory w.old × (s < slots_of w.old) }
    ensures { w.new ≡ released w.old s }
{
    hold(w, s, layout::NOBODY);
}

// Frees slot `s` where `holder` holds it.
fn release_own(w: &mut [u64], s: usize, holder: u64)
    requires { Directory w.old × (s < slots_of w.old) }
    ensures { w.new ≡ released_own w.old s holder }
{
    if holder_of(w, s) == holder {
        release(w, s);
    }
}

// Writes the last reading.
pub fn store_reading(w: &mut [u64], t: u64)
    requires { Directory w.old }
    ensures { w.new ≡ with_reading w.old t }
{
    w[layout::LAST] = t;
}

// Frees every slot that `holder` holds, and changes no other word.
pub fn clear(w: &mut [u64], holder: u64)
    requires { Directory w.old }
    ensures { w.new ≡ cleared w.old holder }
{
    let n = w[layout::SLOTS] as usize;
    for s in 0..n {
        release_own(w, s, holder);
    }
}
