// A key in words: who holds it, its length, and four words of eight bytes.
#![tactic(auto)]

ghost use Rattle.std.specs.Prelude.{◌≡◌, ◌+◌, ◌*◌, ◌^◌, ◌<◌, ◌≤◌, length, get_or};
ghost use Rattle.keys.specs.Keys.{pack, key_of, unused_zero};

// A key as the directory has it: the mark of the party that it belongs to, its length, and its bytes in four words, the first one lowest.
#[derive(Clone, Copy)]
pub struct Key {
    pub holder: u64,
    pub len: u64,
    pub a: u64,
    pub b: u64,
    pub c: u64,
    pub d: u64,
}

// Byte `i` of a key.
fn there(key: &[u8], i: usize) -> u64
    requires { i < length key.now }
    ensures { (result ≡ get_or key.now i 0) × (result < 256) }
{
    key[i] as u64
}

// Byte `i` of a key, or 0 past its end.
fn byte(key: &[u8], i: usize) -> u64
    ensures { (result ≡ get_or key.now i 0) × (result < 256) }
{
    key.get(i).map_or(0, |b| u64::from(*b))
}

// Eight bytes that are all there. The form of `some`, and beside it for speed: with no test of an index the compiler reads them at once.
fn eight(key: &[u8], i: usize) -> u64
    requires { (i ≤ 24) × (i + 8 ≤ length key.now) }
    ensures { result ≡ pack key.now i }
{
    there(key, i)
        + 256 * there(key, i + 1)
        + 65536 * there(key, i + 2)
        + 16777216 * there(key, i + 3)
        + 4294967296 * there(key, i + 4)
        + 1099511627776 * there(key, i + 5)
        + 281474976710656 * there(key, i + 6)
        + 72057594037927936 * there(key, i + 7)
}

// Up to eight bytes.
fn some(key: &[u8], i: usize) -> u64
    requires { i ≤ 24 }
    ensures { result ≡ pack key.now i }
{
    byte(key, i)
        + 256 * byte(key, i + 1)
        + 65536 * byte(key, i + 2)
        + 16777216 * byte(key, i + 3)
        + 4294967296 * byte(key, i + 4)
        + 1099511627776 * byte(key, i + 5)
        + 281474976710656 * byte(key, i + 6)
        + 72057594037927936 * byte(key, i + 7)
}

// The last bytes of a key from `i` on, fewer than eight: taken with those before them, which are then shifted out.
fn tail(key: &[u8], i: usize) -> u64
    requires { (i ≤ 24) × (i < length key.now) × (length key.now < i + 8) }
    ensures { result ≡ pack key.now i }
{
    let n = key.len();
    if n < 8 {
        return some(key, i);
    }
    eight(key, n - 8) >> (8 * (i + 8 - n))
}

fn packed(key: &[u8], i: usize) -> u64
    requires { i ≤ 24 }
    ensures { result ≡ pack key.now i }
{
    if key.len() <= i {
        0
    } else if key.len() < i + 8 {
        tail(key, i)
    } else {
        eight(key, i)
    }
}

pub fn key_of(holder: u64, key: &[u8]) -> Key
    ensures { result ≡ key_of holder key.now }
{
    Key {
        holder,
        len: key.len() as u64,
        a: packed(key, 0),
        b: packed(key, 8),
        c: packed(key, 16),
        d: packed(key, 24),
    }
}

// Whether a word with a key's bytes from `i` on is 0 in the bytes that a key of `len` bytes does not have.
pub fn is_unused_zero(len: u64, i: u64, word: u64) -> bool
    ensures { result ≡ unused_zero len i word }
{
    let n = len.saturating_sub(i);
    8 <= n || word < 1 << (8 * n)
}
