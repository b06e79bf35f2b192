// Where each word of a room stands, and which numbers the words may be. A room is a header, an entry for each slot, and a
// body for each slot. The header says who holds each slot: a word of 64 bits for each of the two parties.
#![tactic(auto)]

// The header's words, and how many.
pub const SLOTS: usize = 0;

pub const RING: usize = 1;

pub const LAST: usize = 2;

// Bit `s` of the first is set where party 1 holds slot `s`, and of the second where party 2 does.
pub const FIRSTS: usize = 3;

pub const SECONDS: usize = 4;

pub const HEADER: usize = 5;

// Who holds a slot, its two bits as a number, since they are words of the room (docs/WORDS.md): nobody's slots are free, and where both are set the slot is
// neither party's.
pub const NOBODY: u64 = 0;

pub const FIRST: u64 = 1;

pub const SECOND: u64 = 2;

// A directory entry's words behind the use, which is its first, and how many with it.
pub const KEY_LEN: usize = 1;

pub const KEY_A: usize = 2;

pub const KEY_B: usize = 3;

pub const KEY_C: usize = 4;

pub const KEY_D: usize = 5;

pub const ENTRY: usize = 6;

// A slot's use, a word of the room too.
pub const SERIES: u64 = 1;

pub const CACHED: u64 = 2;

pub const BOTH: u64 = 3;

// A body's words before its cells, and how many.
pub const LIMIT: usize = 0;

pub const TOTAL: usize = 1;

pub const DECLINED: usize = 2;

pub const HEAD: usize = 3;

pub const LEN: usize = 4;

pub const FACTOR: usize = 5;

pub const FACTOR_TIME: usize = 6;

pub const FIXED: usize = 7;

// A bucket's words: its count, its declined and its time. A ring of r has r counts, then r declined, then r times.
pub const CELL: usize = 3;

// The most slots, the longest ring, the longest key, and the largest total, 2^53.
pub const MOST_SLOTS: u64 = 64;

pub const MOST_RING: u64 = 512;

pub const LONGEST_KEY: u64 = 32;

pub const MOST_TOTAL: u64 = 9007199254740992;
