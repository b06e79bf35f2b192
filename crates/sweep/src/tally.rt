// What the pass over a key's buckets carries and finds.

// What a sweep has met so far: the last time, and what the totals (`left` of the counts, `spare` of the declined) have left.
#[derive(Clone, Copy)]
pub struct Tally {
    pub lo: u64,
    pub left: u64,
    pub spare: u64,
}

// The oldest buckets that go: how many, and the totals without them.
#[derive(Clone, Copy)]
pub struct Gone {
    pub buckets: usize,
    pub total: u64,
    pub declined: u64,
}

// Of a bucket what a rejection and a first look ask for.
#[derive(Clone, Copy)]
pub struct Mark {
    pub count: u64,
    pub time: u64,
}

// What a pass finds at a look: `expired` is how many go, `oldest` the oldest that is left, `eldest` the oldest of all. Where the buckets are
// not sound, all is zero.
#[derive(Clone, Copy)]
pub struct Pass {
    pub sound: bool,
    pub buckets: usize,
    pub expired: usize,
    pub live_total: u64,
    pub live_declined: u64,
    pub newest_time: u64,
    pub oldest: Mark,
    pub eldest: Mark,
}
