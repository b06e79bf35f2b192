// A set that preserves a key's history: a surplus goes to the kept end, a shortage comes out at the other.
#![tactic(auto)]

ghost use Rattle.std.specs.Prelude.{◌≡◌, ◌-◌, ◌<◌};
ghost use Rattle.ring.specs.Ring.{Shape};
ghost use Rattle.rules.specs.Buckets.{kept_end};
ghost use Rattle.history.specs.Words.{Sets};
ghost use Rattle.preserve.specs.Preserving.{Grows, grown_words, lost_at, Walked, out_words, Parts, part_words, Shrinks, shrunk_words, preserved_words};
ghost use Rattle.preserve.specs.Preserves.{OutLeaves};

use answers::HistoryPreservation;

// What a shortage takes: whole buckets, then `rest` of the next one; `declined` is the total without the whole ones.
#[derive(Clone, Copy)]
struct Cut {
    pub whole: usize,
    pub rest: u64,
    pub declined: u64,
}

// Of `n` buckets, the one that a surplus goes to.
fn kept_end(p: HistoryPreservation, n: usize) -> usize
    requires { 0 < n }
    ensures { result ≡ kept_end p n }
{
    match p {
        HistoryPreservation::PreserveNewest => n - 1,
        HistoryPreservation::PreserveOldest => 0,
    }
}

// A surplus.
fn grow(b: &mut [u64], r: usize, p: HistoryPreservation, reading: u64, surplus: u64)
    requires { Grows r b.old reading surplus }
    ensures { b.new ≡ grown_words p r b.old reading surplus }
{
    let n = ring::len(b, r);
    if n == 0 {
        ring::push(b, r, surplus, 0, reading);
    } else {
        history::raise(b, r, kept_end(p, n), surplus, 0);
    }
}

// Where the `k`th of `n` buckets stands, from the end that a shortage is taken from.
fn lost(p: HistoryPreservation, n: usize, k: usize) -> usize
    requires { k < n }
    ensures { (result ≡ lost_at p n k) × (result < n) }
{
    match p {
        HistoryPreservation::PreserveNewest => k,
        HistoryPreservation::PreserveOldest => n - 1 - k,
    }
}

// What a shortage of `m` takes. Only the buckets that go are read, and the next.
fn walk(b: &[u64], r: usize, p: HistoryPreservation, m: u64) -> Cut
    requires { Shape r b.now }
    ensures { Walked p r b.now m result }
{
    let n = ring::len(b, r);
    let mut rest = m;
    let mut declined = b[layout::DECLINED];
    for k in 0..n {
        if rest == 0 {
            return Cut {
                whole: k,
                rest,
                declined,
            };
        }
        let x = ring::nth(b, r, lost(p, n, k));
        if rest < x.count {
            return Cut {
                whole: k,
                rest,
                declined,
            };
        }
        rest -= x.count;
        declined = declined.saturating_sub(x.declined);
    }
    Cut {
        whole: n,
        rest,
        declined,
    }
}

// `k` buckets out at that end.
fn take_out(b: &mut [u64], r: usize, p: HistoryPreservation, k: usize, total: u64, declined: u64)
    requires { OutLeaves p r b.old k total declined }
    ensures { b.new ≡ out_words p r b.old k }
{
    match p {
        HistoryPreservation::PreserveNewest => ring::evict(b, r, k, total, declined),
        HistoryPreservation::PreserveOldest => ring::trim(b, r, k, total, declined),
    }
}

// `q` of the next bucket's count go.
fn part(b: &mut [u64], r: usize, p: HistoryPreservation, reading: u64, q: u64)
    requires { Parts p r b.old reading q }
    ensures { b.new ≡ part_words p r b.old q }
{
    let n = ring::len(b, r);
    let i = lost(p, n, 0);
    let x = ring::nth(b, r, i);
    let retained = x.count - q;
    let kept = share::mul_div(x.declined, retained, x.count);
    ring::rewrite(b, r, i, retained, kept);
}

// A shortage of `m`.
fn shrink(b: &mut [u64], r: usize, p: HistoryPreservation, reading: u64, m: u64)
    requires { Shrinks r b.old reading m }
    ensures { b.new ≡ shrunk_words p r b.old m }
{
    let total = b[layout::TOTAL];
    let x = walk(b, r, p, m);
    take_out(b, r, p, x.whole, total - (m - x.rest), x.declined);
    if x.rest != 0 {
        part(b, r, p, reading, x.rest);
    }
}

// Makes the live buckets count `n`, keeping the end that is to be preserved.
pub fn preserve(b: &mut [u64], r: usize, p: HistoryPreservation, reading: u64, n: u64)
    requires { Sets r b.old reading n }
    ensures { b.new ≡ preserved_words p r b.old reading n }
{
    let total = b[layout::TOTAL];
    if total < n {
        grow(b, r, p, reading, n - total);
    } else {
        shrink(b, r, p, reading, total - n);
    }
}
