// A key's buckets judged with no branch on what they say: where this finds them sound they are. Many of them go through a loop that the
// compiler turns into vector code.
#![tactic(auto)]

ghost use Rattle.std.specs.Prelude.{◌≡◌, false, ◌+◌, ◌<◌, ◌≤◌, length};
ghost use Rattle.ring.specs.Ring.{wrap, buckets, Shape};
ghost use Rattle.quick.specs.Quick.{minus, plus, full_turn, plain_turn, turn_of, run_of, rows, cells, plainly, met_of, shown};

use ring::Bucket;

// 2^54: the sums of 512 words below it do not wrap.
const SMALL: u64 = 1 << 54;

// 2^63: an oldest time below it leaves 512 gaps of 2^54 to come.
const EARLY: u64 = 1 << 63;

// Up to so many buckets a walk from one to the next is the quicker pass.
const FEW: usize = 24;

// What a pass carries: the last time, the sums of what was admitted and of what was declined, and the bits of all that must be small.
#[derive(Clone, Copy)]
pub struct Acc {
    pub lo: u64,
    pub kept: u64,
    pub declined: u64,
    pub bits: u64,
}

// The difference, as a word.
fn minus(a: u64, b: u64) -> u64
    ensures { result ≡ minus a b }
{
    a.wrapping_sub(b)
}

// The sum, as a word.
fn plus(a: u64, b: u64) -> u64
    ensures { result ≡ plus a b }
{
    a.wrapping_add(b)
}

// One bucket further, where each declined is taken for 0 and their bits are kept apart.
fn plain_turn(a: Acc, x: Bucket) -> Acc
    ensures { result ≡ plain_turn a x }
{
    Acc {
        lo: x.time,
        kept: plus(a.kept, x.count),
        declined: a.declined | x.declined,
        bits: a.bits | x.count | minus(x.time, a.lo),
    }
}

// One bucket further.
fn full_turn(a: Acc, x: Bucket) -> Acc
    ensures { result ≡ full_turn a x }
{
    let e = minus(x.count, x.declined);
    Acc {
        lo: x.time,
        kept: plus(a.kept, e),
        declined: plus(a.declined, x.declined),
        bits: a.bits | x.declined | e | minus(x.time, a.lo),
    }
}

fn turn(plain: bool, a: Acc, x: Bucket) -> Acc
    ensures { result ≡ turn_of plain a x }
{
    if plain {
        plain_turn(a, x)
    } else {
        full_turn(a, x)
    }
}

// All of three lists. The compiler makes two loops of it, one for each kind of turn.
fn run<'a>(plain: bool, cs: &'a [u64], ds: &'a [u64], ts: &'a [u64], a0: Acc) -> Acc
    requires { (length ds.now ≡ length cs.now) × (length ts.now ≡ length cs.now) }
    ensures { result ≡ run_of plain a0 (rows cs.now ds.now ts.now) }
{
    let mut a = a0;
    for k in 0..cs.len() {
        let x = Bucket {
            count: cs[k],
            declined: ds[k],
            time: ts[k],
        };
        a = turn(plain, a, x);
    }
    a
}

// `m` cells from place `j` on.
fn part(plain: bool, b: &[u64], r: usize, j: usize, m: usize, a: Acc) -> Acc
    requires { Shape r b.now × (j + m ≤ r) }
    ensures { result ≡ run_of plain a (cells r b.now j m) }
{
    let c0 = layout::FIXED + j;
    let c1 = c0 + m;
    let d0 = c0 + r;
    let d1 = d0 + m;
    let t0 = d0 + r;
    let t1 = t0 + m;
    run(plain, &b[c0..c1], &b[d0..d1], &b[t0..t1], a)
}

// The two parts of a ring, behind the head and before it.
fn both_parts(plain: bool, b: &[u64], r: usize, a: Acc) -> Acc
    requires { Shape r b.now }
    ensures { result ≡ run_of plain a (buckets r b.now) }
{
    let n = ring::len(b, r);
    let h = b[layout::HEAD] as usize;
    let m = n.min(r - h);
    let y = part(plain, b, r, h, m, a);
    part(plain, b, r, 0, n - m, y)
}

// The place after `j`.
pub fn next(r: usize, j: usize) -> usize
    requires { j < r }
    ensures { result ≡ wrap r (j + 1) }
{
    if j + 1 < r { j + 1 } else { 0 }
}

// From one bucket to the next.
fn walk(b: &[u64], r: usize, a0: Acc) -> Acc
    requires { Shape r b.now }
    ensures { result ≡ run_of false a0 (buckets r b.now) }
{
    let n = ring::len(b, r);
    let mut a = a0;
    let mut j = b[layout::HEAD] as usize;
    for k in 0..n {
        a = full_turn(a, ring::at(b, r, j));
        j = next(r, j);
    }
    a
}

// All buckets, oldest first.
fn over(b: &[u64], r: usize, a: Acc) -> Acc
    requires { Shape r b.now }
    ensures { result ≡ run_of (plainly b.now) a (buckets r b.now) }
{
    if ring::len(b, r) <= FEW {
        walk(b, r, a)
    } else {
        both_parts(b[layout::DECLINED] == 0, b, r, a)
    }
}

// Whether a pass shows that all is sound.
fn met(a: Acc, first: u64, last: u64, total: u64, declined: u64) -> bool
    ensures { result ≡ met_of a first last total declined }
{
    a.bits < SMALL
        && first < EARLY
        && a.lo <= last
        && plus(a.kept, a.declined) == total
        && a.declined == declined
        && total <= layout::MOST_TOTAL
}

// Whether a pass shows that a key's buckets are sound. Where it does not they may be so all the same: a gap of 2^54 is.
pub fn shows_sound(b: &[u64], r: usize, last: u64) -> bool
    requires { Shape r b.now }
    ensures { result ≡ shown r b.now last }
{
    let h = b[layout::HEAD] as usize;
    let first = b[layout::FIXED + h + r + r];
    let a = Acc {
        lo: first,
        kept: 0,
        declined: 0,
        bits: 0,
    };
    met(
        over(b, r, a),
        first,
        last,
        b[layout::TOTAL],
        b[layout::DECLINED],
    )
}
