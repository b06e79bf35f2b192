// floor(a * b / c) for any words, with no number past 64 bits: a * b is built by halving b, and held as a multiple of
// c and a part below c.
#![tactic(auto)]

ghost use Rattle.std.specs.Prelude.{◌≡◌, ◌*◌, ◌+◌, ◌<◌};
ghost use Rattle.share.specs.Share.{mul_div, value, Comes, Carried, Parts, Halved, Twice};

// The number whole * c + part.
#[derive(Clone, Copy, Debug, PartialEq, Eq, Hash)]
pub struct Share {
    pub whole: u64,
    pub part: u64,
}

// a + b + carry beside a part, where a word holds it.
fn carried(a: u64, b: u64, carry: u64, part: u64) -> Option<Share>
    ensures { Carried a b carry part result }
{
    let whole = a.checked_add(b)?.checked_add(carry)?;
    Some(Share { whole, part })
}

// x + y: the parts make a whole where the second does not fit above the first.
fn add(x: Share, y: Share, c: u64) -> Option<Share>
    requires { Parts c x y }
    ensures { Comes c (value c x + value c y) result }
{
    let part = x.part;
    let other = y.part;
    let space = c - other;
    if part < space {
        return carried(x.whole, y.whole, 0, part + other);
    }
    carried(x.whole, y.whole, 1, part - space)
}

// The unit taken n times, from twice the half of n: where n is odd, one more.
fn topped(even: Share, unit: Share, n: u64, c: u64) -> Option<Share>
    requires { Twice c n unit even }
    ensures { Comes c (value c unit * n) result }
{
    if n % 2 == 0 {
        return Some(even);
    }
    add(even, unit, c)
}

// The unit taken n times, from half as many.
fn doubled(half: Share, unit: Share, n: u64, c: u64) -> Option<Share>
    requires { Halved c n unit half }
    ensures { Comes c (value c unit * n) result }
{
    topped(add(half, half, c)?, unit, n, c)
}

// The unit taken n times.
fn times(unit: Share, n: u64, c: u64) -> Option<Share>
    requires { unit.part < c }
    ensures { Comes c (value c unit * n) result }
{
    if n == 0 {
        return Some(Share { whole: 0, part: 0 });
    }
    doubled(times(unit, n / 2, c)?, unit, n, c)
}

// floor(a * b / c), at most the largest word; 0 where c is 0.
pub fn mul_div(a: u64, b: u64, c: u64) -> u64
    ensures { result ≡ mul_div a b c }
{
    if c == 0 {
        return 0;
    }
    let unit = Share {
        whole: a / c,
        part: a % c,
    };
    match times(unit, b, c) {
        Some(share) => share.whole,
        None => u64::MAX,
    }
}
