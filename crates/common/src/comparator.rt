// The guard of a set against a key's live total. Each number is what the total is compared with.
ghost use Rattle.std.specs.Prelude.{◌≡◌};
ghost use Rattle.common.specs.Comparator.{matches};

#[derive(Clone, Copy, Debug, PartialEq, Eq, Hash)]
pub enum RateLimitComparator {
    Eq(u64),
    Lt(u64),
    Gt(u64),
    Ne(u64),
    Always,
}

impl RateLimitComparator {
    pub fn matches(self, current: u64) -> bool
        ensures { result ≡ matches self current }
    {
        match self {
            RateLimitComparator::Eq(operand) => current == operand,
            RateLimitComparator::Lt(operand) => current < operand,
            RateLimitComparator::Gt(operand) => current > operand,
            RateLimitComparator::Ne(operand) => current != operand,
            RateLimitComparator::Always => true,
        }
    }
}
