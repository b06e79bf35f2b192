// The suppressed limiter whole: its own calls, and as a `Limiter` those that both limiters have.
#![tactic(auto)]

ghost use Rattle.rules.specs.declared.RoomKind.TheVariants as Kind;

use limiter::Limiter;
use rules::RoomKind;
pub use suppressed_inc::inc;
pub use suppressed_reads::{get, get_suppression_factor};

pub struct Suppressed;

impl Limiter for Suppressed {
    ghost KIND = { Kind.Suppressed };

    const KIND: RoomKind = RoomKind::Suppressed;
}
