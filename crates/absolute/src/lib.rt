// The absolute limiter whole: its own calls, and as a `Limiter` those that both limiters have.
#![tactic(auto)]

ghost use Rattle.rules.specs.declared.RoomKind.TheVariants as Kind;

pub use absolute_inc::inc;
pub use absolute_reads::{get, is_allowed};
use limiter::Limiter;
use rules::RoomKind;

pub struct Absolute;

impl Limiter for Absolute {
    ghost KIND = { Kind.Absolute };

    const KIND: RoomKind = RoomKind::Absolute;
}
