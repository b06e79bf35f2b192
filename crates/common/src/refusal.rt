// Why a call is turned away. A refusal is known by its number, as in C and in a line of `desk`; whoever adds one adds a name here.
ghost use Rattle.std.specs.Prelude.{◌≡◌, Some};
ghost use Rattle.common.specs.Refusals.{refusal_text, ruled};

use std::error::Error;
use std::fmt;

// A struct and no enum: promises speak of any number, and any number may be handed over.
#[derive(Clone, Copy, Debug, PartialEq, Eq, Hash)]
pub struct Refusal(pub u64);

impl Refusal {
    pub const BAD_WINDOW: Refusal = Refusal(1);

    pub const BAD_BUCKET: Refusal = Refusal(2);

    pub const BAD_CACHE: Refusal = Refusal(3);

    pub const BAD_FACTOR: Refusal = Refusal(4);

    pub const BAD_ROOM: Refusal = Refusal(5);

    pub const CLOCK_WENT_BACK: Refusal = Refusal(6);

    pub const LONG_KEY: Refusal = Refusal(7);

    pub const BAD_RATE: Refusal = Refusal(8);

    pub const BAD_DRAW: Refusal = Refusal(9);

    pub const TOTAL_TOO_LARGE: Refusal = Refusal(10);

    pub const NO_FREE_SLOT: Refusal = Refusal(11);

    pub const RING_FULL: Refusal = Refusal(12);

    pub const NO_CALL: Refusal = Refusal(14);

    pub const BAD_PARTY: Refusal = Refusal(15);

    pub const BAD_PROMISE: Refusal = Refusal(16);

    pub const BAD_NUMBER: Refusal = Refusal(19);

    pub const OLD_NUMBER: Refusal = Refusal(20);

    pub const TABLE_FULL: Refusal = Refusal(21);

    pub fn number(self) -> u64
        ensures { result ≡ self.0 }
    {
        self.0
    }

    // What judging a number that is worked out comes to: 0 turns nothing away.
    pub fn ruled(number: u64) -> Result<(), Refusal>
        ensures { result ≡ ruled number }
    {
        if number == 0 {
            return Ok(());
        }
        Err(Refusal(number))
    }
}

impl fmt::Display for Refusal {
    ghost output = { λ r. Some (refusal_text r.0) };

    fn fmt<W: fmt::Write>(&self, f: &mut fmt::Formatter<W>) -> fmt::Result {
        f.write_str(match self.0 {
            1 => "window out of its range",
            2 => "bucket out of its range",
            3 => "cache period out of its range",
            4 => "factor not finite, or below 1",
            5 => "room or table of wrong lengths, or unsound",
            6 => "reading below that of an earlier call",
            7 => "key over 32 bytes",
            8 => "rate out of its range",
            9 => "draw over 2^53 - 1",
            10 => "total would pass 2^53",
            11 => "no slot left of those promised",
            12 => "ring full",
            14 => "names no call",
            15 => "neither party",
            16 => "promises pass the slots",
            19 => "number of a shot out of its range",
            20 => "number of a shot below the last",
            21 => "table full",
            n => return write!(f, "refusal {n}"),
        })
    }
}

impl Error for Refusal {}
