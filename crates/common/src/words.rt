// A double in a word of the room: its bits.
ghost use Rattle.std.specs.Prelude.{◌≡◌};
ghost use Rattle.std.specs.Float.Ieee as Ieee;
ghost use Rattle.std.specs.Float.{binary64};

// A double's bits. Each NaN has the same ones.
pub fn word_of(x: f64) -> u64
    ensures { result ≡ Ieee.to_bits binary64 x }
{
    std::num::f64_to_bits_with_nan(x)
}

// The double whose bits a word holds: of each NaN's the one NaN.
pub fn double_of(word: u64) -> f64
    ensures { result ≡ Ieee.of_bits binary64 word }
{
    std::num::f64_from_bits_with_nan(word)
}
