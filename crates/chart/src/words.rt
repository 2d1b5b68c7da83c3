// The words that tell a chart. They are numbers, since the size of the lent table is counted in words of 32 bits: a chain, a side and a flag are such words.
ghost use Rattle.std.specs.Prelude.{◌≡◌};
ghost use Rattle.chart.specs.Words.{side_word};

use plane::ring::Ring;

/// The end of a chain.
pub const NONE: u32 = 0xffff_ffff;

/// The word for a leaving side.
pub fn side_word(ring: Ring) -> u32
    ensures { result ≡ side_word ring }
{
    match ring {
        Ring::One => 1,
        Ring::Two => 2,
    }
}
