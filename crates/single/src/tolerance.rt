// The arithmetic's value: its tolerance.
ghost use Rattle.std.specs.Prelude.{◌≡◌, true, IfOk};
ghost use Rattle.plane.specs.Refusals.{refused};
ghost use Rattle.single.specs.Tolerance.{in_unit, tolerated, walking};

use plane::refusal::Refusal;

/// Single-precision arithmetic with a tolerance from 0 to 1.
#[derive(Clone, Copy)]
pub struct Single {
    tolerance: f32,
    ghost ok: { in_unit tolerance ≡ true },
}

impl Single {
    /// The walk's tolerance, 100·2^-23.
    pub const WALK: f32 = 0.000011920929;

    /// With this tolerance; what is not from 0 to 1 is refused, not-a-number too.
    pub fn new(tolerance: f32) -> Result<Single, Refusal>
        ensures answer { refused result ≡ tolerated tolerance }
        ensures value { IfOk result (λ s. s.tolerance ≡ tolerance) }
    {
        // By two comparisons: of what a range of floats contains the check finds no proof.
        if 0.0 <= tolerance && tolerance <= 1.0 {
            Ok(Single { tolerance })
        } else {
            Err(Refusal::BadTolerance)
        }
    }

    /// With the walk's tolerance.
    pub fn walk() -> Single
        ensures { result.tolerance ≡ walking }
    {
        Single {
            tolerance: Self::WALK,
        }
    }

    /// The tolerance, which is from 0 to 1.
    pub(crate) fn tolerance(self) -> f32
        ensures value { result ≡ self.tolerance }
        ensures range { in_unit result ≡ true }
    {
        self.tolerance
    }
}
