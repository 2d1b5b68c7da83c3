// Whole corners in single precision.
#![tactic(auto)]

ghost use Rattle.whole.specs.Exact.{WalkSlight, ExactSide, ExactTurn, ExactAgainst, ExactParallel, ExactCrossing, ExactBetween, ExactMeet, ExactPassed, ExactInside};

/// On whole corners within 1,024 of the origin, at a tolerance from 0 to below 1, single precision answers as whole numbers do.
pub fn whole_is_exact()
    ensures slight { WalkSlight }
    ensures side { ExactSide }
    ensures turn { ExactTurn }
    ensures against { ExactAgainst }
    ensures parallel { ExactParallel }
    ensures crossing { ExactCrossing }
    ensures between { ExactBetween }
    ensures meet { ExactMeet }
    ensures passed { ExactPassed }
    ensures inside { ExactInside }
{}
