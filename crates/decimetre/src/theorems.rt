// What the answers of the exact arithmetic say of the plane.
ghost use Rattle.decimetre.specs.Plane.{EverySide, EveryCrossing, EveryMeeting, EveryShared, EveryRound};

/// The laws above the formulas: a side is the sign of the doubled area; a crossing's two marks are one point of the plane,
/// of edges that are not parallel; such edges that share a point cross, and there; the inside test's rule is half open.
// The lemmas are handed over by an answer, and not named here by `using`: so named, `shared_crosses` is not found to apply.
pub fn plane_stands()
    ensures side { EverySide }
    ensures crossing { EveryCrossing }
    ensures meeting { EveryMeeting }
    ensures shared { EveryShared }
    ensures round { EveryRound }
{}
