// Facts on single precision: what its numbers are, and what its operations and comparisons give.
#![tactic(auto)]

ghost use Rattle.floats.specs.Bounds.{SumBounded, DifferenceBounded, ProductBounded, QuotientNumber};
ghost use Rattle.floats.specs.Order.{OrderTotal, OrderTransitive, NanLast, NumbersOrdered};
ghost use Rattle.floats.specs.Quotients.{QuotientPlaced, RestPlaced};
ghost use Rattle.floats.specs.Units.{StepsOrdered, StepSome, PartInUnit, RestInUnit};
ghost use Rattle.floats.specs.Whole.{WholeHeld, WholeSum, WholeDifference, WholeProduct, WholeNegation, WholeCompared, SameDifference, SameProduct, MinusNought};

/// Floats stand in a total order, not-a-number last and level with itself.
pub fn order_stands()
    ensures total { OrderTotal }
    ensures transitive { OrderTransitive }
    ensures last { NanLast }
    ensures numbers { NumbersOrdered }
{}

/// Whole numbers of small size are held, added, subtracted, multiplied and compared exactly.
pub fn whole_numbers_stand()
    ensures held { WholeHeld }
    ensures sum { WholeSum }
    ensures difference { WholeDifference }
    ensures product { WholeProduct }
    ensures negation { WholeNegation }
    ensures compared { WholeCompared }
    ensures same_difference { SameDifference }
    ensures same_product { SameProduct }
    ensures minus_nought { MinusNought }
{}

/// A rounded quotient of whole numbers lies before, at, between and past 0 and 1 as the fraction does.
pub fn quotients_stand()
    ensures placed { QuotientPlaced }
    ensures rest { RestPlaced }
{}

/// Sums, differences and products of bounded floats are bounded and finite, and a quotient by what is not 0 is a number.
pub fn bounds_stand()
    ensures sum { SumBounded }
    ensures difference { DifferenceBounded }
    ensures product { ProductBounded }
    ensures quotient { QuotientNumber }
{}

/// The part that one difference is of a larger one stays from 0 to 1, and so does what it leaves of 1.
pub fn units_stand()
    ensures steps { StepsOrdered }
    ensures some { StepSome }
    ensures part { PartInUnit }
    ensures rest { RestInUnit }
{}
