//! Laws of the checked operations, of lowest terms and of the greatest common divisor: each function does nothing, and
//! its contract is the law.
ghost use Rattle.bs_frac.specs.Laws.{SumLaw, DifferenceLaw, ProductLaw, QuotientLaw, FractionLaw, SumOverflowLaw, DifferenceOverflowLaw, ProductOverflowLaw, QuotientOverflowLaw, FractionOverflowLaw, OneReducedLaw, GcdLaw};

/// A checked operation that is no overflow gives a reduced fraction within M, the same as that of
/// the operation without bound.
pub fn checked_is_exact()
    ensures sum { SumLaw }
    ensures difference { DifferenceLaw }
    ensures product { ProductLaw }
    ensures quotient { QuotientLaw }
    ensures fraction { FractionLaw }
{}

/// An overflow comes exactly where one of the operation's numbers exceeds M.
pub fn overflow_is_exact()
    ensures sum { SumOverflowLaw }
    ensures difference { DifferenceOverflowLaw }
    ensures product { ProductOverflowLaw }
    ensures quotient { QuotientOverflowLaw }
    ensures fraction { FractionOverflowLaw }
{}

/// Each fraction with a positive denominator is the same as just one reduced pair.
pub fn one_reduced_pair()
    ensures { OneReducedLaw }
{}

/// The greatest common divisor divides both numbers, and each common divisor divides it.
pub fn gcd_is_greatest()
    ensures { GcdLaw }
{}
