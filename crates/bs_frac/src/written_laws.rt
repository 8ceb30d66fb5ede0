//! Laws of the definitions: each function does nothing, and its contract is the law.
ghost use Rattle.bs_frac.specs.Fraction.{sum_of, difference_of, opposite_of, product_of, reciprocal_of, quotient_of};
ghost use Rattle.bs_frac.specs.WrittenLaws.{SameIsReflexive, SameIsSymmetric, SameIsTransitive, KeepsSame, BothKeepSame, WrittenSumLaw, SumOfProductsLaw, NumberLaw, LiteralLaw, ReducedLaw, ReadBackLaw};

/// Equality of fractions is an equivalence on those with positive denominators.
pub fn equality_is_an_equivalence()
    ensures reflexive { SameIsReflexive }
    ensures symmetric { SameIsSymmetric }
    ensures transitive { SameIsTransitive }
{}

/// Equal fractions have equal sums, products and so on.
pub fn operations_keep_equality()
    ensures sum { BothKeepSame sum_of }
    ensures difference { BothKeepSame difference_of }
    ensures opposite { KeepsSame opposite_of }
    ensures product { BothKeepSame product_of }
    ensures reciprocal { KeepsSame reciprocal_of }
    ensures quotient { BothKeepSame quotient_of }
{}

/// A written sum that is not Overflow is reduced, and the same fraction as the sum of products
/// without bound.
pub fn written_sum_is_the_sum_of_products()
    ensures agrees { WrittenSumLaw }
    ensures reduced_factors { SumOfProductsLaw }
{}

/// A word is read exactly where it is a sign and decimal numbers, as the pair that it writes, reduced.
pub fn reading_follows_the_grammar()
    ensures number { NumberLaw }
    ensures literal { LiteralLaw }
    ensures reduced { ReducedLaw }
{}

/// A fraction that is written and read again is itself.
pub fn written_and_read_is_itself()
    ensures { ReadBackLaw }
{}
