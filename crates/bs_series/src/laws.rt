//! Laws of series: each function does nothing, and its contract is the law.

ghost use Rattle.bs_series.specs.Laws.{WrittenIsValue, InverseLaw, ModifiedLaw, ModifyingLaw, ValuesAgreeOnIsomorphic, SumsAgreeOnIsomorphic, InverseEverywhere, ModifiedEverywhere, ModifyingEverywhere, DivisorLaw, AdjointLaw, AverageLaw, PlannedLaw, PlannedAtLaw, BelowLaw, ColoursLaw};
ghost use Rattle.bs_series.specs.PlanItems.{ItemsLaw, NeededLaw};
ghost use Rattle.bs_series.specs.Keys.{KeysDecide};

/// A written value that is no Overflow is reduced, and the same fraction as the value without bound.
pub fn written_value_is_the_value()
    ensures { WrittenIsValue }
{}

/// The inverse is the only series whose composition with the series is the identity.
pub fn inverse_solves_its_equation()
    ensures { InverseLaw }
{}

/// The modified series is the only one that gives the series when it is put into the exact flow.
pub fn modified_solves_its_equation()
    ensures { ModifiedLaw }
{}

/// Where the series is not 0 at the leaf, its modifying series is the only one that gives the exact flow
/// when it is put into the series.
pub fn modifying_solves_its_equation()
    ensures solves { ModifyingLaw }
    ensures divisor { DivisorLaw }
{}

/// The value of a series does not change where a tree is replaced by an isomorphic one.
pub fn values_agree_on_isomorphic_trees()
    ensures { ValuesAgreeOnIsomorphic }
{}

/// A composition and a substitution do not change where a tree is replaced by an isomorphic one.
pub fn sums_agree_on_isomorphic_trees()
    ensures { SumsAgreeOnIsomorphic }
{}

/// The three equations at every tree, canonical or not, and the solutions alone among the maps that agree on isomorphic trees.
pub fn equations_hold_at_every_tree()
    ensures inverse { InverseEverywhere }
    ensures modified { ModifiedEverywhere }
    ensures modifying { ModifyingEverywhere }
{}

/// The adjoint is the inverse, with the sign of the order.
pub fn adjoint_is_the_signed_inverse()
    ensures { AdjointLaw }
{}

/// The average vector field method has 1 over the product of one more than the number of children of each node, and is
/// never written as an Overflow.
pub fn average_is_one_over_the_arities()
    ensures { AverageLaw }
{}

/// A value is its plan carried out over values.
pub fn values_are_their_plans()
    ensures trees { PlannedLaw }
    ensures codes { PlannedAtLaw }
{}

/// At a code, a plan is the plan over the items written as codes.
pub fn plans_go_over_the_items()
    ensures { ItemsLaw }
{}

/// A value needs its own pair, and what the looked-up factors of its plan need.
pub fn needed_pairs_come_of_the_plan()
    ensures { NeededLaw }
{}

/// Two keys are equal exactly where the expressions are.
pub fn keys_decide()
    ensures { KeysDecide }
{}

/// A plan reads smaller expressions, and its own expression at smaller trees alone.
pub fn plans_read_smaller_pairs()
    ensures { BelowLaw }
{}

/// A plan reads its series only at trees of their colours.
pub fn plans_keep_colours()
    ensures { ColoursLaw }
{}
