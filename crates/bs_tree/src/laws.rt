//! Laws of trees, each the contract of a function that does nothing.
ghost use Rattle.bs_tree.specs.Tree.{order};
ghost use Rattle.bs_tree.specs.Numbers.{symmetry, density, alpha};
ghost use Rattle.bs_tree.specs.Laws.{CanonicalSequencesDecide, IsomorphismIsReflexive, IsomorphismIsSymmetric, IsomorphismIsTransitive, SymmetryTimesDensityDivides, SortingGivesTheGreatest, CanonicalSequenceIsUnique, ReadingGivesTheTree, CanonicalSequenceIsFixed, CanonicalSequenceDescribesTheTree, IsSameForIsomorphicTrees};

/// Two trees are isomorphic exactly where their canonical sequences are equal.
pub fn canonical_sequences_decide_isomorphism()
    ensures { CanonicalSequencesDecide }
{}

/// Isomorphism is an equivalence.
pub fn isomorphism_is_an_equivalence()
    ensures reflexive { IsomorphismIsReflexive }
    ensures symmetric { IsomorphismIsSymmetric }
    ensures transitive { IsomorphismIsTransitive }
{}

/// The symmetry times the density divides the factorial of the order, so alpha is a whole number.
pub fn symmetry_times_density_divides_the_factorial()
    ensures { SymmetryTimesDensityDivides }
{}

/// Sorting the children of each node gives the canonical sequence, and there is no other.
pub fn sorting_gives_the_canonical_sequence()
    ensures greatest { SortingGivesTheGreatest }
    ensures only { CanonicalSequenceIsUnique }
{}

/// Reading a canonical sequence back, and taking the canonical sequence again, gives it.
pub fn canonical_sequence_is_a_fixed_point()
    ensures read { ReadingGivesTheTree }
    ensures fixed { CanonicalSequenceIsFixed }
    ensures isomorphic { CanonicalSequenceDescribesTheTree }
{}

/// The numbers of a tree do not change under isomorphism.
pub fn isomorphic_trees_have_equal_numbers()
    ensures order { IsSameForIsomorphicTrees order }
    ensures symmetry { IsSameForIsomorphicTrees symmetry }
    ensures density { IsSameForIsomorphicTrees density }
    ensures alpha { IsSameForIsomorphicTrees alpha }
{}
