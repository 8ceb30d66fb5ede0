//! Laws of codes, each the contract of a function that does nothing.
ghost use Rattle.bs_tree.specs.CodeLaws.{SameCodeDecides, LevelSequencesDescribe, CodesAreLevelSequences, TreesHaveCodes, ChildrenAreCodes, ChildrenDecrease, ChildrenAddUp, CodeIsRootOverChildren, ColourAndChildrenDecide, RootOverCodesIsACode};

/// Two codes are equal exactly where their comparison says so.
pub fn comparison_decides_equality()
    ensures { SameCodeDecides }
{}

/// A list has valid levels exactly where it is the level sequence of the tree that it describes.
pub fn valid_levels_are_those_of_trees()
    ensures { LevelSequencesDescribe }
{}

/// A code read back, and its code taken again, is that code; and each tree within the bounds has a code.
pub fn codes_are_read_back()
    ensures back { CodesAreLevelSequences }
    ensures each_tree { TreesHaveCodes }
{}

/// The children of a code are codes, of smaller orders that add up, in decreasing order.
pub fn children_of_a_code_are_codes()
    ensures codes { ChildrenAreCodes }
    ensures decreasing { ChildrenDecrease }
    ensures orders { ChildrenAddUp }
{}

/// A code is made again from its root's colour and its children, which so decide it.
pub fn colour_and_children_decide_a_code()
    ensures joined { CodeIsRootOverChildren }
    ensures decide { ColourAndChildrenDecide }
    ensures each { RootOverCodesIsACode }
{}
