//! Laws of the lists of all trees, each the contract of a function that does nothing.
ghost use Rattle.bs_enum.specs.Laws.{CanonicalIsDecided, EachTreeIsListed, OnlyTreesAreListed, ListDecreases, ListedAreCodes, CountIsOfTheList};

/// The test of canonical sequences tells them from all other lists.
pub fn canonical_sequences_are_decided()
    ensures { CanonicalIsDecided }
{}

/// The list of all trees of an order has each tree of that order and these colours, and nothing else.
pub fn all_trees_are_listed()
    ensures each { EachTreeIsListed }
    ensures only { OnlyTreesAreListed }
{}

/// The list is strictly decreasing, so that no tree stands there twice.
pub fn the_list_decreases()
    ensures { ListDecreases }
{}

/// The members of the list are codes.
pub fn listed_sequences_are_codes()
    ensures { ListedAreCodes }
{}

/// The number of all trees to an order is the length of their list.
pub fn the_list_is_counted()
    ensures { CountIsOfTheList }
{}
