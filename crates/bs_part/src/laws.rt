//! Laws of partitions, each the contract of a function that does nothing.
ghost use Rattle.bs_part.specs.Laws.{WordsGiveThePartitions, OnePerWord, ItemsBalance, OneNodePerPart, ItemsAreCanonical, ColoursStay, FirstCutsNothing, LastCutsAll};

/// One item for each word of keep and cut, in the order of the words, so 2^n of them for a tree of n + 1 nodes.
pub fn words_give_the_partitions()
    ensures same { WordsGiveThePartitions }
    ensures one_each { OnePerWord }
{}

/// The nodes of an item's parts are those of the tree, by number, and the skeleton has one node for each part.
pub fn items_balance()
    ensures nodes { ItemsBalance }
    ensures skeleton { OneNodePerPart }
{}

/// The trees of an item are canonical, the parts with the colours of the tree, the skeleton with colour 0.
pub fn items_are_canonical()
    ensures canonical { ItemsAreCanonical }
    ensures colours { ColoursStay }
{}

/// The first item keeps the tree whole, and no other one does.
pub fn the_first_item_cuts_nothing()
    ensures { FirstCutsNothing }
{}

/// The last item has the tree's shape as skeleton, and its nodes as parts.
pub fn the_last_item_cuts_all()
    ensures { LastCutsAll }
{}
