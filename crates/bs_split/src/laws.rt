//! Laws of splittings, each the contract of a function that does nothing.
ghost use Rattle.bs_split.specs.Laws.{WordsGiveTheSplittings, AtMostOnePerWord, ItemsBalance, LastKeepsTheTree};

/// One item for each word of keep and cut in which no node below a cut one is kept, in the order of the words.
pub fn words_give_the_splittings()
    ensures same { WordsGiveTheSplittings }
    ensures few { AtMostOnePerWord }
{}

/// The nodes of an item are those of the tree, by number.
pub fn items_balance()
    ensures { ItemsBalance }
{}

/// The last item alone keeps the whole tree.
pub fn the_last_item_keeps_the_tree()
    ensures { LastKeepsTheTree }
{}
