//! Laws of the definitions: each function does nothing, and its contract is the law.

ghost use Rattle.bs_reply.specs.Laws.{SaysTheOrder, NumbersAreReadAlike};

/// The line with a tree's numbers says the order of that tree, where it says the length of its code.
pub fn order_said_is_the_trees()
    ensures { SaysTheOrder }
{}

/// A number among levels or colours and a number of a fraction are read alike: on every word, whatever the limit.
pub fn numbers_are_read_alike()
    ensures { NumbersAreReadAlike }
{}
