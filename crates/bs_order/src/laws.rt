//! Laws of the definitions: each function does nothing, and its contract is the law.

ghost use Rattle.bs_order.specs.Laws.{OrderIsMet};

/// The order that is told is met: up to it the elementary weight of each tree is one over its density.
pub fn the_order_is_met()
    ensures { OrderIsMet }
{}
