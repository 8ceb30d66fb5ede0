//! The law that ties the written weight to the elementary weight.

ghost use Rattle.bs_tableau.specs.Laws.{WrittenIsWeight};

/// Where the written weight of a tree is no overflow, it is the sum over all maps of nodes to stages.
pub fn written_weight_is_the_elementary_weight()
    ensures { WrittenIsWeight }
{}
