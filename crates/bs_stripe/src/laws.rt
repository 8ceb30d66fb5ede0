//! Laws of a stripe, each the contract of a function that does nothing.
ghost use Rattle.bs_stripe.specs.Laws.{RaisesAlike, LowersAlike, AddsAlike, DenseAlike, FindsAlike};

/// A stripe does what the machine does on the table of one stripe, and finds by keys what the machine finds by codes.
pub fn a_stripe_is_a_table()
    ensures raise { RaisesAlike }
    ensures lower { LowersAlike }
    ensures add { AddsAlike }
    ensures dense { DenseAlike }
    ensures find { FindsAlike }
{}
