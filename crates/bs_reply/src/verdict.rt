//! Whether an order condition holds.
ghost use Rattle.std.specs.Prelude.{◌≡◌};
ghost use Rattle.bs_reply.specs.Verdicts.{verdict};

use bs_frac::{Coef, Frac};

/// Whether a coefficient has the value that an order condition wants.
#[derive(Clone, Copy, Debug, PartialEq, Eq)]
pub enum Verdict {
    /// It has this value.
    Holds,
    /// It has another value.
    Fails,
    /// It is an overflow, so nothing is known.
    Unknown,
}

impl Verdict {
    /// The verdict on a coefficient beside the value that it has to have. Takes no memory.
    pub fn of(coef: &Coef, target: &Frac) -> Verdict
        ensures { result ≡ verdict coef.now target.now }
    {
        match coef {
            Coef::Value(value) if value == target => Verdict::Holds,
            Coef::Value(_) => Verdict::Fails,
            Coef::Overflow => Verdict::Unknown,
        }
    }
}
