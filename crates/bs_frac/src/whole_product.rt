//! Products in whole numbers, gathered apart from the written order. Contracts see a `WholeProduct` as the products of the
//! numerators and of the denominators of its factors, and the reach: the product of the magnitudes, where 0 counts as 1.
ghost use Rattle.std.specs.Prelude.{◌≡◌, ◌<◌, ◌≤◌, ◌*◌, ◌↔◌, ◌++◌, ◌∷◌, [], List, IsSome, IfSome, MatchOption};
ghost use Rattle.bs_frac.specs.Fraction.{signed};
ghost use Rattle.bs_frac.specs.Checked.{largest};
ghost use Rattle.bs_frac.specs.Written.{checked};
ghost use Rattle.bs_frac.specs.Wholes.{ratio};
ghost use Rattle.bs_frac.specs.Gathered.{multiplied, both_multiplied, IsProductOf};
ghost use Rattle.bs_frac.specs.declared.coef.Coef.{Coef as Number};
ghost use Rattle.bs_frac.specs.declared.coef.Coef.TheVariants.{Overflow};

use crate::coef::Coef;
use crate::frac::Frac;
use crate::number::product_within;
use std::marker::Model;

/// A product of factors of which none is Overflow. As long as the reach and the product of the denominators are at most `M`,
/// the factors may be multiplied in any order. It takes no memory.
#[derive(Drop)]
pub struct WholeProduct {
    zero: bool,
    negative: bool,
    reach: u128,
    den: u128,
}

impl Model for WholeProduct {
    ghost use Rattle.std.specs.Prelude.{◌<◌, ◌≤◌};
    ghost use Rattle.bs_frac.specs.Fraction.{signed};
    ghost use Rattle.bs_frac.specs.Checked.{largest};
    ghost use Rattle.bs_frac.specs.Gathered.{Multiplied, unless};

    ghost Value = { Multiplied };

    ghost view = { λ a. record { top = signed a.negative (unless a.zero a.reach); bottom = a.den; reach = a.reach } };

    ghost invariant = { λ a. (a.reach ≤ largest) × (a.den ≤ largest) × (0 < a.den) };
}

/// The product of one factor, a sign and two magnitudes.
fn of_parts(negative: bool, num: u128, den: u128) -> WholeProduct
    requires num { num ≤ largest }
    requires den { den ≤ largest }
    requires some { 0 < den }
    ensures { result ≡ multiplied (ratio (signed negative num) den) }
{
    let zero = num == 0;
    WholeProduct {
        zero,
        negative,
        reach: if zero { 1 } else { num },
        den,
    }
}

/// The product of one factor.
fn of_fraction(value: &Frac) -> WholeProduct
    ensures { IsProductOf result (checked.of value.now ∷ []) }
{
    let (negative, num, den) = value.parts();
    of_parts(negative, num, den)
}

impl WholeProduct {
    /// The product of one factor. `None` of Overflow.
    pub fn of(value: &Coef) -> Option<WholeProduct>
        ensures { MatchOption result (value.now ≡ Overflow) (λ product. IsProductOf product (value.now ∷ [])) }
    {
        match value {
            Coef::Value(value) => Some(of_fraction(value)),
            Coef::Overflow => None,
        }
    }

    /// The product of the factors of both, where its reach and its denominator are at most `M`.
    pub fn times(&self, by: &WholeProduct) -> Option<WholeProduct>
        ensures fits { IsSome result ↔ ((self.now.reach * by.now.reach ≤ largest) × (self.now.bottom * by.now.bottom ≤ largest)) }
        ensures product { (us vs : List Number) → IsProductOf self.now us → IsProductOf by.now vs → IfSome result (λ product. IsProductOf product (us ++ vs)) }
    {
        self.both(by)
    }

    /// The same, number by number.
    fn both(&self, by: &WholeProduct) -> Option<WholeProduct>
        ensures fits { IsSome result ↔ ((self.now.reach * by.now.reach ≤ largest) × (self.now.bottom * by.now.bottom ≤ largest)) }
        ensures value { IfSome result (λ product. product ≡ both_multiplied self.now by.now) }
    {
        let reach = product_within(self.reach, by.reach)?;
        let den = product_within(self.den, by.den)?;
        Some(WholeProduct {
            zero: self.zero || by.zero,
            negative: self.negative != by.negative,
            reach,
            den,
        })
    }

    /// The sign, and the magnitude of the product of the numerators.
    pub(crate) fn top(&self) -> (bool, u128)
        ensures { signed result.0 result.1 ≡ self.now.top }
    {
        (self.negative, if self.zero { 0 } else { self.reach })
    }

    /// The product of the denominators.
    pub(crate) fn den(&self) -> u128
        ensures value { result ≡ self.now.bottom }
        ensures some { 0 < result }
        ensures small { self.now.reach ≤ largest }
    {
        self.den
    }
}
