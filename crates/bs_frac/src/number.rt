//! Whole numbers of 128 bits: the parts of the checked operations, each with a short way where the numbers are small.
ghost use Rattle.std.specs.Prelude.{◌≡◌, ◌*◌, ◌/◌, ◌<◌, ◌≤◌, ◌+ℤ◌, IsTrue, IfSome, IsSome, SomeIff, unsigned_abs, ◌↔◌};
ghost use Rattle.bs_frac.specs.Fraction.{signed};
ghost use Rattle.bs_frac.specs.Checked.{largest};

use crate::frac::M;
use crate::gcd::SMALL;

/// The quotient, by the shortest division that serves.
pub(crate) fn quotient(a: u128, by: u128) -> u128
    requires { 0 < by }
    ensures { result ≡ a / by }
{
    if by == 1 {
        a
    } else if a < SMALL && by < SMALL {
        u128::from(a as u64 / by as u64)
    } else {
        a / by
    }
}

/// The product, where it is at most M.
pub(crate) fn product_within(a: u128, b: u128) -> Option<u128>
    ensures { SomeIff result (a * b ≤ largest) (a * b) }
{
    if a < SMALL && b < SMALL {
        return within(u128::from(a as u64) * u128::from(b as u64));
    }
    match a.checked_mul(b) {
        Some(product) => within(product),
        None => None,
    }
}

/// The product of two quotients, where it is at most M. It divides first.
pub(crate) fn quotients_within(a: u128, by_a: u128, b: u128, by_b: u128) -> Option<u128>
    requires first { 0 < by_a }
    requires second { 0 < by_b }
    ensures { SomeIff result (a / by_a * (b / by_b) ≤ largest) (a / by_a * (b / by_b)) }
{
    product_within(quotient(a, by_a), quotient(b, by_b))
}

/// The number, where it is at most M.
pub(crate) fn within(n: u128) -> Option<u128>
    ensures { SomeIff result (n ≤ largest) n }
{
    if n <= M { Some(n) } else { None }
}

/// The sum of two signed numbers, where its magnitude is at most M.
pub(crate) fn signed_sum(
    a_negative: bool,
    a: u128,
    b_negative: bool,
    b: u128,
) -> Option<(bool, u128)>
    ensures fits { IsSome result ↔ (unsigned_abs (signed a_negative a +ℤ signed b_negative b) ≤ largest) }
    ensures sum { IfSome result (λ s. signed s.0 s.1 ≡ signed a_negative a +ℤ signed b_negative b) }
    ensures zero { IfSome result (λ s. IsTrue s.0 → 0 < s.1) }
{
    if a_negative == b_negative {
        let total = within(a.checked_add(b)?)?;
        Some((sign(a_negative, total), total))
    } else if a > b {
        Some((a_negative, within(a - b)?))
    } else if b > a {
        Some((b_negative, within(b - a)?))
    } else {
        Some((false, 0))
    }
}

/// The sign, where zero has none.
pub(crate) fn sign(negative: bool, magnitude: u128) -> bool
    ensures value { signed result magnitude ≡ signed negative magnitude }
    ensures zero { IsTrue result → 0 < magnitude }
{
    negative && magnitude != 0
}
