//! Sums, differences, products and quotients beside those of another program, and at the edge of `M`.
use crate::gcd::gcd_of;
use crate::{Frac, M, Overflow};

/// The sign, the numerator and the denominator.
fn parts(outcome: Result<Frac, Overflow>) -> Option<(bool, u128, u128)> {
    match outcome {
        Ok(value) => Some((value.is_negative(), value.num(), value.den())),
        Err(_) => None,
    }
}

/// The fraction of a word, or an overflow.
fn read(word: &str) -> Result<Frac, Overflow> {
    match Frac::read(word.as_bytes()) {
        Ok(value) => Ok(value),
        Err(_) => Err(Overflow),
    }
}

/// Each row has two fractions, and the sum, the difference, the product and the quotient of them as
/// Python's `fractions` finds them.
#[test]
fn four_operations(rt: HostRuntime) {
    for (x, y, sum, difference, product, quotient) in [
        ("1/6", "-1/10", "1/15", "4/15", "-1/60", "-5/3"),
        ("-7/8", "5/12", "-11/24", "-31/24", "-35/96", "-21/10"),
        ("5/12", "-5/12", "0", "5/6", "-25/144", "-1"),
        ("9/4", "2/3", "35/12", "19/12", "3/2", "27/8"),
        ("-3", "4", "1", "-7", "-12", "-3/4"),
        (
            "1000000000000000009/1000000000000000011",
            "1/1000000000000000011",
            "1000000000000000010/1000000000000000011",
            "333333333333333336/333333333333333337",
            "1000000000000000009/1000000000000000022000000000000000121",
            "1000000000000000009",
        ),
        (
            "1000000000000000000000000000000/7",
            "-1000000000000000000000000000000/21",
            "2000000000000000000000000000000/21",
            "4000000000000000000000000000000/21",
            "overflow",
            "-3",
        ),
    ] {
        if let (Ok(a), Ok(b)) = (read(x), read(y)) {
            assert_eq!(rt; parts(a.add(&b)), parts(read(sum)), "{x} + {y}");
            assert_eq!(rt; parts(a.sub(&b)), parts(read(difference)), "{x} - {y}");
            assert_eq!(rt; parts(a.mul(&b)), parts(read(product)), "{x} * {y}");
            if !b.is_zero() {
                assert_eq!(rt; parts(a.div(&b)), parts(read(quotient)), "{x} / {y}");
            }
        } else {
            assert!(rt; false, "{x} or {y} is no fraction");
        }
    }
}

/// The sum of two fractions that were made.
fn sum(x: Result<Frac, Overflow>, y: Result<Frac, Overflow>) -> Option<(bool, u128, u128)> {
    match (x, y) {
        (Ok(x), Ok(y)) => parts(x.add(&y)),
        _ => None,
    }
}

#[test]
fn makes_fractions_to_the_edge(rt: HostRuntime) {
    for (negative, num, den, want) in [
        (false, M, 1, Some((false, M, 1))),
        (true, M, 1, Some((true, M, 1))),
        (false, M, 2, Some((false, M, 2))),
        (true, M, 3, Some((true, M, 3))),
        (true, 2, 4, Some((true, 1, 2))),
        (true, 0, 5, Some((false, 0, 1))),
        (false, 1 << 127, 1, None),
        (false, 1 << 127, 2, Some((false, 1 << 126, 1))),
    ] {
        assert_eq!(rt;
            parts(Frac::new(negative, num, den)),
            want,
            "at {num} over {den}"
        );
    }
}

/// M - M, and overflows though the result would fit: M + M - M at its first sum, M/2 - M/3 at M * 3, and
/// M/2 + M/2 at 2 M.
#[test]
fn sums_at_the_edge(rt: HostRuntime) {
    let opposite = sum(Frac::new(false, M, 1), Frac::new(true, M, 1));
    assert_eq!(rt; opposite, Some((false, 0, 1)));
    assert_eq!(rt; sum(Frac::new(false, M, 1), Frac::new(false, M, 1)), None);
    assert_eq!(rt; sum(Frac::new(false, M, 2), Frac::new(true, M, 3)), None);
    assert_eq!(rt; sum(Frac::new(false, M, 2), Frac::new(false, M, 2)), None);
}

/// The greatest common divisors are Python's.
#[test]
fn common_divisors(rt: HostRuntime) {
    for (a, b, want) in [
        (0, 7, 7),
        (7, 0, 7),
        (12, 18, 6),
        (
            18446744073709551616,
            110680464442257309696,
            18446744073709551616,
        ),
        (
            147808829414345923316083210206383297601,
            789337185024183652971816016070836224,
            717897987691852588770249,
        ),
        (
            18446744073709551557,
            227725055589944413971165,
            18446744073709551557,
        ),
        (340282366920938463463374607431768211455, 255, 255),
        (
            21550060203879899825443954491392,
            399854632689177828792417124352,
            21044980667851464673285111808,
        ),
        (
            60085147514300000000000000000000,
            7304951225369453939695972293543,
            600851475143,
        ),
    ] {
        assert_eq!(rt; gcd_of(a, b), want, "at {a} and {b}");
    }
}
