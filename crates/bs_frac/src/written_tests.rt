//! Words at the edges of what is read, texts, and sums at the edge of `M`.
use crate::{Acc, Coef, Frac, M};
use std::test::Fail;

/// The sign, the numerator and the denominator that a word gives.
fn parts(word: &str) -> Option<(bool, u128, u128)> {
    match Frac::read(word.as_bytes()) {
        Ok(value) => Some((value.is_negative(), value.num(), value.den())),
        Err(_) => None,
    }
}

#[test]
fn reads_fractions_and_nothing_else(rt: HostRuntime) {
    for (word, want) in [
        ("0", Some((false, 0, 1))),
        ("-0", Some((false, 0, 1))),
        ("0/5", Some((false, 0, 1))),
        ("2/4", Some((false, 1, 2))),
        ("-1/2", Some((true, 1, 2))),
        ("-10/5", Some((true, 2, 1))),
        (
            "170141183460469231731687303715884105727",
            Some((false, M, 1)),
        ),
        (
            "-1/170141183460469231731687303715884105727",
            Some((true, 1, M)),
        ),
        ("170141183460469231731687303715884105728", None),
        ("170141183460469231731687303715884105728/2", None),
        ("0/170141183460469231731687303715884105728", None),
        ("99999999999999999999999999999999999999999999999999", None),
        ("1/0", None),
        ("1/00", None),
        ("01", None),
        ("1/01", None),
        ("1/", None),
        ("/2", None),
        ("", None),
        ("-", None),
        ("--1", None),
        ("+1", None),
        ("1/-2", None),
        ("1/2/3", None),
        ("1 ", None),
        ("1.5", None),
    ] {
        assert_eq!(rt; parts(word), want, "at {word}");
    }
}

#[test]
fn writes_fractions(rt: HostRuntime) -> Result<(), Fail> {
    for (word, want) in [
        ("-2/4", "-1/2"),
        ("3", "3"),
        ("-0", "0"),
        ("-10/5", "-2"),
        ("12/18", "2/3"),
    ] {
        let value = Frac::read(word.as_bytes())?;
        let mut out = Vec::new(rt.alloc());
        out.push(b'=')?;
        value.write(&mut out)?;
        assert_eq!(rt;
            out.as_slice(),
            format!(in rt.alloc(); "={want}")?.as_bytes(),
            "at {word}"
        );
    }
    Ok(())
}

fn value(word: &str) -> Coef {
    match Frac::read(word.as_bytes()) {
        Ok(value) => Coef::Value(value),
        Err(_) => Coef::Overflow,
    }
}

#[test]
fn sums_products_in_their_order(rt: HostRuntime) {
    let mut sum = Acc::start();
    sum.add_term(&[value("1/2"), value("1/3")]);
    sum.sub_term(&[value("3/4")]);
    sum.add_term(&[]);
    assert!(rt; sum.finish() == value("5/12"));
    let by = value("-5/6");
    assert!(rt; !by.is_zero());
    assert!(rt; sum.finish().quotient(&by) == value("-1/2"));
    assert!(rt; sum.finish().opposite() == value("-5/12"));
}

#[test]
fn overflow_stays(rt: HostRuntime) {
    let largest = value("170141183460469231731687303715884105727");
    let half = value("170141183460469231731687303715884105727/2");
    let third = value("170141183460469231731687303715884105727/3");
    assert!(rt; largest != Coef::Overflow);

    let mut sum = Acc::start();
    sum.add_term(&[largest]);
    sum.add_term(&[largest]);
    sum.sub_term(&[largest]);
    assert!(rt; sum.finish() == Coef::Overflow, "M + M - M");

    let mut difference = Acc::start();
    difference.add_term(&[half]);
    difference.sub_term(&[third]);
    assert!(rt;
        difference.finish() == Coef::Overflow,
        "M/2 - M/3, though M/6 fits"
    );

    let mut beside_zero = Acc::start();
    beside_zero.add_term(&[value("0"), Coef::Overflow]);
    assert!(rt;
        beside_zero.finish() == Coef::Overflow,
        "an Overflow beside a factor 0"
    );
    assert!(rt; Coef::Overflow.times(&value("0")) == Coef::Overflow);
    assert!(rt; !half.is_zero());
    assert!(rt; Coef::Overflow.quotient(&half) == Coef::Overflow);
}

/// The numerators of the term pass M at its third factor, where its reduced product is 1; Python's `fractions` finds the sum.
#[test]
fn changes_to_the_written_way_within_a_term(rt: HostRuntime) {
    let mut sum = Acc::start();
    sum.add_term(&[value("1/2")]);
    sum.add_term(&[
        value("18446744073709551616/3"),
        value("3/18446744073709551616"),
        value("18446744073709551616/5"),
        value("5/7"),
    ]);
    assert!(rt; sum.finish() == value("36893488147419103239/14"));
}

/// The least positive number.
fn least() -> Coef {
    value("1/170141183460469231731687303715884105727")
}

/// A product that is 0 stays so whatever follows; one that passed M does not come back.
#[test]
fn zero_stands_before_or_behind_too_large_factors(rt: HostRuntime) {
    let mut before = Acc::start();
    before.add_term(&[value("0"), least(), least()]);
    assert!(rt; before.finish() == value("0"));
    let mut behind = Acc::start();
    behind.add_term(&[least(), least(), value("0")]);
    assert!(rt; behind.finish() == Coef::Overflow);
}
