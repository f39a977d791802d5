//! Fractions: their lowest terms, their order, their multiples and products, and their texts.

ghost use Rattle.std.specs.Prelude.{◌≤◌};

use crate::tests::comparing::{holds, is_written};
use ratio_core::{
    Ratio, RatioFault, cmp_parts, gcd, lcm_within, multiples_are_least, parse_ratio, product_within,
};
use std::cmp::Ordering;
use std::test::Fail;

const MOST: u128 = u128::MAX;

fn parts(ratio: &Ratio) -> (u128, u128) {
    (ratio.num(), ratio.den())
}

/// What a call answers to some numbers, or to a text.
enum Fact {
    /// Two numbers, and their greatest common divisor.
    Divisor(u128, u128, u128),
    /// The parts of a fraction, and what they are in lowest terms.
    Reduced((u128, u128), (u128, u128)),
    /// A whole number, and its parts as a fraction.
    Whole(u128, (u128, u128)),
    /// The parts of two fractions, and their order.
    Order(u128, u128, u128, u128, Ordering),
    /// Two numbers, a bound, and their least common multiple within it.
    Multiple(u128, u128, u128, Option<u128>),
    /// Two numbers, a denominator and a bound, and the parts of the product over the denominator.
    Product(u128, u128, u128, u128, Option<(u128, u128)>),
    /// A text, and the parts of the fraction that it writes, or why it writes none.
    Text(&'static str, Result<(u128, u128), RatioFault>),
}

/// The parts of `a * b / den` within a bound.
fn product(a: u128, b: u128, den: u128, max: u128) -> Option<(u128, u128)>
    requires { 1 ≤ den }
{
    Some(parts(&product_within(a, b, den, max)?))
}

fn read(text: &str) -> Result<(u128, u128), RatioFault> {
    Ok(parts(&parse_ratio(text)?))
}

/// The order of `a / b` and `c / d`; none over 0.
fn order_of(a: u128, b: u128, c: u128, d: u128) -> Option<Ordering> {
    if b == 0 || d == 0 {
        return None;
    }
    Some(cmp_parts(a, b, c, d))
}

/// The least common multiple within a bound; `Some(None)` where it passes that, and none of 0.
fn multiple_of(a: u128, b: u128, max: u128) -> Option<Option<u128>> {
    if a == 0 || b == 0 {
        return None;
    }
    Some(lcm_within(a, b, max))
}

/// Whether a fact about the parts of a fraction is so.
fn has_parts(fact: &Fact) -> bool {
    match fact {
        Fact::Reduced((num, den), terms) => *den > 0 && parts(&Ratio::new(*num, *den)) == *terms,
        Fact::Whole(number, terms) => parts(&Ratio::from(*number)) == *terms,
        Fact::Product(a, b, den, max, terms) => *den > 0 && product(*a, *b, *den, *max) == *terms,
        _ => false,
    }
}

/// Whether a fact is so. None is of a fraction over 0, or of a multiple of 0.
fn is_so(fact: &Fact) -> bool {
    match fact {
        Fact::Divisor(a, b, divisor) => gcd(*a, *b) == *divisor,
        Fact::Order(a, b, c, d, order) => order_of(*a, *b, *c, *d) == Some(*order),
        Fact::Multiple(a, b, max, multiple) => multiple_of(*a, *b, *max) == Some(*multiple),
        Fact::Text(text, terms) => read(text) == *terms,
        _ => has_parts(fact),
    }
}

static FACTS: [(&str, Fact); 55] = [
    ("the whole number 3", Fact::Whole(3, (3, 1))),
    ("the divisor of 0 and 0", Fact::Divisor(0, 0, 0)),
    ("the divisor of 0 and 7", Fact::Divisor(0, 7, 7)),
    ("the divisor of 12 and 18", Fact::Divisor(12, 18, 6)),
    ("the divisor of 18 and 12", Fact::Divisor(18, 12, 6)),
    ("the divisor of 17 and 5", Fact::Divisor(17, 5, 1)),
    ("6 / 4 in lowest terms", Fact::Reduced((6, 4), (3, 2))),
    ("0 / 5 in lowest terms", Fact::Reduced((0, 5), (0, 1))),
    ("7 / 7 in lowest terms", Fact::Reduced((7, 7), (1, 1))),
    (
        "1 / 2 beside 2 / 4",
        Fact::Order(1, 2, 2, 4, Ordering::Equal),
    ),
    (
        "0 / 5 beside 0 / 1",
        Fact::Order(0, 5, 0, 1, Ordering::Equal),
    ),
    (
        "2 / 3 beside 3 / 4",
        Fact::Order(2, 3, 3, 4, Ordering::Less),
    ),
    (
        "7 / 3 beside 9 / 4",
        Fact::Order(7, 3, 9, 4, Ordering::Greater),
    ),
    (
        "0 / 9 beside 1 / MOST",
        Fact::Order(0, 9, 1, MOST, Ordering::Less),
    ),
    (
        "MOST / MOST - 1 beside MOST - 1 / MOST - 2",
        Fact::Order(MOST, MOST - 1, MOST - 1, MOST - 2, Ordering::Less),
    ),
    (
        "MOST - 1 / MOST beside MOST - 2 / MOST - 1",
        Fact::Order(MOST - 1, MOST, MOST - 2, MOST - 1, Ordering::Greater),
    ),
    (
        "MOST / 3 beside MOST / 3",
        Fact::Order(MOST, 3, MOST, 3, Ordering::Equal),
    ),
    (
        "the multiple of 4 and 6 within 12",
        Fact::Multiple(4, 6, 12, Some(12)),
    ),
    (
        "the multiple of 4 and 6 within 11",
        Fact::Multiple(4, 6, 11, None),
    ),
    (
        "the multiple of 1 and 1 within 1",
        Fact::Multiple(1, 1, 1, Some(1)),
    ),
    (
        "the multiple of 7 and 7 within 0",
        Fact::Multiple(7, 7, 0, None),
    ),
    (
        "the multiple of MOST and MOST within MOST",
        Fact::Multiple(MOST, MOST, MOST, Some(MOST)),
    ),
    (
        "the multiple of MOST and 2 within MOST",
        Fact::Multiple(MOST, 2, MOST, None),
    ),
    (
        "4 * 6 / 8 within 3",
        Fact::Product(4, 6, 8, 3, Some((3, 1))),
    ),
    ("4 * 6 / 8 within 2", Fact::Product(4, 6, 8, 2, None)),
    (
        "5 * 3 / 20 within MOST",
        Fact::Product(5, 3, 20, MOST, Some((3, 4))),
    ),
    (
        "0 * 7 / 9 within 0",
        Fact::Product(0, 7, 9, 0, Some((0, 1))),
    ),
    (
        "MOST * 6 / MOST within 6",
        Fact::Product(MOST, 6, MOST, 6, Some((6, 1))),
    ),
    (
        "MOST * MOST / 1 within MOST",
        Fact::Product(MOST, MOST, 1, MOST, None),
    ),
    ("the text '7'", Fact::Text("7", Ok((7, 1)))),
    ("the text '007'", Fact::Text("007", Ok((7, 1)))),
    ("the text '3/2'", Fact::Text("3/2", Ok((3, 2)))),
    ("the text '6/04'", Fact::Text("6/04", Ok((3, 2)))),
    (
        "the text '1000000/1'",
        Fact::Text("1000000/1", Ok((1000000, 1))),
    ),
    (
        "the text '1/1000000'",
        Fact::Text("1/1000000", Ok((1, 1000000))),
    ),
    ("the text ''", Fact::Text("", Err(RatioFault::Shape))),
    ("the text '/'", Fact::Text("/", Err(RatioFault::Shape))),
    ("the text '1/'", Fact::Text("1/", Err(RatioFault::Shape))),
    ("the text '/2'", Fact::Text("/2", Err(RatioFault::Shape))),
    (
        "the text '1/2/3'",
        Fact::Text("1/2/3", Err(RatioFault::Shape)),
    ),
    ("the text '+1'", Fact::Text("+1", Err(RatioFault::Shape))),
    ("the text '-1'", Fact::Text("-1", Err(RatioFault::Shape))),
    ("the text '1.5'", Fact::Text("1.5", Err(RatioFault::Shape))),
    ("the text ' 1'", Fact::Text(" 1", Err(RatioFault::Shape))),
    (
        "the text '1 /2'",
        Fact::Text("1 /2", Err(RatioFault::Shape)),
    ),
    ("the text 'x'", Fact::Text("x", Err(RatioFault::Shape))),
    ("the text '0'", Fact::Text("0", Err(RatioFault::Zero))),
    ("the text '000'", Fact::Text("000", Err(RatioFault::Zero))),
    ("the text '0/5'", Fact::Text("0/5", Err(RatioFault::Zero))),
    ("the text '5/0'", Fact::Text("5/0", Err(RatioFault::Zero))),
    (
        "the text '0/1000001'",
        Fact::Text("0/1000001", Err(RatioFault::Zero)),
    ),
    (
        "the text '340282366920938463463374607431768211456'",
        Fact::Text(
            "340282366920938463463374607431768211456",
            Err(RatioFault::TooLarge),
        ),
    ),
    (
        "the text '1000001'",
        Fact::Text("1000001", Err(RatioFault::TooLarge)),
    ),
    (
        "the text '1/1000001'",
        Fact::Text("1/1000001", Err(RatioFault::TooLarge)),
    ),
    (
        "the text '4/2000000'",
        Fact::Text("4/2000000", Err(RatioFault::TooLarge)),
    ),
];

#[test]
fn works_out_fractions() -> Result<(), Fail> {
    multiples_are_least();
    for (name, fact) in &FACTS {
        holds(is_so(fact), name)?;
    }
    Ok(())
}

static CAUSES: [(RatioFault, &str); 3] = [
    (
        RatioFault::Shape,
        "neither a whole number nor a fraction of two",
    ),
    (RatioFault::Zero, "a part is 0"),
    (RatioFault::TooLarge, "a part is greater than 1000000"),
];

#[test]
fn says_why_a_text_is_no_fraction(rt: HostRuntime) -> Result<(), Fail> {
    for (fault, text) in &CAUSES {
        is_written(rt.alloc(), fault, text)?;
    }
    Ok(())
}
