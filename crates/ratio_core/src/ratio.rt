//! Fractions in lowest terms.

ghost use Rattle.std.specs.Prelude.{◌≡◌, ℕ, ◌*◌, ◌≤◌, Some, None, cond, nat_le};
ghost use Rattle.std.specs.Int.{IsGcd};
ghost use Rattle.ratio_core.specs.Fraction.{reduced, gcd_of};
ghost use Rattle.ratio_core.specs.Multiples.{IsLeastCommonMultiple, lcm_of};

use std::marker::Model;

/// The greatest common divisor, by Euclid's algorithm; that of two zeros is 0.
///
/// Takes at most as many divisions as five times the decimal digits of the smaller number (Lamé's bound).
pub fn gcd(a: u128, b: u128) -> u128
    ensures divisor { IsGcd a b result }
    ensures value { result ≡ gcd_of a b }
{
    if b == 0 { a } else { gcd(b, a % b) }
}

/// The least common multiple of two numbers, where it is at most `max`.
///
/// Takes one greatest common divisor and two divisions.
pub fn lcm_within(a: u128, b: u128, max: u128) -> Option<u128>
    requires first { 1 ≤ a }
    requires second { 1 ≤ b }
    ensures value { result ≡ cond (nat_le (lcm_of a b) max) (Some (lcm_of a b)) None }
    ensures least { IsLeastCommonMultiple a b (lcm_of a b) }
{
    let share = a / gcd(a, b);
    if share <= max / b {
        Some(share * b)
    } else {
        None
    }
}

/// Two numbers of at least 1 have a least common multiple, of which every common multiple is a multiple.
pub fn multiples_are_least()
    ensures { (a b : ℕ) → 1 ≤ a → 1 ≤ b → IsLeastCommonMultiple a b (lcm_of a b) }
{}

/// A fraction in lowest terms, with a denominator of at least 1; zero is 0/1.
#[derive(Clone, Copy, Debug, PartialEq, Eq)]
pub struct Ratio {
    num: u128,
    den: u128,
}

impl Model for Ratio {
    ghost use Rattle.ratio_core.specs.Fraction.{Fraction, IsReduced};

    ghost Value = { Fraction };

    ghost view = { λ a. record { num = a.num; den = a.den } };

    ghost invariant = { λ a. IsReduced (record { num = a.num; den = a.den }) };

    ghost inverse = { λ f. record { num = f.num; den = f.den } };
}

impl Ratio {
    /// The fraction `num / den` in lowest terms.
    pub fn new(num: u128, den: u128) -> Ratio
        requires { 1 ≤ den }
        ensures { result ≡ reduced num den }
    {
        let divisor = gcd(num, den);
        Ratio {
            num: num / divisor,
            den: den / divisor,
        }
    }

    /// The numerator, in lowest terms.
    pub fn num(&self) -> u128
        ensures { result ≡ self.now.num }
    {
        self.num
    }

    /// The denominator, in lowest terms.
    pub fn den(&self) -> u128
        ensures value { result ≡ self.now.den }
        ensures at_least_one { 1 ≤ self.now.den }
    {
        self.den
    }
}

/// The fraction `a * b / den` in lowest terms, where its numerator is at most `max`, also where the product exceeds 128 bits.
///
/// Takes two greatest common divisors and four divisions.
pub fn product_within(a: u128, b: u128, den: u128, max: u128) -> Option<Ratio>
    requires { 1 ≤ den }
    ensures { result ≡ cond (nat_le (reduced (a * b) den).num max) (Some (reduced (a * b) den)) None }
{
    let first = Ratio::new(a, den);
    let second = Ratio::new(b, first.den());
    let num = first.num().checked_mul(second.num())?;
    if num <= max {
        let den = second.den();
        Some(Ratio { num, den })
    } else {
        None
    }
}

impl From<u128> for Ratio {
    ghost use Rattle.ratio_core.specs.Fraction.{whole};

    ghost from_gives = { λ n ratio. ratio ≡ whole n };

    fn from(n: u128) -> Ratio {
        Ratio { num: n, den: 1 }
    }
}
