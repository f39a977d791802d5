//! Fractions written as text.

ghost use Rattle.std.specs.Prelude.{◌≡◌, true, IfOk};
ghost use Rattle.std.specs.Char.{is_ascii_digit};
ghost use Rattle.std.specs.List.{list_all};
ghost use Rattle.std.specs.Str.Parse.{digits_value};
ghost use Rattle.ratio_core.specs.Texts.{is_number, ratio_of, ratio_of_texts, ratio_of_parts, capped, HasSmallParts};

use crate::ratio::Ratio;
use thiserror::Error;

/// The greatest numerator and denominator that a text may write.
const MOST_PART: u128 = 1000000;

/// Why a text is no fraction.
#[derive(Clone, Copy, Debug, PartialEq, Eq, Error)]
pub enum RatioFault {
    /// It isn't `D` or `D/D`, where D is one or more ASCII digits.
    #[error("neither a whole number nor a fraction of two")]
    Shape,
    /// It has this form, and a part is 0.
    #[error("a part is 0")]
    Zero,
    /// It has this form, no part is 0, and a part is greater than 1,000,000.
    #[error("a part is greater than 1000000")]
    TooLarge,
}

/// Reads a fraction: `D` or `D/D`, where D is one or more ASCII digits, with leading zeros or without. Both parts are from 1
/// to 1,000,000. Takes time in proportion to the text.
pub fn parse_ratio(text: &str) -> Result<Ratio, RatioFault>
    ensures value { result ≡ ratio_of text.now }
    ensures parts { IfOk result HasSmallParts }
{
    match text.split_once('/') {
        Some((num, den)) => ratio_of_texts(num, den),
        None => ratio_of_texts(text, "1"),
    }
}

/// The fraction of two texts, each a number.
fn ratio_of_texts(num: &str, den: &str) -> Result<Ratio, RatioFault>
    ensures value { result ≡ ratio_of_texts num.now den.now }
    ensures parts { IfOk result HasSmallParts }
{
    if is_number(num) && is_number(den) {
        ratio_of_parts(number_of(num), number_of(den))
    } else {
        Err(RatioFault::Shape)
    }
}

/// The fraction of two parts, each from 1 to a million.
fn ratio_of_parts(num: u128, den: u128) -> Result<Ratio, RatioFault>
    ensures value { result ≡ ratio_of_parts num den }
    ensures parts { IfOk result HasSmallParts }
{
    if num == 0 || den == 0 {
        Err(RatioFault::Zero)
    } else if num > MOST_PART || den > MOST_PART {
        Err(RatioFault::TooLarge)
    } else {
        Ok(Ratio::new(num, den))
    }
}

/// Tells whether a text has at least one digit, and nothing but digits.
fn is_number(text: &str) -> bool
    ensures { result ≡ is_number text.now }
{
    !text.is_empty() && all_digits(text.as_bytes())
}

/// Tells whether all of the bytes are ASCII digits.
fn all_digits(bytes: &[u8]) -> bool
    ensures { result ≡ list_all is_ascii_digit bytes.now }
{
    bytes.iter().all(|byte| byte.is_ascii_digit())
}

/// The number that the digits write, or the greatest of 128 bits where it needs more.
fn number_of(digits: &str) -> u128
    requires { is_number digits.now ≡ true }
    ensures { result ≡ capped (digits_value 10 digits.now) }
{
    digits.parse().unwrap_or(u128::MAX)
}
