//! Numbers as they are printed.

ghost use Rattle.std.specs.Prelude.{◌≡◌, ◌<◌, ◌^◌, true};
ghost use Rattle.std.specs.Char.{is_ascii_digit};
ghost use Rattle.std.specs.List.{list_all};
ghost use Rattle.std.specs.Str.Parse.{digits_value};
ghost use Rattle.ratio_core.specs.Texts.{is_number};
ghost use Rattle.text_lines.specs.Numbers.{is_plain, at_most, below_zero, number_of, natural_of, integer_of};

/// Whether all of the bytes are ASCII digits.
fn all_digits(bytes: &[u8]) -> bool
    ensures { result ≡ list_all is_ascii_digit bytes.now }
{
    bytes.iter().all(|byte| byte.is_ascii_digit())
}

/// Whether a text is digits without a leading zero, but in `0` itself.
fn is_plain(text: &[u8]) -> bool
    ensures { result ≡ is_plain text.now }
{
    !text.is_empty() && all_digits(text) && (text.len() == 1 || text[0] != b'0')
}

/// The number that digits write, where it is at most the bound.
fn value_within(digits: &[u8], most: u128) -> Option<u128>
    requires { list_all is_ascii_digit digits.now ≡ true }
    ensures { result ≡ at_most most (digits_value 10 digits.now) }
{
    let mut value: u128 = 0;
    for digit in digits {
        value = value
            .checked_mul(10)?
            .checked_add(u128::from(*digit - b'0'))?;
    }
    if value <= most { Some(value) } else { None }
}

/// The number that decimal digits write, leading zeros among them. `None` where the text is no digits, or the number is greater than the
/// bound.
pub fn number_of(text: &[u8], most: u128) -> Option<u128>
    ensures { result ≡ number_of most text.now }
{
    if !text.is_empty() && all_digits(text) {
        value_within(text, most)
    } else {
        None
    }
}

/// The number that is printed so: in decimal digits without a leading zero. `None` where the text is no such one, or the number is
/// greater than the bound.
pub fn natural_of(text: &[u8], most: u128) -> Option<u128>
    ensures { result ≡ natural_of most text.now }
{
    if is_plain(text) {
        value_within(text, most)
    } else {
        None
    }
}

/// The number below 0 of this size.
fn below_zero(size: u128) -> Option<i128>
    requires { size < 2 ^ 127 }
    ensures { result ≡ below_zero size }
{
    if size == 0 {
        None
    } else {
        Some(-(size as i128))
    }
}

/// The whole number that is printed so, with a minus sign where it is below 0. `None` where the text is no such one, or the number is
/// greater than the bound in size.
pub fn integer_of(text: &[u8], most: u128) -> Option<i128>
    requires { most < 2 ^ 127 }
    ensures { result ≡ integer_of most text.now }
{
    if text.first() == Some(&b'-') {
        below_zero(natural_of(&text[1..], most)?)
    } else {
        Some(natural_of(text, most)? as i128)
    }
}
