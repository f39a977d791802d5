//! Combinations of two cells that fit 128 bits.

ghost use Rattle.std.specs.Prelude.{◌≡◌, ℤ, ◌-ℤ◌, ◌*ℤ◌};
ghost use Rattle.linear_program.specs.Sizes.{fitting_combination, fitting};

/// The product, where its size is at most 2^127 - 1.
pub fn fitting_product(a: i128, b: i128) -> Option<i128>
    ensures { result ≡ fitting (a *ℤ b) }
{
    match a.checked_mul(b) {
        Some(product) if product != i128::MIN => Some(product),
        _ => None,
    }
}

/// The difference, where its size is at most 2^127 - 1.
fn fitting_difference(a: i128, b: i128) -> Option<i128>
    ensures { result ≡ fitting (a -ℤ b) }
{
    match a.checked_sub(b) {
        Some(difference) if difference != i128::MIN => Some(difference),
        _ => None,
    }
}

/// `p * a - q * b`, where neither a product nor the difference exceeds 2^127 - 1 in size.
pub fn combined(p: i128, a: i128, q: i128, b: i128) -> Option<i128>
    ensures { result ≡ fitting_combination p a q b }
{
    let left = fitting_product(p, a)?;
    let right = fitting_product(q, b)?;
    fitting_difference(left, right)
}
