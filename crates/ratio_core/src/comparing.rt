//! Fractions compared without their products.

ghost use Rattle.std.specs.Prelude.{◌≡◌, ◌*◌, ◌≤◌};
ghost use Rattle.std.specs.Ordering.{nat_cmp};

use std::cmp::Ordering;

/// Compares `a / b` with `c / d` for all values, also where the products of the parts exceed 128 bits: by the whole parts, and where
/// these are equal by what is left of them, turned over, as Euclid's algorithm goes.
///
/// Takes four divisions a step, and at most as many steps as Euclid's algorithm for the smaller denominator.
pub fn cmp_parts(a: u128, b: u128, c: u128, d: u128) -> Ordering
    requires left { 1 ≤ b }
    requires right { 1 ≤ d }
    ensures { result ≡ nat_cmp (a * d) (c * b) }
{
    let left = a / b;
    let right = c / d;
    if left != right {
        return left.cmp(&right);
    }
    let left_rest = a % b;
    let right_rest = c % d;
    if left_rest == 0 || right_rest == 0 {
        return left_rest.cmp(&right_rest);
    }
    cmp_parts(d, right_rest, b, left_rest)
}
