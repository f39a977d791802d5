//! Fractions of whole numbers, in lowest terms.
#![tactic(auto)]

mod comparing;
mod ratio;
mod text;

pub use comparing::cmp_parts;
pub use ratio::{Ratio, gcd, lcm_within, multiples_are_least, product_within};
pub use text::{RatioFault, parse_ratio};
